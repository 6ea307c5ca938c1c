//! Tests of what no script reaches: lengths that no cycle has, values that no script says, and what no session uses yet.
#![tactic(auto)]

#[cfg(test)]
mod benches;
#[cfg(test)]
mod mixes;
#[cfg(test)]
mod parts;
#[cfg(test)]
mod plain;
#[cfg(test)]
mod report;
#[cfg(test)]
mod sums;
#[cfg(test)]
mod transports;
#[cfg(test)]
mod widths;
#[cfg(test)]
mod writing;

//! Tests of a check: reports and files that no play has, a byte at a read, and reads that fail.
#![tactic(auto)]

#[cfg(test)]
mod files;
#[cfg(test)]
mod scripts;
#[cfg(test)]
mod sources;
#[cfg(test)]
mod told;

//! Tests of crews over clients' benches, and of the machine of a cycle as plain data.
#![tactic(auto)]

#[cfg(test)]
mod benches;
#[cfg(test)]
mod cores;
#[cfg(test)]
mod crews;
#[cfg(test)]
mod gates;

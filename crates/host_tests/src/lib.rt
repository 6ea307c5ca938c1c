//! Tests of sources, stores, sinks and a host in memory, and of the gate that holds nobody.
#![tactic(auto)]

#[cfg(test)]
mod files;
#[cfg(test)]
mod tests;

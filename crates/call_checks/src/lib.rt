//! The calls of a report, checked one by one: each has to be the next of its lane and to have the graph's reply.
#![tactic(auto)]

mod checks;

pub use checks::CallChecks;

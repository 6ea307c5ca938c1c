//! Laws of the stage on which the clients of a plan play, of its cycles and of who owns its benches, each as the contract of
//! a function that does nothing.
#![tactic(auto)]

pub mod owning;
pub mod stages;

//! The laws by which a checker plays a session over a report's numbers, each as the contract of a function that does nothing.
#![tactic(auto)]

pub mod laws;

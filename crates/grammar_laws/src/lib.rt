//! Laws of the grammar of scripts, each as the contract of a function that does nothing.
#![tactic(auto)]

pub mod grammar;

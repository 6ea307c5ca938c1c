//! Laws of the states that commands lead to, each as the contract of a function that does nothing.
#![tactic(auto)]

pub mod graphs;

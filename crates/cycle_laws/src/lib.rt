//! Laws of the parts of a driver in one cycle, each as the contract of a function that does nothing.
#![tactic(auto)]

pub mod gears;

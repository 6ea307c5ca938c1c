//! What contracts see of the driver of the cycles, and the laws of it, each as the contract of a function that does nothing.
#![tactic(auto)]

pub mod courses;
pub mod cycling;
pub mod endings;

pub use cycle_plan;

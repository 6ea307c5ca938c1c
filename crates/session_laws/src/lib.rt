//! The laws of the definitions, each as the contract of a function that does nothing.
#![tactic(auto)]

pub mod cycles;
pub mod loops;
pub mod machine;
pub mod serial;

pub use session_model::jack_types;

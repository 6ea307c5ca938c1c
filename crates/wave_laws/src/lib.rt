//! Laws of WAVE files, each as the contract of a function that does nothing.
#![tactic(auto)]

pub mod waves;

pub use session_model::jack_types;

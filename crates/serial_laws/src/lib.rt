//! Laws of a serial session's run, each as the contract of a function that does nothing: what its calls leave, one after
//! another, is where serial mode is.
#![tactic(auto)]

pub mod cycles;
pub mod endings;
pub mod faults;
pub mod numbers;
pub mod openings;
pub mod parts;
pub mod rings;

pub use run_laws::{control_desk, serial_lanes};

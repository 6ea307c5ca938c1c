//! Laws of plans, scripts and benches that the driver of the cycles needs, each as the contract of a function that does nothing.
#![tactic(auto)]

pub mod plans;
pub mod playing;
pub mod scripts;

pub use client_benches::client_kinds;
pub use driver_laws;
pub use driver_laws::cycle_plan;

//! What contracts see of a session, and the laws of its run, each as the contract of a function that does nothing.
#![tactic(auto)]

pub mod endings;
pub mod meetings;
pub mod runs;
pub mod serial;

pub use driver_laws;
pub use serial_lanes;
pub use serial_lanes::control_desk;

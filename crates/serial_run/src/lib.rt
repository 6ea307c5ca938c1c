//! The phases of a session in serial mode: calls, cycles, recorders and disks by turns, all of them on the caller's thread.
#![tactic(auto)]

mod laws;
mod phases;
mod running;
mod steps;
mod turning;

pub use running::run_serial;

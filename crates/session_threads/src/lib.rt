//! The phases of a session in threads mode: its desk, its driver, its recorders and the readers of its disks work at once,
//! and meet between two segments.
#![tactic(auto)]

mod joins;
mod lanes;
mod laws;
mod meetings;
mod phases;
mod rig;
mod rings;
mod running;
mod segments;
mod serving;

pub use lanes::Lanes;
pub use running::run_threads;

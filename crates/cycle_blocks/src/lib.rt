//! The recorders' part of a driver's cycle: what each client that records heard goes into its recorder's ring.
#![tactic(auto)]

mod finding;
mod laying;
mod sending;

pub use recorder_rings;
pub use sending::send_blocks;

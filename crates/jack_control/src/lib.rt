//! The top call: all that the program does, over a host and a sink.
#![tactic(auto)]

mod disks;
mod files;
mod opening;
mod playing;
mod rehearsing;
mod top;

pub use play_inputs::{Difference, Status, What};
pub use top::jackd;

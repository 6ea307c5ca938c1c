//! One cycle of a crew: its seats are shared among threads, and every node is played once.
#![tactic(auto)]

mod running;

pub use activation;
pub use running::{run, run_cycle};

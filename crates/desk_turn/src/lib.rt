//! Lanes of one desk that make their calls from threads of their own: whoever finds the desk at home takes it out for one step.
#![tactic(auto)]

mod kept;
mod lanes;
pub mod laws;

pub use kept::TurnDesk;
pub use lanes::{calls_made, run_lanes};

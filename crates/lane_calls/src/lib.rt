//! The calls that a script has for each lane.
#![tactic(auto)]

mod calls;
mod progress;

pub use calls::{LaneCalls, PlannedCall};
pub use session_script;

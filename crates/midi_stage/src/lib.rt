//! The MIDI clients of a session: what they hear and play in each cycle, beside the crew.
#![tactic(auto)]

mod carrying;
mod cycling;
mod hearing;
pub mod laws;
mod opening;
mod parts;
mod performing;
mod playing;
mod sounds;
mod stage;
mod turning;

pub use midi_seats::{driver_laws, task_laws};
pub use midi_wiring::cycle_plan;
pub use script_needs;
pub use script_needs::session_script;
pub use stage::MidiStage;

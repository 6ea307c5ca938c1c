//! How the MIDI ports of a plan's clients are wired: where each input has its events from.
#![tactic(auto)]

mod adding;
mod ends;
mod giving;
mod joining;
pub mod joints;
pub mod laws;
mod ports;
pub mod wiring;

pub use client_wiring;
pub use client_wiring::cycle_plan;
pub use joints::{MidiFrom, MidiGiven, MidiJoint, MidiWidths};
pub use wiring::MidiWiring;

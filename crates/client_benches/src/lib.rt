//! The bench that a crew plays for a client.
//!
//! A [`ClientBench`] has a client's memory, and its work in a cycle: when it plays, what each of its
//! inputs is mixed from, and which of its outputs each outgoing link carries. What goes along a link
//! are [`Rooms`].
#![tactic(auto)]

mod benches;
mod filling;
mod gathering;
mod known;
mod laws;
mod mixing;
mod passes;
mod playing;
mod reading;
mod setting;
mod settling;
mod values;
mod wires;

pub use benches::{BenchMemory, ClientBench, Stint};
pub use gathering::Few;
pub use known::Room;
pub use laws::{crew_plays_by_all_scores, plays_by_all_scores};
pub use values::{Rooms, Route};
pub use wires::{Source, Wire};

/// The frames of the longest period. All room is taken for as many.
pub const MOST_FRAMES: usize = 4096;

/// The most inputs, and the most outputs, of a client.
pub const MOST_PORTS: usize = 16;

/// The most connections.
pub const MOST_CONNECTIONS: usize = 512;

pub use activation;
pub use client_kinds;

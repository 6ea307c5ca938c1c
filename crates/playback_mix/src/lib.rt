//! What the playback gets: each channel the mix of what its connections bring, and all channels interleaved.
#![tactic(auto)]

mod block;
mod channels;
mod sounds;

pub use block::Playback;
pub use client_wiring;

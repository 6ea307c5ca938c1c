//! The writer of WAVE files: frames to bytes, with both sizes written at the end.
#![tactic(auto)]

mod finishing;
mod header;
mod tape;

pub use tape::WaveOut;

//! The rings of a session's recorders, as the driver of the cycles has them.
//!
//! [`RecorderRings`] has of each recorder the end of its ring that puts, the block that is put next, and
//! how many blocks were put; and it has the overruns of all.
#![tactic(auto)]

mod blocks;
mod making;
mod putting;
mod rings;

pub use rings::RecorderRings;

/// No recorder's blocks have more samples than so many together.
pub const MOST_SAMPLES: u64 = 500_000_000;

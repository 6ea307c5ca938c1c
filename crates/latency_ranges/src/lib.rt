//! The latency ranges of all ports.
#![tactic(auto)]

mod joins;
mod latencies;
mod passes;
mod sides;

pub use jack_types::{Delay, Mode};
pub use latencies::ranges;

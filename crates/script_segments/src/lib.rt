//! The segments of a script, in their order.
#![tactic(auto)]

pub mod laws;
mod lines;

pub use lines::{Segment, segments};

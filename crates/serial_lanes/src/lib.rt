//! The lanes of serial mode: a desk's calls between the cycles, made by one thread in the stated order.
#![tactic(auto)]

mod lanes;
pub mod laws;

pub use control_desk;
pub use lanes::{begin_group, begin_phase, round};

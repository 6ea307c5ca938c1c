//! Samples as a file stores them, their sums, and the clamp.
#![tactic(auto)]

mod kernels;
mod scaling;
mod sums;

pub use scaling::{from_bytes, to_bytes};
pub use sums::{add_into, clamp64, set_to, settle};
pub use wave_laws::jack_types;

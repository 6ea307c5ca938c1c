//! One clamped sum of parts.
#![tactic(auto)]

mod fours;
mod mixing;

pub use mixing::{Mixer, see_samples};
pub use samples;
pub use session_laws::jack_types;

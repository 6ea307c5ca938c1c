//! What a check sees at the first wrong place, and the words for its parts.
#![tactic(auto)]

mod parts;
mod sights;

pub use parts::name_of_part;
pub use sights::{Number, Sight};

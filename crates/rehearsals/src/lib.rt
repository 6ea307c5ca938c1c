//! The large session that is made from a number: `Rehearsal` has its script and its capture.
#![tactic(auto)]

mod drawing;
mod lines;
mod names;
mod rehearsal;
mod sounds;
mod texts;
mod told;

pub use rehearsal::Rehearsal;
pub use told::{Summary, summary};

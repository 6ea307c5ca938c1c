//! The words of a command, read: `play_names` gives the `Names` of a play, `rehearsal_number` the number of a rehearsal, and
//! `check_names` the `CheckNames` of a check.
#![tactic(auto)]

mod checks;
mod lawful;
pub mod laws;
mod numbers;
mod pairs;
mod reading;
mod words;

pub use checks::{CheckNames, check_names};
pub use numbers::rehearsal_number;
pub use reading::play_names;
pub use words::Names;

//! The header of a session script, and its event lines.
#![tactic(auto)]

mod events;
mod front;
mod lists;
mod optional;
mod required;
mod words;

pub use events::Item;
pub use front::{Front, read_front};
pub use script_commands::script_words;

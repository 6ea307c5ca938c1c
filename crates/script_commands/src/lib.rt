//! The kinds and commands of a session script, read from the words of a line.
#![tactic(auto)]

mod commands;
mod kinds;

pub use commands::command;
pub use script_words;

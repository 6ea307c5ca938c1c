//! The text of a session's script: reading with exact faults, and printing.
#![tactic(auto)]

mod lists;
mod reading;
mod script;

pub use script::{Script, Text};

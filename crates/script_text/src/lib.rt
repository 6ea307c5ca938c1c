//! The text of a session script, printed in its one spelling.
#![tactic(auto)]

mod bodies;
mod commands;
mod events;
mod header;
mod script;
mod words;

pub use script::printed;

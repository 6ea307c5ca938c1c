//! Transport states and frames, one row a cycle.
#![tactic(auto)]

mod asking;
mod stepping;

pub use stepping::Transport;

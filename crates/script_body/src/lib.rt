//! The body of a session script: calls, segments and changes of the period.
#![tactic(auto)]

mod bodies;
mod lane;
mod line;
mod standing;

pub use bodies::read_body;

//! Which graph a cycle of a session used: a report replayed up to the cycle, as a text.
#![tactic(auto)]

mod dots;
mod fault_lines;
mod faults;
mod graphs;
mod kinds;
pub mod laws;
mod reading;
mod replaying;
mod reports;
mod texts;
mod top;
mod words;

pub use faults::GraphFault;
pub use top::graph;

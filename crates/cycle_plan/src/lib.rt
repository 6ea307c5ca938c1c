//! A graph after its changes, and a plan: a graph laid out for the cycles, with the order of its nodes, the links between
//! them and their counts.
#![tactic(auto)]

mod clients;
mod counts;
pub mod graph;
pub mod laws;
pub mod layout;
mod links;
mod masters;
mod nodes;
pub mod plan;
mod replaying;
mod rewiring;
mod roomy;
mod wires;

pub use feedback_edges;
pub use graph::Graph;
pub use layout::Layout;
pub use plan::Plan;

//! Which edges close a loop: the loop test, the mark of a new edge, and marks made anew.
#![tactic(auto)]

pub mod marking;
pub mod numbers;
pub mod searching;

pub use connection_set;
pub use marking::{leads, mark, remark};
pub use numbers::{MOST_NODES, MOST_PORTS, node_table, number_of};
pub use searching::reached;

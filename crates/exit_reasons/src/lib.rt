//! Why a command ended as it did, as standard error tells it.
#![tactic(auto)]

mod checks;
mod telling;

pub use telling::{MOST_OF_CAPTURE, MOST_OF_SCRIPT, NO_MEMORY, Told, print_told, tell, tell_graph};

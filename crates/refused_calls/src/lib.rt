//! The refused calls of a report, noted line by line.
#![tactic(auto)]

mod notes;

pub use notes::{MOST_NOTED, Notes, Refused};

//! How far a report was read, line by line: what may come next, and when it is whole.
#![tactic(auto)]

pub mod laws;
mod places;
mod walking;

pub use places::{Limits, Place};
pub use report_reader;

//! The desk: calls and their history, replies by the present state, and the publishing of each accepted change.
#![tactic(auto)]

mod desk;
mod history;
pub mod laws;
mod steps;

pub use desk::Desk;
pub use steps::Stepped;

//! The command `check`: whether a report explains its files, over a host and a sink.
#![tactic(auto)]

mod checking;
mod files;
mod opening;
mod top;
mod verdicts;

pub use top::check_named;

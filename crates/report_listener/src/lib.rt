//! A sink that listens to the report that goes through it, and notes its calls, its recorders and its disks.
#![tactic(auto)]

mod listening;

pub use listening::ListeningSink;

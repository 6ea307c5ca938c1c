//! A recorder of a session: the end of its ring that gets, and the file that is filled from it.
#![tactic(auto)]

mod recorder;

pub use recorder::Recorder;

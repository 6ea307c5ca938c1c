//! The laws of the session that is made from a number, each as the contract of a function that does nothing.
#![tactic(auto)]

pub mod captures;
pub mod names;
pub mod playback;
pub mod recording;
pub mod scripts;
pub mod serial;

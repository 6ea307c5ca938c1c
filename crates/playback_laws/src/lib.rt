//! Laws of the playback and the capture of a cycle, each as the contract of a function that does nothing.
#![tactic(auto)]

pub mod mixes;
pub mod periods;

pub use playback_mix;
pub use playback_mix::client_wiring;

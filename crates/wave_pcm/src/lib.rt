//! The reader of WAVE files: bytes to frames, read forward from any source.
#![tactic(auto)]

mod chunks;
mod formats;
mod input;
mod pairs;
mod wave;

pub use wave::Wave;

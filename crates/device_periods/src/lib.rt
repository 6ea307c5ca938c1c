//! Periods of the device: the capture read and taken apart into channels, and channels laid together into blocks.
#![tactic(auto)]

mod blocks;
mod captures;

pub use blocks::{lay_channel, lay_two, take_channel};
pub use captures::{Capture, read_block};

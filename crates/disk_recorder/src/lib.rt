//! From a ring to a file: the blocks got are written in their order, each by one put.
#![tactic(auto)]

mod passing;
mod writing;

pub use wave_write;
pub use writing::{drain, finish, serve};

//! What a session has to be made for, read off its script once, when it is opened.
#![tactic(auto)]

mod lengths;
pub mod limits;
mod opening;

pub use lengths::{cycles, greatest_period};
pub use opening::{guests, open_kinds};
pub use session_script;

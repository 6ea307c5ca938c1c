//! What each kind of client plays.
#![tactic(auto)]

mod benches;
mod buffers;
mod guests;
mod lines;
mod seats;
mod sounds;
mod voices;

pub use benches::{Bench, Health};
pub use buffers::repeat_first;
pub use guests::{Guest, Shape};
pub use port_mixer;

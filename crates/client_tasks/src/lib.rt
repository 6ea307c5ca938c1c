//! What the clients of a plan do in a cycle, set on the benches of a rack.
#![tactic(auto)]

mod carrying;
mod filling;
mod hearing;
mod placing;
mod setting;
mod turns;

pub use client_wiring;
pub use device_periods;
pub use filling::fill_wires;
pub use placing::place_last;
pub use setting::set_tasks;
pub use turns::{clear_all, move_all, rest_all};

//! The stage on which the clients of a plan play, and the steps of a cycle on it.
#![tactic(auto)]

mod casting;
mod laws;
mod parts;
mod performing;
mod playing;
mod reading;
mod stage;
mod turning;

pub use casting::cast;
pub use device_periods;
pub use disk_feeds;
pub use laws::a_cast_is_the_stages;
pub use performing::perform;
pub use stage::Stage;

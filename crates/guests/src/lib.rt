//! The guests that the program hands in: an echo, a filter, one that holds a sample, and one that fails.
#![tactic(auto)]

mod any;
mod echo;
mod fail;
mod fir;
mod hearing;
mod hold;

pub use any::AnyGuest;
pub use echo::EchoGuest;
pub use fail::FailGuest;
pub use fir::FirGuest;
pub use hold::HoldGuest;

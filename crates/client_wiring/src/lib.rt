//! How the clients of a plan are wired: what each has by ports, what its connections carry, and where they bring it.
#![tactic(auto)]

mod adding;
mod ends;
mod giving;
mod joining;
pub mod joints;
pub mod laws;
mod links;
mod tables;
pub mod wiring;

pub use cycle_plan;
pub use joints::{Carried, Given, Heard, Joint, Origin, Output, Sound, Widths};
pub use wiring::Wiring;

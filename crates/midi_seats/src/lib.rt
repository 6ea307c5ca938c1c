//! Which bench plays which MIDI client of a session.
#![tactic(auto)]

pub mod laws;
pub mod seating;

pub use seating::{NoBench, Owned, seat_all};
pub use task_laws;
pub use task_laws::driver_laws;

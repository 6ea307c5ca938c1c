//! Which bench of a rack plays which client.
//!
//! [`Owners`] know who owns each bench of a rack, and keep the guests that are not lent. [`seat`] gives
//! the clients that play their benches, in the order of their nodes.
#![tactic(auto)]

mod guests;
mod laws;
mod owners;
mod places;
mod seating;

pub use bench_rack;
pub use bench_rack::bench_crew;
pub use laws::{a_play_keeps_the_guest, plays_keep_a_seating};
pub use owners::Owners;
pub use seating::{peak, seat};

//! One cycle of a crew whose seats take each other's nodes.
#![tactic(auto)]

mod cycling;
mod deques;
mod ends;
mod making;
mod places;
mod seating;
mod stealing;
mod tallies;
mod thieves;

pub use cycle_workers;
pub use cycling::steal_cycle;
pub use thieves::Thieves;

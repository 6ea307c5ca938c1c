//! Activation counters: a node of a graph is played as soon as all that feeds it was played.
//!
//! [`Core`] is the machine as plain data. [`Crew`] does its steps on atomic words, for several seats at
//! once, over benches that implement [`Work`].
#![tactic(auto)]

mod changes;
mod cores;
mod crews;
mod crossing;
mod gathering;
mod indexes;
mod leaving;
mod making;
mod opening;
mod rules;
mod stands;
mod takens;
mod turns;
mod views;
mod work;

pub use cores::Core;
pub use crews::Crew;
pub use session_laws::jack_types;
pub use stands::{Stand, Step};
pub use takens::{Seat, Taken};
pub use work::Work;

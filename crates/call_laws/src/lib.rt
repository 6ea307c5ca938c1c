//! Lemmas that the calls of a session and of a report share. It has no code of its own.
#![tactic(auto)]

pub use cycle_plan;

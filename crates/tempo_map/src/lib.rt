//! Bar, beat and tick of a frame.
#![tactic(auto)]

mod tempos;

pub use tempos::Tempo;

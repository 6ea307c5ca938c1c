//! A crew of clients' benches with its seats: it plays the benches of a cycle, whatever list they lie in.
#![tactic(auto)]

mod alone;
mod ensembles;
mod linking;
mod playing;
mod sharing;
mod sources;

pub use client_benches;
pub use client_benches::client_kinds;
pub use ensembles::Ensemble;
pub use sharing::Load;

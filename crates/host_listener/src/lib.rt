//! A host in front of another one, which keeps the first bytes of the files that are read through it.
#![tactic(auto)]

mod fronts;
mod listening_host;
mod listening_source;

pub use fronts::Front;
pub use listening_host::ListeningHost;
pub use listening_source::ListeningSource;

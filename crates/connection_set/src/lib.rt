//! The connections between ports: edges in the order of making, with their marks.
//!
//! `Connections` answers whether a connection may be made or taken away, makes it, and takes edges away. It knows
//! ports by their ids, and takes them as they were looked up.
#![tactic(auto)]

pub mod connections;

pub use connections::Connections;
pub use session_laws::jack_types;

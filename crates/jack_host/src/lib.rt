//! What the server reads and writes, as it sees it: sources, stores, sinks, the host that opens them, and the gate.
#![tactic(auto)]

mod gate;
mod traits;

pub use gate::{FreeGate, Gate};
pub use traits::{Failed, Host, ReadFailed, Sink, Source, Store, WriteFailed};

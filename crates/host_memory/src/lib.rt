//! Sources, stores, sinks and a host in memory, which tell all that they hold, and fail where they are told to.
#![tactic(auto)]

mod memory_host;
mod memory_sink;
mod memory_source;
mod memory_store;
mod refusals;

pub use memory_host::MemoryHost;
pub use memory_sink::MemorySink;
pub use memory_source::MemorySource;
pub use memory_store::MemoryStore;

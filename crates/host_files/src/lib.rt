//! The files of the system, and its writers, as the server's sources, stores, sinks and host.
#![tactic(auto)]

mod failures;
mod file_host;
mod file_source;
mod identities;
mod rooms;
mod system_file;
mod writer_sink;

pub use failures::{Failure, FailureKind};
pub use file_host::FileHost;
pub use file_source::FileSource;
pub use system_file::{FileStore, Syncing, SystemFile};
pub use writer_sink::WriterSink;

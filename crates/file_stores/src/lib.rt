//! Files that are written at any place, some bytes at a time, over disks that may tell their bytes.
#![tactic(auto)]

mod disk;
mod draft;
mod gathered;
mod memory_stream;
mod parts;
mod stream;
mod stream_disk;
mod tail_store;
mod target;

pub use disk::Disk;
pub use memory_stream::MemoryStream;
pub use parts::Parts;
pub use stream::Stream;
pub use stream_disk::StreamDisk;
pub use tail_store::TailStore;

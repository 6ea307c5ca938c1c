//! The reader of a disk file in a session: its player, and the meetings of the ring's two ends.
#![tactic(auto)]

mod reader;
mod serving;

pub use reader::DiskReader;
pub use serving::{has_failed, read_all};

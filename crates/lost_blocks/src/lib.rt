//! The blocks that recorders and disks missed, noted of a report line by line.
#![tactic(auto)]

mod losses;

pub use losses::{Losses, MOST_OWNERS, Owner, Stream};

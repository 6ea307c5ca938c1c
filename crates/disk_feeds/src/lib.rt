//! The disks' rings, as the driver of the cycles has them.
//!
//! [`DiskFeeds`] has of each disk the end of its ring that gets, the block that its player has in the cycle,
//! and how many blocks were got; and it has the underruns of all.
#![tactic(auto)]

mod feed;
mod feeds;
mod finding;
mod getting;
mod laws;
mod making;

pub use feeds::DiskFeeds;
pub use laws::{
    a_cycle_gets_one_block_of_each_ring, a_cycle_leaves_the_disks_ready,
    a_cycle_without_disks_gets_nothing, a_player_is_given_what_was_got, new_disks_are_ready,
};

/// No disk's blocks have more samples than so many together.
pub const MOST_SAMPLES: u64 = 1 << 33;

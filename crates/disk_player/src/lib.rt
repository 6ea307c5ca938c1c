//! The player of a disk file: blocks of the file go into a ring, ahead of the cycles that play them.
#![tactic(auto)]

mod laws;
mod player;

pub use laws::{
    a_broken_turn_has_put_blocks_of_its_file, a_player_has_put_blocks_of_its_file,
    a_turn_goes_on_with_its_file,
};
pub use player::{DiskPlayer, TurnEnd};

//! What a disk's player has in each cycle.

use crate::deck::{Deck, Step};
use crate::files::{CUT, EIGHT, FIRST, NONE, SECOND, SILENCE, TEN, THIRD};

/// The first row of "Disk players": `fill 1`.
#[test]
fn a_file_is_played_to_its_end(rt: HostRuntime) {
    Deck::play(
        &rt,
        rt.alloc(),
        TEN,
        &[
            Step::Turn(1),
            Step::Plays(FIRST),
            Step::Turn(1),
            Step::Plays(SECOND),
            Step::Turn(1),
            Step::Plays(THIRD),
            Step::Turn(1),
            Step::Plays(SILENCE),
            Step::Played(3),
        ],
    );
}

/// The second row: `fill 0`.
#[test]
fn a_disk_that_is_not_read_is_silent(rt: HostRuntime) {
    Deck::play(
        &rt,
        rt.alloc(),
        TEN,
        &[
            Step::Turn(0),
            Step::Misses(0, 0),
            Step::Turn(0),
            Step::Misses(0, 0),
            Step::Turn(0),
            Step::Misses(0, 0),
            Step::Turn(0),
            Step::Misses(0, 0),
            Step::Played(0),
        ],
    );
}

/// The third row: before a freewheel cycle the ring is filled.
#[test]
fn a_full_ring_plays_the_same(rt: HostRuntime) {
    Deck::play(
        &rt,
        rt.alloc(),
        TEN,
        &[
            Step::Turn(2),
            Step::Plays(FIRST),
            Step::Turn(2),
            Step::Plays(SECOND),
            Step::Turn(2),
            Step::Plays(THIRD),
            Step::Turn(2),
            Step::Plays(SILENCE),
            Step::Played(3),
        ],
    );
}

/// The file of the fourth row, over serial turns.
#[test]
fn behind_a_whole_block_a_file_is_over(rt: HostRuntime) {
    Deck::play(
        &rt,
        rt.alloc(),
        EIGHT,
        &[
            Step::Turn(1),
            Step::Plays(FIRST),
            Step::Turn(1),
            Step::Plays(SECOND),
            Step::Turn(1),
            Step::Plays(SILENCE),
            Step::Turn(1),
            Step::Plays(SILENCE),
            Step::Played(2),
        ],
    );
}

#[test]
fn a_file_shorter_than_its_header_is_played_as_far_as_it_goes(rt: HostRuntime) {
    Deck::play(
        &rt,
        rt.alloc(),
        CUT,
        &[
            Step::Turn(1),
            Step::Plays(FIRST),
            Step::Turn(1),
            Step::Plays([5 << 16, 6 << 16, 0, 0]),
            Step::Turn(1),
            Step::Plays(SILENCE),
            Step::Played(2),
        ],
    );
}

#[test]
fn a_file_without_a_frame_is_never_missed(rt: HostRuntime) {
    Deck::play(
        &rt,
        rt.alloc(),
        NONE,
        &[
            Step::Turn(0),
            Step::Plays(SILENCE),
            Step::Turn(0),
            Step::Plays(SILENCE),
            Step::Played(0),
        ],
    );
}

#[test]
fn a_player_that_is_opened_again_goes_on_with_the_file(rt: HostRuntime) {
    Deck::play(
        &rt,
        rt.alloc(),
        TEN,
        &[
            Step::Turn(1),
            Step::Plays(FIRST),
            Step::Turn(1),
            Step::Rests,
            Step::Turn(0),
            Step::Plays(SECOND),
            Step::Played(2),
        ],
    );
}

#[test]
fn two_blocks_are_read_ahead(rt: HostRuntime) {
    Deck::play(
        &rt,
        rt.alloc(),
        TEN,
        &[
            Step::Turn(3),
            Step::Plays(FIRST),
            Step::Plays(SECOND),
            Step::Misses(2, 2),
        ],
    );
}

#[test]
fn a_meeting_reads_nothing(rt: HostRuntime) {
    Deck::play(&rt, rt.alloc(), TEN, &[Step::Meeting, Step::Misses(0, 0)]);
}

/// The steps of the file of ten behind a turn whose read failed when it had put so many blocks.
fn behind(blocks: u32) -> &'static [Step] {
    match blocks {
        0 => &[
            Step::Misses(0, 0),
            Step::Misses(0, 0),
            Step::Misses(0, 0),
            Step::Played(0),
        ],
        1 => &[
            Step::Plays(FIRST),
            Step::Misses(1, 1),
            Step::Misses(1, 1),
            Step::Played(1),
        ],
        _ => &[
            Step::Plays(FIRST),
            Step::Plays(SECOND),
            Step::Misses(2, 2),
            Step::Played(2),
        ],
    }
}

/// The reads of the header come first, then one a block.
#[test]
fn blocks_before_a_refused_read_are_played(rt: HostRuntime) {
    let mut failed: u32 = 0;
    for refused in 1..40 {
        if let Some(mut deck) = Deck::open(&rt, rt.alloc(), TEN, refused) {
            if !deck.turn(&rt, 2) {
                deck.walk(&rt, behind(failed));
                failed = failed.saturating_add(1);
            }
        }
    }
    assert_eq!(rt; failed, 3);
}

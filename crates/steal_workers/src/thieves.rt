//! What the seats of a crew steal by.
use crate::ends::{Pass, Stealer};
use crate::places::Place;
use cycle_workers::activation::Work;
use std::marker::Model;

/// What the seats of a crew steal by: a deque of node numbers for each, and the passes to all of them.
///
/// Between two cycles no seat sits at its place, and every pass is with its deque. Contracts see what the owner of each
/// deque knows of it, in the order of the seats.
#[derive(Drop)]
pub struct Thieves<B: Work> {
    pub(crate) stealers: Vec<Stealer>,
    pub(crate) places: Vec<Place<B>>,
    pub(crate) passes: Vec<Vec<Pass>>,
}

impl<B: Work> Model for Thieves<B> {
    ghost use Rattle.std.specs.Prelude.{List};
    ghost use Rattle.steal_workers.specs.declared.tallies.Tally.{Tally};
    ghost use Rattle.steal_workers.specs.Thefts.{tallies_of, AreAtRest};

    ghost Value = { List Tally };

    ghost view = { λ t. tallies_of t.places.items };

    ghost invariant = { λ t. AreAtRest t.stealers.items t.places.items t.passes.items };
}

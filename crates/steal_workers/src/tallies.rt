//! What the holders of a deque of node numbers know of it.
//!
//! A deque's owner is its worker; a seat that may steal from it has a pass. The right to know all that
//! was pushed and taken is cut into parts, and who takes a number has one at least.
use crossbeam_deque::protocol::{Join, Outcome, Protocol, Split};
use std::collections::LinkedList;

/// What one holder pushed and took, and how many parts it has. No value of it is made.
pub struct Tally {
    pub parts: u64,
    pub pushed: LinkedList<u32>,
    pub taken: LinkedList<u32>,
}

/// The rule of a deque: it holds what was pushed and not taken, in order.
pub struct Pending;

impl Protocol<u32, Tally> for Pending {
    ghost use Rattle.std.specs.Prelude.{[]};
    ghost use Rattle.steal_workers.specs.Tallies.{IsDeque, tally, every_part};

    ghost holds = { IsDeque };

    ghost first = { tally every_part [] [] };

    ghost guest = { tally 0 [] [] };
}

/// A number was pushed.
pub(crate) struct Pushed;

impl Outcome<u32, Tally> for Pushed {
    ghost use Rattle.std.specs.Prelude.{◌≡◌};
    ghost use Rattle.steal_workers.specs.Tallies.{with_pushed};

    ghost then = { λ v xs w. w ≡ with_pushed v xs };
}

/// A number was stolen.
pub(crate) struct Stolen;

impl Outcome<u32, Tally> for Stolen {
    ghost use Rattle.std.specs.Prelude.{◌≡◌};
    ghost use Rattle.steal_workers.specs.Tallies.{with_taken};

    ghost then = { λ v xs w. w ≡ with_taken v xs };
}

/// The owner popped a number, or found that all it pushed was taken.
pub(crate) struct Popped;

impl Outcome<u32, Tally> for Popped {
    ghost use Rattle.std.specs.Prelude.{◌≡◌, ◌<◌, length};
    ghost use Rattle.steal_workers.specs.Tallies.{with_taken, HasAll, IsEven};

    ghost then = { λ v xs w. (w ≡ with_taken v xs) × (HasAll v → length v.taken < length v.pushed) };

    ghost empty = { λ v. HasAll v → IsEven v };
}

/// A part goes to a seat that may steal, and comes back.
pub(crate) struct Parts;

impl Split<Tally> for Parts {
    ghost use Rattle.std.specs.Prelude.{[]};
    ghost use Rattle.steal_workers.specs.Tallies.{tally, without_part};

    ghost left = { without_part };

    ghost right = { λ v. tally 1 [] [] };
}

impl Join<Tally> for Parts {
    ghost use Rattle.std.specs.Prelude.{[]};
    ghost use Rattle.steal_workers.specs.Tallies.{tally, with_part};

    ghost both = { with_part };

    ghost spent = { tally 0 [] [] };
}

//! The caller of a turn.

use crate::kept::Kept;
use crate::view::Place;
use std::marker::Model;

/// The right to call the work off, which each pass then finds. It can move to another thread.
#[derive(Drop)]
pub struct Caller<T: Kept> {
    pub(crate) seat: Place<T>,
}

impl<T: Kept> Model for Caller<T> {
    ghost use Rattle.std.specs.Prelude.{◌≡◌, []};
    ghost use Rattle.turn_word.specs.Turns.{Caller};
    ghost use Rattle.turn_word.specs.Handles.{caller_of, known_by};

    ghost Value = { Caller T };

    ghost view = { λ c. caller_of c.seat.table_id c.seat.me.0 };

    ghost invariant = { λ c. c.seat.me ≡ (known_by (caller_of c.seat.table_id c.seat.me.0), []) };
}

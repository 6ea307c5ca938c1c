//! The desk as the thing of a turn.

use control_desk::Desk;
use std::marker::Model;
use turn_word::Kept;

/// A desk that a turn hands out.
///
/// Contracts see the desk. One that was out goes on: it has the calls that it had, in their order, and more behind them.
#[derive(Drop)]
pub struct TurnDesk {
    pub desk: Desk,
}

impl Model for TurnDesk {
    ghost use Rattle.control_desk.specs.Desks.{Desk};

    ghost Value = { Desk };

    ghost view = { λ d. d.desk };
}

impl Kept for TurnDesk {
    ghost use Rattle.control_desk.specs.Desks.{GoesOn};
    ghost use Rattle.desk_turn.specs.Goings.{goes-later, goes-same};

    ghost goes_on = { GoesOn };

    ghost same = { goes-same };

    ghost later = { goes-later };
}

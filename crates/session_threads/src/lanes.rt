//! The turn of a session's desk.

ghost use Rattle.std.specs.Prelude.{◌≡◌, All, None, Some, false};
ghost use Rattle.session_works.specs.DeskWords.{Desk as DeskValue, GoesOn, IsDesk};
ghost use Rattle.turn_word.specs.Turns.{AreAll, IsCaller};

use desk_turn::TurnDesk;
use jack_types::Memory;
use session_works::{Desk, kept_by_type};
use std::alloc::Global;
use std::marker::Model;
use turn_word::{Caller, Pass, Turn};

/// A turn that is shut, with a pass for each of lanes 1 to 4, and a caller.
#[derive(Drop)]
pub struct Lanes {
    turn: Turn<TurnDesk>,
    passes: Vec<Pass<TurnDesk>>,
    caller: Caller<TurnDesk>,
}

impl Model for Lanes {
    ghost use Rattle.std.specs.Prelude.{◌≡◌, None};
    ghost use Rattle.turn_word.specs.Turns.{AreAll, IsCaller, Lock};

    ghost Value = { Lock };

    ghost view = { λ l. l.turn };

    ghost invariant = { λ l. (l.turn.passes ≡ 4) × AreAll l.turn.table l.turn.passes None l.passes.items × IsCaller l.turn.table l.turn.passes None l.caller };
}

impl Lanes {
    /// A turn of four passes.
    pub fn new(alloc: Global) -> Result<Lanes, Memory> {
        match Turn::new(alloc, 4) {
            Ok((turn, passes, caller)) => Ok(Lanes {
                turn,
                passes,
                caller,
            }),
            Err(_) => Err(Memory),
        }
    }

    /// Opens the turn with a desk.
    pub(crate) fn open(self, desk: Desk) -> (Turn<TurnDesk>, Vec<Pass<TurnDesk>>, Caller<TurnDesk>)
        ensures turn { (result.0 ≡ self) × (result.0.passes ≡ 4) }
        ensures open { AreAll result.0.table result.0.passes (Some desk) result.1.items }
        ensures caller { IsCaller result.0.table result.0.passes (Some desk) result.2 }
        ensures quiet { result.2.called ≡ false }
    {
        let Lanes {
            turn,
            mut passes,
            caller,
        } = self;
        let caller = turn.open(&mut passes, caller, TurnDesk { desk });
        (turn, passes, caller)
    }

    /// Shuts the turn, and hands the desk out.
    pub(crate) fn shut(
        turn: Turn<TurnDesk>,
        mut passes: Vec<Pass<TurnDesk>>,
        caller: Caller<TurnDesk>,
    ) -> (Lanes, Desk)
        requires four { turn.passes ≡ 4 }
        requires open { (opened : DeskValue) × AreAll turn.table turn.passes (Some opened) passes.items }
        requires caller { (opened : DeskValue) × IsCaller turn.table turn.passes (Some opened) caller }
        ensures lanes { result.0 ≡ turn }
        ensures goes { (opened : DeskValue) → AreAll turn.table turn.passes (Some opened) passes.items → GoesOn opened result.1 }
        ensures seen { All (λ pass. All (λ seen. GoesOn seen result.1) pass.seen) passes.items }
        ensures told { caller.called ≡ false → All (λ pass. pass.told ≡ false) passes.items }
        ensures desk { IsDesk result.1 }
    {
        let (TurnDesk { desk }, caller) = turn.shut(&mut passes, caller);
        kept_by_type(&desk);
        let lanes = Lanes {
            turn,
            passes,
            caller,
        };
        (lanes, desk)
    }
}

//! The end of a publication that reads.
ghost use Rattle.std.specs.Prelude.{◌<◌};
ghost use Rattle.graph_word.specs.Ends.{IsHeld};
ghost use Rattle.graph_word.specs.Steps.{Exchanges};

use crate::plans::Numbered;
use crate::steps::{Begin, See, Swap};
use crate::view::{Board, CYCLE, Place, WORD, Words};
use core::mem;
use std::alloc::Global;
use std::marker::Model;
use std::sync::Arc;

/// The end of a publication that reads. It can move to another thread.
#[derive(Drop)]
pub struct Reader<P: Numbered> {
    pub(crate) table: Arc<Board<P>, Global>,
    pub(crate) hold: Hold<P>,
}

/// What the reader holds: its seat, and the plan of its place with its number.
#[derive(Drop)]
pub(crate) struct Hold<P: Numbered> {
    pub(crate) seat: Place<P>,
    pub(crate) plan: P,
    pub(crate) place: u64,
    pub(crate) number: u32,
}

impl<P: Numbered> Model for Reader<P> {
    ghost use Rattle.std.specs.Arc.{arc_value};
    ghost use Rattle.graph_word.specs.Publications.{Reading};
    ghost use Rattle.graph_word.specs.Ends.{reading_of, IsHeld};

    ghost Value = { Reading × P };

    ghost view = { λ r. (reading_of r.hold.seat.table_id r.hold.seat.me.0.reader, r.hold.plan) };

    ghost invariant = { λ r. IsHeld P.content P.base (arc_value r.table).shared.table_id r.hold };
}

// Exchanges the plan of the reader's place for a newer one, which a load has found.
fn swapped<P: Numbered>(words: &Words<P>, hold: Hold<P>) -> (Hold<P>, u32)
    requires stands { IsHeld P.content P.base words.now.table_id hold }
    requires newer { 0 < hold.seat.me.0.reader.ahead }
    ensures stands { IsHeld P.content P.base words.now.table_id result.0 }
    ensures swaps { Exchanges hold.seat.me.0.reader result.1 result.0.seat.me.0.reader }
{
    let Hold {
        mut seat,
        plan,
        place,
        number,
    } = hold;
    match words.exchange(&mut seat, place as usize, Some(plan)) {
        None => {}
        Some(_) => unreachable!(),
    }
    let new = number as u64 * 4 + place;
    let found = words.swap::<Swap<P>>(&mut seat, WORD, new);
    let place = found % 4;
    let plan = words.exchange(&mut seat, place as usize, None).unwrap();
    let number = plan.number();
    let hold = Hold {
        seat,
        plan,
        place,
        number,
    };
    (hold, number)
}

impl<P: Numbered> Reader<P> {
    ghost use Rattle.std.specs.Prelude.{◌≡◌, ◌<◌};
    ghost use Rattle.graph_word.specs.Publications.{last_row, Takes, Begins};

    /// The plan that the last take gave.
    pub fn place(&self) -> &P
        ensures value { result.now ≡ self.now.1 }
        ensures content { P.content result.now ≡ self.now.0.held }
        ensures base { P.base result.now ≡ self.now.0.base }
    {
        &self.hold.plan
    }

    /// Goes on to the newest plan, and answers its number.
    ///
    /// One load of the graph word, and one exchange exactly where its plan is newer than the own one: at most two looks
    /// at the word. Where it is not newer, nothing moves. It neither waits nor takes memory, and copies no plan.
    pub fn take(&mut self) -> u32
        ensures { Takes self.old.0 result self.new.0 }
    {
        let words = &self.table.shared;
        let found = words.load::<See>(&mut self.hold.seat, WORD);
        if found / 4 <= self.hold.number as u64 {
            return self.hold.number;
        }
        mem::replace_with(&mut self.hold, words, |hold, words| swapped(words, hold))
    }

    /// Begins a cycle with the plan of its place. One store of the cycle word.
    pub fn begin(&mut self, cycle: u32)
        requires { last_row self.old.0.rows < cycle }
        ensures begins { Begins self.old.0 cycle self.new.0 }
        ensures plan { self.new.1 ≡ self.old.1 }
    {
        let words = &self.table.shared;
        words.store::<Begin>(&mut self.hold.seat, CYCLE, cycle as u64);
    }
}

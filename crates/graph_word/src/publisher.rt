//! The end of a publication that publishes.
use crate::plans::Numbered;
use crate::steps::{Commit, Note};
use crate::view::{Board, CYCLE, Place, WORD};
use core::mem;
use std::alloc::Global;
use std::marker::Model;
use std::sync::Arc;

/// The end of a publication that publishes. It can move to another thread.
#[derive(Drop)]
pub struct Publisher<P: Numbered> {
    pub(crate) table: Arc<Board<P>, Global>,
    pub(crate) seat: Place<P>,
    pub(crate) plan: P,
    pub(crate) place: u64,
    pub(crate) published: u32,
}

impl<P: Numbered> Model for Publisher<P> {
    ghost use Rattle.std.specs.Prelude.{◌≡◌, ◌<◌, true, false, [], ◌∷◌, None, length};
    ghost use Rattle.std.specs.Arc.{arc_value};
    ghost use Rattle.graph_word.specs.Publications.{Publishing};
    ghost use Rattle.graph_word.specs.Ends.{publishing_of};

    ghost Value = { Publishing × P };

    ghost view = { λ p. (publishing_of p.seat.table_id p.seat.me.0.publisher (P.content p.plan), p.plan) };

    ghost invariant = { λ p. ((arc_value p.table).shared.table_id.words ≡ 2) × ((arc_value p.table).shared.table_id.slots ≡ 3) × (p.seat.table_id ≡ (arc_value p.table).shared.table_id) × (p.seat.me.1 ≡ (p.place, None) ∷ []) × (p.seat.me.0.is_publisher ≡ true) × (p.seat.me.0.is_reader ≡ false) × (p.seat.me.0.publisher.holds ≡ true) × (p.place ≡ p.seat.me.0.publisher.place) × (p.place < 3) × (p.published ≡ length p.seat.me.0.publisher.all) };
}

impl<P: Numbered> Publisher<P> {
    ghost use Rattle.std.specs.Prelude.{◌≡◌, length};
    ghost use Rattle.std.specs.Borrow.{sem, Lends};
    ghost use Rattle.graph_word.specs.contracts.publisher.Publisher.{the_row};
    ghost use Rattle.graph_word.specs.Publications.{MayCommit, Commits, Looks};

    /// The plan that the next commit publishes.
    pub fn place(&mut self) -> &mut P
        ensures* writes_back { sem 𝓛 (Lends (the_row P.row P.Numbered) P.row self.entry result (λ plan. (record self.old.0 { held = P.content plan }, plan))) }
        ensures value { result.now ≡ self.old.1 }
        ensures content { P.content result.now ≡ self.old.0.held }
    {
        &mut self.plan
    }

    /// How many changes were published: the number of the last plan.
    pub fn published(&self) -> u32
        ensures { result ≡ length self.now.0.all }
    {
        self.published
    }

    /// Publishes the plan of its place, and takes the plan that stood in the word in its place.
    ///
    /// One exchange of the graph word. It neither waits nor takes memory.
    pub fn commit(&mut self)
        requires next { MayCommit self.old.0 }
        requires base { P.base self.old.1 ≡ self.old.0.base }
        ensures commits { Commits self.old.0 self.new.0 }
        ensures content { P.content self.new.1 ≡ self.new.0.held }
        ensures base { P.base self.new.1 ≡ self.new.0.base }
    {
        mem::replace_with(self, (), |publisher, _| (publisher.committed(), ()));
    }

    fn committed(self) -> Publisher<P>
        requires next { MayCommit self.0 }
        requires base { P.base self.1 ≡ self.0.base }
        ensures commits { Commits self.0 result.0 }
        ensures content { P.content result.1 ≡ result.0.held }
        ensures base { P.base result.1 ≡ result.0.base }
    {
        let Publisher {
            table,
            mut seat,
            plan,
            place,
            ..
        } = self;
        let words = &table.shared;
        let published = plan.number();
        let new = published as u64 * 4 + place;
        match words.exchange(&mut seat, place as usize, Some(plan)) {
            None => {}
            Some(_) => unreachable!(),
        }
        let found = words.swap::<Commit<P>>(&mut seat, WORD, new);
        let place = found % 4;
        let plan = words.exchange(&mut seat, place as usize, None).unwrap();
        Publisher {
            table,
            seat,
            plan,
            place,
            published,
        }
    }

    /// The cycle begun last. One load of the cycle word.
    pub fn cycle_seen(&mut self) -> u32
        ensures looks { Looks self.old.0 result self.new.0 }
        ensures plan { self.new.1 ≡ self.old.1 }
    {
        let words = &self.table.shared;
        words.load::<Note>(&mut self.seat, CYCLE) as u32
    }
}

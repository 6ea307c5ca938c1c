//! How a seat leaves a node to the others, and picks one that was left.
ghost use Rattle.std.specs.Prelude.{◌≡◌, ◌<◌, ◌+◌, ℕ, true, false, List, [], length, Some, IfSome, IsNone, vec_capacity};
ghost use Rattle.session_laws.specs.session_model.specs.Activation.{link_at, incoming};
ghost use Rattle.activation.specs.Rule.{has};
ghost use Rattle.activation.specs.Plays.{Owns, refill_after};
ghost use Rattle.activation.specs.Contents.{IsFull, AreValuesOf};
ghost use Rattle.activation.specs.Seats.{IsIdle};
ghost use Rattle.activation.specs.Takens.{IsUnplayed, with_held, with_left, with_looked};
ghost use Rattle.activation.specs.Crews.{IsOf, TakesPart};

use crate::crews::Crew;
use crate::rules::{Leave, Pick, Refill, Take};
use crate::takens::{Seat, Taken};
use crate::views::{Item, Tray, View};
use crate::work::Work;
use atomic_table::Seat as Token;

impl<B: Work> Crew<B> {
    // Puts a bench or a value back into its slot, as it was taken.
    fn put_back(
        &self,
        seat: &mut Token<Option<Item<B, B::Value>>, View<Option<Item<B, B::Value>>, B>>,
        slot: usize,
        item: Item<B, B::Value>,
    )
        requires seat { (seat.old.table_id ≡ self.now.board.shared.table_id) × IsIdle seat.old.me × Owns seat.old.me.0 slot }
        requires slot { slot < self.now.board.shared.table_id.words }
        requires item { IsFull B.memory B.has_room B.after B.gives seat.old.me.0.duty.links seat.old.me.0.duty.before slot (Some item) }
        ensures seat { (seat.new.table_id ≡ seat.old.table_id) × (seat.new.me ≡ (refill_after seat.old.me.0 slot, [])) }
    {
        let board = &self.board.shared;
        board.load::<Take<B>>(seat, slot);
        board.exchange(seat, slot, Some(item));
        board.load::<Refill>(seat, slot);
    }

    // Puts the values of the links into a node that was not played back into their slots.
    fn put_back_values(
        &self,
        seat: &mut Token<Option<Item<B, B::Value>>, View<Option<Item<B, B::Value>>, B>>,
        node: u32,
        given: &mut Vec<Option<B::Value>>,
    )
        requires seat { IsOf self.now seat.old }
        requires node { (has seat.old.me.0.duty.held node ≡ true) × (node < self.now.nodes) }
        requires given { AreValuesOf B.memory B.has_room B.after B.gives self.now.links.items seat.old.me.0.duty.before (incoming self.now.links.items node) given.old.items }
        ensures seat { IsOf self.now seat.new × (seat.new.me.0.duty ≡ seat.old.me.0.duty) }
        ensures back { (l : ℕ) → l < length self.now.links.items → (link_at self.now.links.items l).to ≡ node → has seat.new.me.0.hand.back (self.now.nodes + l) ≡ true }
        ensures room { vec_capacity given.new ≡ vec_capacity given.old }
    {
        for (i, link) in self.incoming(node as usize).iter().enumerate() {
            let Some(value) = given[i].take() else {
                unreachable!()
            };
            self.put_back(seat, self.nodes + *link as usize, Item::Value(value));
        }
    }

    // The number of the node's left word.
    fn left_word(&self, node: u32) -> usize
        requires node { node < self.now.nodes }
        ensures { (result ≡ self.now.nodes + 513 + node) × (result < self.now.board.shared.table_id.words) }
    {
        self.nodes + 513 + node as usize
    }

    /// Leaves a node that was not played, with its bench and the values of its incoming links, to the seat
    /// that picks it.
    ///
    /// One store of one word.
    pub fn leave(&self, seat: &mut Seat<B>, taken: Taken<B>)
        requires seat { TakesPart self.now seat.old }
        requires taken { IsUnplayed B.memory B.has_room B.value_at B.after B.gives seat.old.token.me.0.duty taken.node taken.tray }
        ensures seat { (seat.new.number ≡ seat.old.number) × TakesPart self.now seat.new }
        ensures left { seat.new.token.me.0.duty ≡ with_left seat.old.token.me.0.duty taken.node }
    {
        let Taken { node, tray } = taken;
        let Tray { bench, mut given } = tray;
        self.put_back_values(&mut seat.token, node, &mut given);
        given.clear();
        self.put_back(
            &mut seat.token,
            node as usize,
            Item::Bench(Tray { bench, given }),
        );
        let word = self.left_word(node);
        self.board.shared.store::<Leave>(&mut seat.token, word, 1);
    }

    /// Looks whether the node was left, and takes it where it was.
    ///
    /// The answer is the node, where it was left until now. One exchange of one word.
    pub fn pick(&self, seat: &mut Seat<B>, node: u32) -> Option<Taken<B>>
        requires seat { TakesPart self.now seat.old }
        requires node { node < self.now.nodes }
        ensures seat { (seat.new.number ≡ seat.old.number) × TakesPart self.now seat.new }
        ensures none { IsNone result → seat.new.token.me.0.duty ≡ with_looked seat.old.token.me.0.duty node }
        ensures some { IfSome result (λ taken. (taken.node ≡ node) × (has seat.old.token.me.0.duty.held node ≡ false) × (seat.new.token.me.0.duty ≡ with_held (with_looked seat.old.token.me.0.duty node) node) × IsUnplayed B.memory B.has_room B.value_at B.after B.gives seat.new.token.me.0.duty node taken.tray) }
    {
        let word = self.left_word(node);
        let found = self.board.shared.swap::<Pick>(&mut seat.token, word, 0);
        if found == 1 {
            Some(self.take_up(&mut seat.token, node))
        } else {
            None
        }
    }
}

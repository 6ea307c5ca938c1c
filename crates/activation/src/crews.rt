//! The crew: the benches of a graph, and the seats that play them.
ghost use Rattle.std.specs.Prelude.{◌≡◌, ◌≢◌, ◌≤◌, ◌<◌, ◌+◌, ℕ, true, false, List, [], ◌∷◌, length, map, Some, All, IfOk, IfErr, IfSome, IsNone, vec_capacity, ◌%◌};
ghost use Rattle.activation.specs.Rule.{has};
ghost use Rattle.activation.specs.Plays.{IsSlotOf, Owns, out_after, open_after, fill_after};
ghost use Rattle.activation.specs.declared.views.Item.TheVariants.{Value};
ghost use mathlib.Core.Option.{some};
ghost use lib.ListN.{get_elem?};
ghost use Rattle.session_laws.specs.session_model.specs.Activation.{AreLinks, link_at, incoming, outgoing, place_among};
ghost use Rattle.session_laws.specs.session_model.specs.Samples.{below};
ghost use Rattle.activation.specs.Contents.{IsFull, IsDone, HasRoomFor, IsValueOf, AreValuesOf, most_links};
ghost use Rattle.activation.specs.Takens.{IsUnplayed, IsPlayed, with_started, with_held, with_released, with_home};
ghost use Rattle.activation.specs.Seats.{IsIdle, IsShape, new_duty};
ghost use Rattle.activation.specs.Rounds.{IsRoomy};

use crate::making::{Parts, begin, prepare, share};
use crate::rules::{ComeHome, CrewRule, Fill, Open, Release, Start, Take};
use crate::takens::{Seat, Taken};
use crate::views::{Item, Size, Tray, View};
use crate::work::Work;
use atomic_table::{Seat as Token, Table};
use session_laws::jack_types::Link;
use std::alloc::{AllocError, Global};
use std::sync::Mutex;

/// The list of benches that a crew was made of, emptied, with the room to give them back.
///
/// It lies in a lock that is never taken: so threads may share the crew wherever its benches may cross
/// threads.
#[derive(Drop)]
pub(crate) struct Emptied<B> {
    pub(crate) benches: Vec<B>,
    ghost room: { (benches.items ≡ []) × (64 ≤ vec_capacity benches) },
}

/// The benches of a graph's nodes, the counters of the nodes and the values of the links.
#[derive(Drop)]
pub struct Crew<B: Work> {
    pub(crate) board: Table<
        Option<Item<B, B::Value>>,
        View<Option<Item<B, B::Value>>, B>,
        Size,
        CrewRule<B>,
        Global,
    >,
    pub(crate) links: Vec<Link>,
    pub(crate) nodes: usize,
    pub(crate) seats: u32,
    pub(crate) into: Vec<Vec<u32>>,
    pub(crate) out: Vec<Vec<u32>>,
    pub(crate) places: Vec<u32>,
    pub(crate) emptied: Mutex<Emptied<B>>,
    ghost shape: { IsShape board.shared.table_id links.items nodes (map (λ into. into.items) into.items) places.items },
    ghost outward: { (map (λ which. which.items) out.items ≡ map (outgoing links.items) (below nodes)) × All (λ which. 512 ≤ vec_capacity which) out.items },
    ghost roomy: { IsRoomy seats links into.items places },
}

impl<B: Work> Crew<B> {
    ghost use Rattle.activation.specs.Crews.{IsOf, TakesPart};
    ghost use Rattle.activation.specs.Rounds.{AreSeats, AreFresh};

    /// A crew over these benches, one a node, with its seats.
    ///
    /// A link goes from a lower node to a higher one. The seat of number s starts the nodes n with n mod
    /// `seats` equal to s. For want of memory the benches come back.
    pub fn new(
        alloc: Global,
        links: &[Link],
        mut benches: Vec<B>,
        seats: u32,
    ) -> Result<(Crew<B>, Vec<Seat<B>>), (Vec<B>, AllocError)>
        requires links { AreLinks (length benches.items) links.now }
        requires sizes { (length benches.items ≤ 64) × (length links.now ≤ 512) × (0 < seats) × (seats ≤ 16) }
        ensures crew { IfOk result (λ made. (made.0.nodes ≡ length benches.items) × (made.0.links.items ≡ links.now) × (made.0.seats ≡ seats)) }
        ensures seats { IfOk result (λ made. AreSeats made.0.board.shared.table_id links.now (length benches.items) seats made.1.items) }
        ensures fresh { IfOk result (λ made. AreFresh links.now benches.items seats made.1.items) }
        ensures err { IfErr result (λ back. back.0.items ≡ benches.items) }
    {
        let nodes = benches.len();
        if let Err(error) = benches.reserve(64 - nodes) {
            return Err((benches, error));
        }
        let parts = match prepare(alloc, links, nodes, seats) {
            Ok(parts) => parts,
            Err(error) => return Err((benches, error)),
        };
        let Parts {
            board,
            mut token,
            links: kept,
            into,
            out,
            places,
            mut rooms,
            seats: room,
        } = parts;
        begin(
            &board,
            &mut token,
            into.as_slice(),
            &mut rooms,
            &mut benches,
        );
        let all = share(&board, token, seats, room);
        let crew = Crew {
            board,
            links: kept,
            nodes,
            seats,
            into,
            out,
            places,
            emptied: Mutex::new(Emptied { benches }),
        };
        Ok((crew, all))
    }

    // Takes what lies in a slot of the seat's.
    fn lift(
        &self,
        seat: &mut Token<Option<Item<B, B::Value>>, View<Option<Item<B, B::Value>>, B>>,
        slot: usize,
    ) -> Option<Item<B, B::Value>>
        requires seat { (seat.old.table_id ≡ self.now.board.shared.table_id) × IsIdle seat.old.me × Owns seat.old.me.0 slot × (seat.old.me.0.hand.floor ≤ slot) }
        requires slot { slot < self.now.board.shared.table_id.words }
        ensures seat { (seat.new.table_id ≡ seat.old.table_id) × (seat.new.me ≡ (open_after seat.old.me.0 slot, [])) }
        ensures item { (n : ℕ) → has seat.old.me.0.duty.held n ≡ true → IsSlotOf seat.old.me.0.duty.links (length seat.old.me.0.duty.before) n slot → seat.old.me.0.hand.node ≡ n
            → IsFull B.memory B.has_room B.after B.gives seat.old.me.0.duty.links seat.old.me.0.duty.before slot result }
    {
        let board = &self.board.shared;
        board.load::<Take<B>>(seat, slot);
        let item = board.exchange(seat, slot, None);
        board.load::<Open>(seat, slot);
        item
    }

    // Puts a played bench, or a value that was used, into a slot of the seat's.
    fn lay(
        &self,
        seat: &mut Token<Option<Item<B, B::Value>>, View<Option<Item<B, B::Value>>, B>>,
        slot: usize,
        item: Item<B, B::Value>,
    )
        requires seat { (seat.old.table_id ≡ self.now.board.shared.table_id) × IsIdle seat.old.me × Owns seat.old.me.0 slot }
        requires slot { slot < self.now.board.shared.table_id.words }
        requires item { IsDone B.memory B.has_room B.after B.gives seat.old.me.0.duty.links seat.old.me.0.duty.before slot (Some item) }
        ensures seat { (seat.new.table_id ≡ seat.old.table_id) × (seat.new.me ≡ (fill_after seat.old.me.0 slot, [])) }
    {
        let board = &self.board.shared;
        board.load::<Take<B>>(seat, slot);
        board.exchange(seat, slot, Some(item));
        board.load::<Fill>(seat, slot);
    }

    /// The links into the node.
    pub(crate) fn incoming(&self, node: usize) -> &[u32]
        requires { node < self.now.nodes }
        ensures { result.now ≡ incoming self.now.links.items node }
    {
        self.into[node].as_slice()
    }

    // The link's place among those that go out from its node.
    fn place(&self, link: usize) -> u32
        requires { link < length self.now.links.items }
        ensures { result ≡ place_among self.now.links.items link }
    {
        self.places[link]
    }

    // Takes the bench of a node that the seat has just come to hold.
    fn lift_bench(
        &self,
        seat: &mut Token<Option<Item<B, B::Value>>, View<Option<Item<B, B::Value>>, B>>,
        node: u32,
    ) -> Tray<B, B::Value>
        requires seat { IsOf self.now seat.old }
        requires node { (has seat.old.me.0.duty.held node ≡ true) × (seat.old.me.0.hand.node ≡ node) × (seat.old.me.0.hand.floor ≤ node) × (node < self.now.nodes) }
        ensures seat { IsOf self.now seat.new × (seat.new.me.0 ≡ open_after seat.old.me.0 node) }
        ensures bench { (get_elem? seat.old.me.0.duty.before node ≡ some result.bench) × HasRoomFor result }
    {
        match self.lift(seat, node as usize) {
            Some(Item::Bench(tray)) => tray,
            _ => unreachable!(),
        }
    }

    // Takes the value of a link into a node that the seat has just come to hold.
    fn lift_value(
        &self,
        seat: &mut Token<Option<Item<B, B::Value>>, View<Option<Item<B, B::Value>>, B>>,
        link: u32,
    ) -> B::Value
        requires seat { IsOf self.now seat.old }
        requires link { (link < length self.now.links.items) × (has seat.old.me.0.duty.held (link_at self.now.links.items link).to ≡ true) × (seat.old.me.0.hand.node ≡ (link_at self.now.links.items link).to) × (seat.old.me.0.hand.floor ≤ self.now.nodes + link) }
        ensures seat { IsOf self.now seat.new × (seat.new.me.0 ≡ open_after seat.old.me.0 (self.now.nodes + link)) }
        ensures value { IsValueOf B.memory B.has_room B.after B.gives self.now.links.items seat.old.me.0.duty.before link result }
    {
        match self.lift(seat, self.nodes + link as usize) {
            Some(Item::Value(value)) => value,
            _ => unreachable!(),
        }
    }

    // Takes the values of the links into a node that the seat has just come to hold.
    fn lift_values(
        &self,
        seat: &mut Token<Option<Item<B, B::Value>>, View<Option<Item<B, B::Value>>, B>>,
        node: u32,
        given: &mut Vec<Option<B::Value>>,
    )
        requires seat { IsOf self.now seat.old }
        requires node { (has seat.old.me.0.duty.held node ≡ true) × (seat.old.me.0.hand.node ≡ node) × (seat.old.me.0.hand.floor ≤ self.now.nodes) × (node < self.now.nodes) }
        requires room { (given.old.items ≡ []) × (most_links ≤ vec_capacity given.old) }
        ensures seat { IsOf self.now seat.new × (seat.new.me.0.duty ≡ seat.old.me.0.duty) }
        ensures given { AreValuesOf B.memory B.has_room B.after B.gives self.now.links.items seat.old.me.0.duty.before (incoming self.now.links.items node) given.new.items }
        ensures room { vec_capacity given.new ≡ vec_capacity given.old }
    {
        for link in self.incoming(node as usize) {
            let value = self.lift_value(seat, *link);
            given.push_reserved(Some(value));
        }
    }

    /// Takes all that belongs to a node that the seat has just come to hold.
    pub(crate) fn take_up(
        &self,
        seat: &mut Token<Option<Item<B, B::Value>>, View<Option<Item<B, B::Value>>, B>>,
        node: u32,
    ) -> Taken<B>
        requires seat { IsOf self.now seat.old }
        requires node { (has seat.old.me.0.duty.held node ≡ true) × (seat.old.me.0.hand.node ≡ node) × (seat.old.me.0.hand.floor ≡ 0) × (node < self.now.nodes) }
        requires unreleased { (l : ℕ) → l < length self.now.links.items → (link_at self.now.links.items l).from ≡ node → has seat.old.me.0.duty.released l ≡ false }
        ensures seat { IsOf self.now seat.new × (seat.new.me.0.duty ≡ seat.old.me.0.duty) }
        ensures taken { (result.node ≡ node) × IsUnplayed B.memory B.has_room B.value_at B.after B.gives seat.old.me.0.duty node result.tray }
    {
        let mut tray = self.lift_bench(seat, node);
        self.lift_values(seat, node, &mut tray.given);
        Taken { node, tray }
    }

    /// Lowers the node's counter for its start.
    ///
    /// The answer is the node, where this left its counter at zero. One decrement of one word.
    pub fn start(&self, seat: &mut Seat<B>, node: u32) -> Option<Taken<B>>
        requires seat { TakesPart self.now seat.old }
        requires node { (node < self.now.nodes) × (node % self.now.seats ≡ seat.old.number) × (has seat.old.token.me.0.duty.started node ≡ false) }
        ensures seat { (seat.new.number ≡ seat.old.number) × TakesPart self.now seat.new }
        ensures none { IsNone result → seat.new.token.me.0.duty ≡ with_started seat.old.token.me.0.duty node }
        ensures some { IfSome result (λ taken. (taken.node ≡ node) × (has seat.old.token.me.0.duty.held node ≡ false) × (seat.new.token.me.0.duty ≡ with_held (with_started seat.old.token.me.0.duty node) node) × IsUnplayed B.memory B.has_room B.value_at B.after B.gives seat.new.token.me.0.duty node taken.tray) }
    {
        let found = self
            .board
            .shared
            .fetch_sub::<Start>(&mut seat.token, node as usize, 1);
        if found == 1 {
            Some(self.take_up(&mut seat.token, node))
        } else {
            None
        }
    }

    // Takes the slot of a link that goes out from a node of the seat's, and puts the value into it.
    fn offer(
        &self,
        seat: &mut Token<Option<Item<B, B::Value>>, View<Option<Item<B, B::Value>>, B>>,
        link: usize,
        value: B::Value,
    )
        requires seat { IsOf self.now seat.old }
        requires link { (link < length self.now.links.items) × (has seat.old.me.0.duty.held (link_at self.now.links.items link).from ≡ true) × (has seat.old.me.0.duty.released link ≡ false) }
        ensures seat { (seat.new.table_id ≡ seat.old.table_id) × (seat.new.me ≡ (out_after seat.old.me.0 (self.now.nodes + link), (self.now.nodes + link, Some (Value value)) ∷ [])) }
    {
        let slot = self.nodes + link;
        let board = &self.board.shared;
        board.load::<Take<B>>(seat, slot);
        board.exchange(seat, slot, Some(Item::Value(value)));
    }

    // Gives the slot of a link back with its value, and lowers the counter of the link's target.
    fn pass_on(&self, seat: &mut Seat<B>, link: usize, to: u32, value: B::Value) -> Option<Taken<B>>
        requires seat { TakesPart self.now seat.old }
        requires link { (link < length self.now.links.items) × ((link_at self.now.links.items link).to ≡ to) × (has seat.old.token.me.0.duty.held (link_at self.now.links.items link).from ≡ true) × (has seat.old.token.me.0.duty.released link ≡ false) }
        requires value { IsValueOf B.memory B.has_room B.after B.gives self.now.links.items seat.old.token.me.0.duty.before link value }
        ensures seat { (seat.new.number ≡ seat.old.number) × TakesPart self.now seat.new }
        ensures duty { (seat.new.token.me.0.duty.links ≡ seat.old.token.me.0.duty.links) × (seat.new.token.me.0.duty.before ≡ seat.old.token.me.0.duty.before) × (seat.new.token.me.0.duty.released ≡ link ∷ seat.old.token.me.0.duty.released) × ((n : ℕ) → has seat.old.token.me.0.duty.held n ≡ true → has seat.new.token.me.0.duty.held n ≡ true) }
        ensures none { IsNone result → seat.new.token.me.0.duty ≡ with_released seat.old.token.me.0.duty link }
        ensures some { IfSome result (λ taken. (taken.node ≡ to) × (has seat.old.token.me.0.duty.held to ≡ false) × (seat.new.token.me.0.duty ≡ with_held (with_released seat.old.token.me.0.duty link) to) × IsUnplayed B.memory B.has_room B.value_at B.after B.gives seat.new.token.me.0.duty to taken.tray) }
    {
        self.offer(&mut seat.token, link, value);
        let counter = self
            .board
            .shared
            .fetch_sub::<Release>(&mut seat.token, to as usize, 1);
        if counter == 1 {
            Some(self.take_up(&mut seat.token, to))
        } else {
            None
        }
    }

    /// Releases a link of a node that was played: what its bench hands for the link goes along it, and the
    /// counter of the link's target falls.
    ///
    /// The answer is the link's target, where this left its counter at zero. One decrement of one word.
    pub fn release(&self, seat: &mut Seat<B>, taken: &mut Taken<B>, link: u32) -> Option<Taken<B>>
        requires seat { TakesPart self.now seat.old }
        requires taken { IsPlayed B.memory B.has_room B.value_at B.after B.gives seat.old.token.me.0.duty taken.old.node taken.old.tray }
        requires link { (link < length self.now.links.items) × ((link_at self.now.links.items link).from ≡ taken.old.node) × (has seat.old.token.me.0.duty.released link ≡ false) }
        requires room { B.has_room taken.old.tray.bench (place_among self.now.links.items link) ≡ true }
        ensures seat { (seat.new.number ≡ seat.old.number) × TakesPart self.now seat.new }
        ensures taken { (taken.new.node ≡ taken.old.node) × IsPlayed B.memory B.has_room B.value_at B.after B.gives seat.new.token.me.0.duty taken.new.node taken.new.tray }
        ensures none { IsNone result → seat.new.token.me.0.duty ≡ with_released seat.old.token.me.0.duty link }
        ensures some { IfSome result (λ next. (next.node ≡ (link_at self.now.links.items link).to) × (has seat.old.token.me.0.duty.held next.node ≡ false) × (seat.new.token.me.0.duty ≡ with_held (with_released seat.old.token.me.0.duty link) next.node) × IsUnplayed B.memory B.has_room B.value_at B.after B.gives seat.new.token.me.0.duty next.node next.tray) }
    {
        let value = taken.tray.bench.hand(self.place(link as usize));
        let to = self.links[link as usize].to;
        self.pass_on(seat, link as usize, to, value)
    }

    // Puts the values that a node was given back into their slots.
    fn lay_values(
        &self,
        seat: &mut Token<Option<Item<B, B::Value>>, View<Option<Item<B, B::Value>>, B>>,
        node: u32,
        given: &mut Vec<Option<B::Value>>,
    )
        requires seat { IsOf self.now seat.old }
        requires node { (has seat.old.me.0.duty.held node ≡ true) × (node < self.now.nodes) }
        requires given { (values : List B.Value) × (given.old.items ≡ map Some values) × (length values ≡ length (incoming self.now.links.items node)) }
        ensures seat { IsOf self.now seat.new × (seat.new.me.0.duty ≡ seat.old.me.0.duty) }
        ensures ready { (l : ℕ) → l < length self.now.links.items → (link_at self.now.links.items l).to ≡ node → has seat.new.me.0.hand.ready (self.now.nodes + l) ≡ true }
        ensures room { vec_capacity given.new ≡ vec_capacity given.old }
    {
        for (i, link) in self.incoming(node as usize).iter().enumerate() {
            let Some(value) = given[i].take() else {
                unreachable!()
            };
            self.lay(seat, self.nodes + *link as usize, Item::Value(value));
        }
    }

    /// Brings a node home that was played and whose links were all released.
    ///
    /// One decrement of one word.
    pub fn home(&self, seat: &mut Seat<B>, taken: Taken<B>)
        requires seat { TakesPart self.now seat.old }
        requires taken { IsPlayed B.memory B.has_room B.value_at B.after B.gives seat.old.token.me.0.duty taken.node taken.tray }
        requires released { (l : ℕ) → l < length self.now.links.items → (link_at self.now.links.items l).from ≡ taken.node → has seat.old.token.me.0.duty.released l ≡ true }
        ensures seat { (seat.new.number ≡ seat.old.number) × TakesPart self.now seat.new }
        ensures home { seat.new.token.me.0.duty ≡ with_home seat.old.token.me.0.duty taken.node }
    {
        let Taken { node, tray } = taken;
        let Tray { bench, mut given } = tray;
        self.lay_values(&mut seat.token, node, &mut given);
        given.clear();
        self.lay(
            &mut seat.token,
            node as usize,
            Item::Bench(Tray { bench, given }),
        );
        self.board
            .shared
            .fetch_sub::<ComeHome>(&mut seat.token, self.nodes + 512, 1);
    }
}

//! What the one seat does between two cycles.
ghost use Rattle.std.specs.Prelude.{◌≡◌, ◌<◌, ◌≤◌, ◌+◌, ◌-◌, ◌++◌, ℕ, List, [], ◌∷◌, length, map, slice_set, Some, None, vec_capacity, ◌≢◌, true, false};
ghost use mathlib.Core.Option.{some};
ghost use lib.ListN.{get_elem?};
ghost use Rattle.session_laws.specs.session_model.specs.Activation.{AreLinks, place_among};
ghost use Rattle.session_laws.specs.session_model.specs.Samples.{below};
ghost use Rattle.activation.specs.declared.views.Tray.{Tray};
ghost use Rattle.activation.specs.declared.views.Item.TheVariants.{Value};
ghost use Rattle.activation.specs.Contents.{AreLaid, HasRoomFor, benches_of, from_to};
ghost use Rattle.activation.specs.Plays.{with_items, with_words, with_links};
ghost use Rattle.activation.specs.Seats.{IsIdle, IsSole, new_duty};
ghost use Rattle.activation.specs.Rounds.{IsLaidOut};
ghost use Rattle.activation.specs.Returns.{AreSpent, AreBack, BenchAt};

use crate::opening::{put, write};
use crate::rules::{AddLink, Begin, CrewRule, Unlink};
use crate::views::{Item, Size, Tray, View};
use crate::work::Work;
use atomic_table::{Seat as Token, Table};
use session_laws::jack_types::Link;
use std::alloc::Global;
use std::mem;

// Takes the bench of a node, with the room for what it is given.
fn take_tray<B: Work>(
    board: &Table<
        Option<Item<B, B::Value>>,
        View<Option<Item<B, B::Value>>, B>,
        Size,
        CrewRule<B>,
        Global,
    >,
    seat: &mut Token<Option<Item<B, B::Value>>, View<Option<Item<B, B::Value>>, B>>,
    node: usize,
) -> Tray<B, B::Value>
    requires seat { (seat.old.table_id ≡ board.now.shared.table_id) × IsSole seat.old.me × (node < board.now.shared.table_id.words) }
    requires bench { (tray : Tray B B.Value) × BenchAt seat.old.me.0.shelf.items node tray }
    ensures seat { (seat.new.table_id ≡ seat.old.table_id) × (seat.new.me ≡ (with_items seat.old.me.0 (slice_set seat.old.me.0.shelf.items node None), [])) }
    ensures tray { BenchAt seat.old.me.0.shelf.items node result }
{
    match put(board, seat, node, None) {
        Some(Item::Bench(tray)) => tray,
        _ => unreachable!(),
    }
}

// Takes the value in a link's slot.
fn take_value<B: Work>(
    board: &Table<
        Option<Item<B, B::Value>>,
        View<Option<Item<B, B::Value>>, B>,
        Size,
        CrewRule<B>,
        Global,
    >,
    seat: &mut Token<Option<Item<B, B::Value>>, View<Option<Item<B, B::Value>>, B>>,
    slot: usize,
) -> B::Value
    requires seat { (seat.old.table_id ≡ board.now.shared.table_id) × IsSole seat.old.me × (slot < board.now.shared.table_id.words) }
    requires value { (value : B.Value) × (get_elem? seat.old.me.0.shelf.items slot ≡ some (Some (Value value))) }
    ensures seat { (seat.new.table_id ≡ seat.old.table_id) × (seat.new.me ≡ (with_items seat.old.me.0 (slice_set seat.old.me.0.shelf.items slot None), [])) }
{
    match put(board, seat, slot, None) {
        Some(Item::Value(value)) => value,
        _ => unreachable!(),
    }
}

/// Takes the benches out of their slots, in their order.
pub(crate) fn take_benches<B: Work>(
    board: &Table<
        Option<Item<B, B::Value>>,
        View<Option<Item<B, B::Value>>, B>,
        Size,
        CrewRule<B>,
        Global,
    >,
    seat: &mut Token<Option<Item<B, B::Value>>, View<Option<Item<B, B::Value>>, B>>,
    nodes: usize,
    benches: &mut Vec<B>,
)
    requires seat { (seat.old.table_id ≡ board.now.shared.table_id) × IsSole seat.old.me × (nodes ≤ board.now.shared.table_id.words) }
    requires benches { (n : ℕ) → n < nodes → (tray : Tray B B.Value) × BenchAt seat.old.me.0.shelf.items n tray }
    requires room { (benches.old.items ≡ []) × (nodes ≤ vec_capacity benches.old) }
    ensures count { length benches.new.items ≡ nodes }
    ensures taken { (n : ℕ) (tray : Tray B B.Value) → n < nodes → BenchAt seat.old.me.0.shelf.items n tray → get_elem? benches.new.items n ≡ some tray.bench }
{
    for node in 0..nodes {
        let Tray { bench, given: _ } = take_tray(board, seat, node);
        benches.push_reserved(bench);
    }
}

/// Exchanges the benches in the slots with those of the list.
pub(crate) fn swap_benches<B: Work>(
    board: &Table<
        Option<Item<B, B::Value>>,
        View<Option<Item<B, B::Value>>, B>,
        Size,
        CrewRule<B>,
        Global,
    >,
    seat: &mut Token<Option<Item<B, B::Value>>, View<Option<Item<B, B::Value>>, B>>,
    benches: &mut [B],
)
    requires seat { (seat.old.table_id ≡ board.now.shared.table_id) × IsSole seat.old.me × (length benches.old ≤ board.now.shared.table_id.words) }
    requires laid { (n : ℕ) → n < length benches.old → (tray : Tray B B.Value) × BenchAt seat.old.me.0.shelf.items n tray × HasRoomFor tray }
    ensures seat { (seat.new.table_id ≡ seat.old.table_id) × (seat.new.me ≡ (with_items seat.old.me.0 seat.new.me.0.shelf.items, [])) }
    ensures laid { AreLaid benches.old seat.new.me.0.shelf.items × (length seat.new.me.0.shelf.items ≡ length seat.old.me.0.shelf.items) }
    ensures count { length benches.new ≡ length benches.old }
    ensures taken { (n : ℕ) (tray : Tray B B.Value) → n < length benches.old → BenchAt seat.old.me.0.shelf.items n tray → get_elem? benches.new n ≡ some tray.bench }
{
    for node in 0..benches.len() {
        let mut tray = take_tray(board, seat, node);
        mem::swap(&mut tray.bench, &mut benches[node]);
        put(board, seat, node, Some(Item::Bench(tray)));
    }
}

/// Gives the value of a link back to the bench that handed it.
fn return_value<B: Work>(
    board: &Table<
        Option<Item<B, B::Value>>,
        View<Option<Item<B, B::Value>>, B>,
        Size,
        CrewRule<B>,
        Global,
    >,
    seat: &mut Token<Option<Item<B, B::Value>>, View<Option<Item<B, B::Value>>, B>>,
    node: usize,
    slot: usize,
    place: u32,
)
    requires seat { (seat.old.table_id ≡ board.now.shared.table_id) × IsSole seat.old.me × (slot < board.now.shared.table_id.words) × (node < slot) × (place < 64) }
    requires value { (value : B.Value) × (get_elem? seat.old.me.0.shelf.items slot ≡ some (Some (Value value))) }
    requires bench { (tray : Tray B B.Value) × BenchAt seat.old.me.0.shelf.items node tray × (B.has_room tray.bench place ≡ false) }
    ensures seat { (seat.new.table_id ≡ seat.old.table_id) × (seat.new.me ≡ (with_items seat.old.me.0 seat.new.me.0.shelf.items, [])) }
    ensures bench { (tray : Tray B B.Value) → BenchAt seat.old.me.0.shelf.items node tray → (bench : B) × BenchAt seat.new.me.0.shelf.items node record { bench = bench; given = tray.given }
        × (B.memory bench ≡ B.memory tray.bench) × (B.has_room bench place ≡ true) × ((other : ℕ) → other ≢ place → B.has_room bench other ≡ B.has_room tray.bench other) }
    ensures others { (other : ℕ) → other ≢ node → other ≢ slot → get_elem? seat.new.me.0.shelf.items other ≡ get_elem? seat.old.me.0.shelf.items other }
    ensures size { length seat.new.me.0.shelf.items ≡ length seat.old.me.0.shelf.items }
{
    let value = take_value(board, seat, slot);
    let mut tray = take_tray(board, seat, node);
    tray.bench.back(place, value);
    put(board, seat, node, Some(Item::Bench(tray)));
}

/// Gives the value of each link back to the bench that handed it.
pub(crate) fn give_back<B: Work>(
    board: &Table<
        Option<Item<B, B::Value>>,
        View<Option<Item<B, B::Value>>, B>,
        Size,
        CrewRule<B>,
        Global,
    >,
    seat: &mut Token<Option<Item<B, B::Value>>, View<Option<Item<B, B::Value>>, B>>,
    links: &[Link],
    places: &[u32],
    nodes: usize,
)
    requires seat { (seat.old.table_id ≡ board.now.shared.table_id) × IsSole seat.old.me × (nodes + length links.now ≤ board.now.shared.table_id.words) }
    requires index { AreLinks nodes links.now × (places.now ≡ map (place_among links.now) (below (length links.now))) × (length links.now ≤ 512) × (nodes ≤ 64) }
    requires spent { AreSpent B.has_room links.now nodes seat.old.me.0.shelf.items }
    ensures seat { (seat.new.table_id ≡ seat.old.table_id) × (seat.new.me ≡ (with_items seat.old.me.0 seat.new.me.0.shelf.items, [])) }
    ensures back { AreBack B.memory B.has_room links.now nodes seat.old.me.0.shelf.items seat.new.me.0.shelf.items }
    ensures size { length seat.new.me.0.shelf.items ≡ length seat.old.me.0.shelf.items }
{
    for (link, place) in places.iter().enumerate() {
        return_value(board, seat, links[link].from as usize, nodes + link, *place);
    }
}

/// Makes the seat's list of links anew.
pub(crate) fn add_links<B: Work>(
    board: &Table<
        Option<Item<B, B::Value>>,
        View<Option<Item<B, B::Value>>, B>,
        Size,
        CrewRule<B>,
        Global,
    >,
    seat: &mut Token<Option<Item<B, B::Value>>, View<Option<Item<B, B::Value>>, B>>,
    links: &[Link],
)
    requires seat { (seat.old.table_id ≡ board.now.shared.table_id) × IsSole seat.old.me × (0 < board.now.shared.table_id.words) }
    requires links { AreLinks board.now.shared.table_id.words links.now }
    ensures seat { (seat.new.table_id ≡ seat.old.table_id) × (seat.new.me ≡ (with_words (with_links seat.old.me.0 links.now) seat.new.me.0.shelf.words, [])) }
    ensures words { length seat.new.me.0.shelf.words ≡ length seat.old.me.0.shelf.words }
    ensures others { (nodes word : ℕ) → AreLinks nodes links.now → nodes ≤ word → get_elem? seat.new.me.0.shelf.words word ≡ get_elem? seat.old.me.0.shelf.words word }
{
    board.shared.load::<Unlink>(seat, 0);
    for link in links {
        board
            .shared
            .store::<AddLink>(seat, link.from as usize, u64::from(link.to));
    }
}

/// Begins the next cycle over the benches that lie in the slots.
pub(crate) fn open_cycle<B: Work>(
    board: &Table<
        Option<Item<B, B::Value>>,
        View<Option<Item<B, B::Value>>, B>,
        Size,
        CrewRule<B>,
        Global,
    >,
    seat: &mut Token<Option<Item<B, B::Value>>, View<Option<Item<B, B::Value>>, B>>,
)
    requires seat { (seat.old.table_id ≡ board.now.shared.table_id) × IsSole seat.old.me × (0 < board.now.shared.table_id.words) }
    requires laid { IsLaidOut board.now.shared.table_id.slots seat.old.me.0 }
    ensures seat { (seat.new.table_id ≡ seat.old.table_id) × IsIdle seat.new.me }
    ensures duty { seat.new.me.0.duty ≡ new_duty seat.old.me.0.duty.links (benches_of board.now.shared.table_id.slots seat.old.me.0.shelf.items) seat.old.me.0.duty.seats (from_to 0 seat.old.me.0.duty.seats) }
{
    board.shared.load::<Begin>(seat, 0);
}

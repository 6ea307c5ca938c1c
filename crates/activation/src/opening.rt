//! How the table of a crew comes to hold its benches and counters.
ghost use Rattle.std.specs.Prelude.{◌≡◌, ◌≤◌, ◌<◌, ◌+◌, ◌++◌, ℕ, List, [], length, map, slice_set, vec_capacity};
ghost use mathlib.Core.Option.{some};
ghost use lib.ListN.{get_elem?};
ghost use Rattle.session_laws.specs.session_model.specs.Activation.{incoming};
ghost use Rattle.session_laws.specs.session_model.specs.Samples.{below};
ghost use Rattle.activation.specs.Contents.{AreLaid, AreEmpty};
ghost use Rattle.activation.specs.Plays.{with_items, with_words};
ghost use Rattle.activation.specs.Seats.{IsSole};

use crate::rules::{CrewRule, LayDown, Lift, Set};
use crate::views::{Item, Size, Tray, View};
use crate::work::Work;
use atomic_table::{Seat as Token, Table};
use std::alloc::Global;

/// Puts an item into a slot, by the one seat, and answers what lay there.
pub(crate) fn put<B: Work>(
    board: &Table<
        Option<Item<B, B::Value>>,
        View<Option<Item<B, B::Value>>, B>,
        Size,
        CrewRule<B>,
        Global,
    >,
    seat: &mut Token<Option<Item<B, B::Value>>, View<Option<Item<B, B::Value>>, B>>,
    slot: usize,
    item: Option<Item<B, B::Value>>,
) -> Option<Item<B, B::Value>>
    requires seat { (seat.old.table_id ≡ board.now.shared.table_id) × IsSole seat.old.me }
    requires slot { (slot < board.now.shared.table_id.words) × (slot < length seat.old.me.0.shelf.items) }
    ensures seat { (seat.new.table_id ≡ seat.old.table_id) × (seat.new.me ≡ (with_items seat.old.me.0 (slice_set seat.old.me.0.shelf.items slot item), [])) }
    ensures item { get_elem? seat.old.me.0.shelf.items slot ≡ some result }
{
    let board = &board.shared;
    board.load::<Lift>(seat, slot);
    let old = board.exchange(seat, slot, item);
    board.load::<LayDown>(seat, slot);
    old
}

/// Writes a word, by the one seat.
pub(crate) fn write<B: Work>(
    board: &Table<
        Option<Item<B, B::Value>>,
        View<Option<Item<B, B::Value>>, B>,
        Size,
        CrewRule<B>,
        Global,
    >,
    seat: &mut Token<Option<Item<B, B::Value>>, View<Option<Item<B, B::Value>>, B>>,
    word: usize,
    value: u64,
)
    requires seat { (seat.old.table_id ≡ board.now.shared.table_id) × IsSole seat.old.me }
    requires word { word < board.now.shared.table_id.words }
    ensures { (seat.new.table_id ≡ seat.old.table_id) × (seat.new.me ≡ (with_words seat.old.me.0 (slice_set seat.old.me.0.shelf.words word value), [])) }
{
    board.shared.store::<Set>(seat, word, value);
}

/// Lays each bench into its slot, with the room for what it is given.
pub(crate) fn lay_benches<B: Work>(
    board: &Table<
        Option<Item<B, B::Value>>,
        View<Option<Item<B, B::Value>>, B>,
        Size,
        CrewRule<B>,
        Global,
    >,
    seat: &mut Token<Option<Item<B, B::Value>>, View<Option<Item<B, B::Value>>, B>>,
    benches: &mut Vec<B>,
    rooms: &mut Vec<Vec<Option<B::Value>>>,
)
    requires seat { (seat.old.table_id ≡ board.now.shared.table_id) × IsSole seat.old.me }
    requires benches { (length benches.old.items ≤ board.now.shared.table_id.words) × (length benches.old.items ≤ length seat.old.me.0.shelf.items) }
    requires rooms { (length rooms.old.items ≡ length benches.old.items) × AreEmpty rooms.old.items }
    ensures seat { (seat.new.table_id ≡ seat.old.table_id) × (seat.new.me ≡ (with_items seat.old.me.0 seat.new.me.0.shelf.items, [])) }
    ensures laid { AreLaid benches.old.items seat.new.me.0.shelf.items }
    ensures others { (length seat.new.me.0.shelf.items ≡ length seat.old.me.0.shelf.items) × ((slot : ℕ) → length benches.old.items ≤ slot → get_elem? seat.new.me.0.shelf.items slot ≡ get_elem? seat.old.me.0.shelf.items slot) }
    ensures benches { (benches.new.items ≡ []) × (vec_capacity benches.new ≡ vec_capacity benches.old) }
{
    while let Some(bench) = benches.pop() {
        let Some(given) = rooms.pop() else {
            unreachable!()
        };
        put(
            board,
            seat,
            benches.len(),
            Some(Item::Bench(Tray { bench, given })),
        );
    }
}

/// Sets the counter of each node: its incoming links, and one for its start.
pub(crate) fn set_counters<B: Work>(
    board: &Table<
        Option<Item<B, B::Value>>,
        View<Option<Item<B, B::Value>>, B>,
        Size,
        CrewRule<B>,
        Global,
    >,
    seat: &mut Token<Option<Item<B, B::Value>>, View<Option<Item<B, B::Value>>, B>>,
    into: &[Vec<u32>],
)
    requires seat { (seat.old.table_id ≡ board.now.shared.table_id) × IsSole seat.old.me }
    requires words { (length into.now ≤ board.now.shared.table_id.words) × (length into.now ≤ length seat.old.me.0.shelf.words) }
    ensures seat { (seat.new.table_id ≡ seat.old.table_id) × (seat.new.me ≡ (with_words seat.old.me.0 seat.new.me.0.shelf.words, [])) }
    ensures counters { (others : List ℕ) × (seat.new.me.0.shelf.words ≡ map (λ links. length links.items + 1) into.now ++ others) }
    ensures others { (word : ℕ) → length into.now ≤ word → get_elem? seat.new.me.0.shelf.words word ≡ get_elem? seat.old.me.0.shelf.words word }
{
    for (node, links) in into.iter().enumerate() {
        write(board, seat, node, links.len() as u64 + 1);
    }
}

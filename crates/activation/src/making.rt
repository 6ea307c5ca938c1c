//! How a crew is made.
ghost use Rattle.std.specs.Prelude.{◌≡◌, ◌≤◌, ◌<◌, ◌+◌, ℕ, List, [], ◌∷◌, length, map, All, IfOk, vec_capacity};
ghost use Rattle.session_laws.specs.session_model.specs.Activation.{AreLinks, incoming, outgoing, place_among};
ghost use Rattle.session_laws.specs.session_model.specs.Samples.{below};
ghost use Rattle.activation.specs.Contents.{AreEmpty, first_view, from_to};
ghost use Rattle.activation.specs.Seats.{IsIdle, IsShare, new_duty};

use crate::indexes::{all_rooms, empty_lists, refill};
use crate::opening::{lay_benches, set_counters, write};
use crate::rules::{CrewRule, Shares};
use crate::takens::Seat;
use crate::turns::open_cycle;
use crate::views::{Item, Size, View};
use crate::work::Work;
use atomic_table::{Seat as Token, Table};
use session_laws::jack_types::Link;
use std::alloc::{AllocError, Global};

/// All that a crew takes memory for.
#[derive(Drop)]
pub(crate) struct Parts<B: Work> {
    pub(crate) board: Table<
        Option<Item<B, B::Value>>,
        View<Option<Item<B, B::Value>>, B>,
        Size,
        CrewRule<B>,
        Global,
    >,
    pub(crate) token: Token<Option<Item<B, B::Value>>, View<Option<Item<B, B::Value>>, B>>,
    pub(crate) links: Vec<Link>,
    pub(crate) into: Vec<Vec<u32>>,
    pub(crate) out: Vec<Vec<u32>>,
    pub(crate) places: Vec<u32>,
    pub(crate) rooms: Vec<Vec<Option<B::Value>>>,
    pub(crate) seats: Vec<Seat<B>>,
}

/// Takes all the memory that a crew needs.
pub(crate) fn prepare<B: Work>(
    alloc: Global,
    links: &[Link],
    nodes: usize,
    seats: u32,
) -> Result<Parts<B>, AllocError>
    requires { AreLinks nodes links.now × (length links.now ≤ 512) × (nodes ≤ 64) }
    ensures board { IfOk result (λ parts. (parts.board.shared.table_id.slots ≡ nodes + 512) × (parts.board.shared.table_id.words ≡ nodes + 577) × (parts.token.table_id ≡ parts.board.shared.table_id) × (parts.token.me ≡ (first_view links.now (nodes + 512) seats, []))) }
    ensures index { IfOk result (λ parts. (parts.links.items ≡ links.now) × (map (λ into. into.items) parts.into.items ≡ map (incoming links.now) (below nodes)) × (map (λ out. out.items) parts.out.items ≡ map (outgoing links.now) (below nodes)) × (parts.places.items ≡ map (place_among links.now) (below (length links.now)))) }
    ensures kept { IfOk result (λ parts. (512 ≤ vec_capacity parts.links) × All (λ which. 512 ≤ vec_capacity which) parts.into.items × All (λ which. 512 ≤ vec_capacity which) parts.out.items × (512 ≤ vec_capacity parts.places)) }
    ensures room { IfOk result (λ parts. (length parts.rooms.items ≡ nodes) × AreEmpty parts.rooms.items × (parts.seats.items ≡ []) × (seats ≤ vec_capacity parts.seats)) }
{
    let mut kept = Vec::with_capacity(alloc, 512)?;
    let mut into = empty_lists(alloc, nodes)?;
    let mut out = empty_lists(alloc, nodes)?;
    let mut places = Vec::with_capacity(alloc, 512)?;
    refill(links, &mut kept, &mut into, &mut out, &mut places);
    let size = Size {
        links: kept,
        slots: nodes + 512,
        seats,
    };
    let words = vec![in alloc; 0u64; nodes + 577]?;
    let rooms = all_rooms(alloc, nodes)?;
    let seats = Vec::with_capacity(alloc, seats as usize)?;
    let (board, token) = Table::vacant(alloc, words.as_slice(), nodes + 512, &size)?;
    let Size {
        links,
        slots: _,
        seats: _,
    } = size;
    Ok(Parts {
        board,
        token,
        links,
        into,
        out,
        places,
        rooms,
        seats,
    })
}

/// Lays the benches and the counters, and begins the first cycle.
pub(crate) fn begin<B: Work>(
    board: &Table<
        Option<Item<B, B::Value>>,
        View<Option<Item<B, B::Value>>, B>,
        Size,
        CrewRule<B>,
        Global,
    >,
    token: &mut Token<Option<Item<B, B::Value>>, View<Option<Item<B, B::Value>>, B>>,
    into: &[Vec<u32>],
    rooms: &mut Vec<Vec<Option<B::Value>>>,
    benches: &mut Vec<B>,
)
    requires board { (board.now.shared.table_id.words ≡ length benches.old.items + 577) × (board.now.shared.table_id.slots ≡ length benches.old.items + 512) × (token.old.table_id ≡ board.now.shared.table_id) × (token.old.me ≡ (first_view token.old.me.0.duty.links (length benches.old.items + 512) token.old.me.0.duty.seats, [])) }
    requires few { length benches.old.items ≤ 64 }
    requires index { AreLinks (length benches.old.items) token.old.me.0.duty.links × (length token.old.me.0.duty.links ≤ 512) × (map (λ into. into.items) into.now ≡ map (incoming token.old.me.0.duty.links) (below (length benches.old.items))) }
    requires room { (length rooms.old.items ≡ length benches.old.items) × AreEmpty rooms.old.items × (0 < token.old.me.0.duty.seats) }
    ensures token { (token.new.table_id ≡ token.old.table_id) × IsIdle token.new.me × (token.new.me.0.duty ≡ new_duty token.old.me.0.duty.links benches.old.items token.old.me.0.duty.seats (from_to 0 token.old.me.0.duty.seats)) }
    ensures benches { (benches.new.items ≡ []) × (vec_capacity benches.new ≡ vec_capacity benches.old) }
{
    lay_benches(board, token, benches, rooms);
    write(board, token, into.len() + 512, into.len() as u64);
    set_counters(board, token, into);
    open_cycle(board, token);
}

/// Splits the first seat into one for each share.
pub(crate) fn share<B: Work>(
    board: &Table<
        Option<Item<B, B::Value>>,
        View<Option<Item<B, B::Value>>, B>,
        Size,
        CrewRule<B>,
        Global,
    >,
    mut token: Token<Option<Item<B, B::Value>>, View<Option<Item<B, B::Value>>, B>>,
    count: u32,
    mut seats: Vec<Seat<B>>,
) -> Vec<Seat<B>>
    requires token { (token.table_id ≡ board.now.shared.table_id) × (0 < board.now.shared.table_id.words) × IsIdle token.me × (token.me.0.duty ≡ new_duty token.me.0.duty.links token.me.0.duty.before count (from_to 0 count)) }
    requires room { (seats.items ≡ []) × (count ≤ vec_capacity seats) × (0 < count) }
    ensures numbers { map (λ seat. seat.number) result.items ≡ below count }
    ensures each { All (λ seat. IsShare board.now.shared.table_id token.me.0.duty.links token.me.0.duty.before count seat.number seat.token) result.items }
{
    for number in 0..count - 1 {
        let part = board.shared.split_seat::<Shares>(&mut token);
        seats.push_reserved(Seat {
            number,
            token: part,
        });
    }
    seats.push_reserved(Seat {
        number: count - 1,
        token,
    });
    seats
}

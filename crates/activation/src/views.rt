//! What lies in the slots of a crew's table, and what each of its seats knows.
//!
//! Slot n is the bench of node n, and slot `nodes` + k the value of link k. Each slot has a word of the
//! same number, by which a load says which slot it means; word n is the counter of node n as well. Word
//! `nodes` + 512 is the count of benches out, and word `nodes` + 513 + n is 1 while node n is left, and else 0.
use session_laws::jack_types::Link;
use std::collections::LinkedList;

/// A bench with the room for the values that it is given.
#[derive(Drop)]
pub struct Tray<B, Y> {
    pub bench: B,
    pub given: Vec<Option<Y>>,
}

/// What lies in a slot.
#[derive(Drop)]
pub enum Item<B, Y> {
    /// A bench that no seat holds.
    Bench(Tray<B, Y>),
    /// The value of a link.
    Value(Y),
}

/// The list of links, how many slots the table has, and how many seats share the nodes.
#[derive(Drop)]
pub struct Size {
    pub links: Vec<Link>,
    pub slots: usize,
    pub seats: u32,
}

/// What a seat knows of the cycle. No value of it is made.
pub struct Duty<B> {
    /// The list of links.
    pub links: LinkedList<Link>,
    /// All benches before the cycle.
    pub before: LinkedList<B>,
    /// The number of shares.
    pub seats: u64,
    /// The shares whose nodes this seat starts.
    pub shares: LinkedList<u64>,
    /// The nodes that it started.
    pub started: LinkedList<u64>,
    /// The links that it released.
    pub released: LinkedList<u64>,
    /// The nodes that it holds.
    pub held: LinkedList<u64>,
    /// The nodes that it left and did not look for since.
    pub left: LinkedList<u64>,
}

/// What a seat knows of the slots of the nodes that it holds. No value of it is made.
pub struct Hand {
    /// The slots that are out with it.
    pub out: LinkedList<u64>,
    /// The node that it took last.
    pub node: u64,
    /// From this slot on, those of that node's bench and of its incoming links are as they came.
    pub floor: u64,
    /// The slots to which a played bench or a used value came back.
    pub ready: LinkedList<u64>,
    /// The slots to which a bench or a value came back as it was taken.
    pub back: LinkedList<u64>,
}

/// The whole table, which a seat knows while it is the only one. No value of it is made.
pub struct Shelf<S> {
    pub words: LinkedList<u64>,
    pub items: LinkedList<S>,
    /// The slots that are out with it.
    pub out: LinkedList<u64>,
}

/// What a seat knows. No value of it is made.
pub struct View<S, B> {
    /// Whether the seat is still there: one that was joined into another is not.
    pub is_live: bool,
    /// Whether it is the only one, and the crew is not in a cycle.
    pub is_still: bool,
    pub duty: Duty<B>,
    pub hand: Hand,
    pub shelf: Shelf<S>,
}

//! The table of a publication, and what each of its two seats knows.
//! Word 0 is four times the number of the plan that it holds, and the plan's place, which is a slot. Word 1 is the cycle begun last.
//! The other two slots are out with the publisher and the reader, whose plans lie outside the table.
use crate::plans::{Base, Numbered};
use atomic_table::{Seat, Shared, Table, TableRule};
use session_model::jack_types::Change;
use std::alloc::Global;
use std::collections::LinkedList;
use std::marker::{Model, PhantomData};

pub(crate) const WORD: usize = 0;

pub(crate) const CYCLE: usize = 1;

/// A cycle that was begun, and the content that it took. No value of it is made.
pub struct TakenRow {
    pub cycle: u32,
    pub changes: LinkedList<Change>,
}

/// A cycle that the publisher saw, and the number published then. No value of it is made.
pub struct Seen {
    cycle: u32,
    number: u32,
}

impl Model for Seen {
    ghost use Rattle.session_model.specs.Publication.{SeenPair};

    ghost Value = { SeenPair };

    ghost view = { λ s. record { cycle = s.cycle; number = s.number } };
}

/// What the publisher knows. No value of it is made.
pub struct PublisherView {
    pub base: Base,
    /// The last content published.
    pub all: LinkedList<Change>,
    pub place: u64,
    /// The slot of its place is out with the publisher.
    pub holds: bool,
    pub pairs: LinkedList<Seen>,
    /// No later look at the cycle word finds less.
    pub least: u64,
}

/// What the reader knows. No value of it is made.
pub struct ReaderView {
    pub base: Base,
    /// The content of its own place.
    pub held: LinkedList<Change>,
    pub place: u64,
    /// The slot of its place is out with the reader.
    pub holds: bool,
    /// The numbers that its steps read.
    pub reads: LinkedList<u64>,
    pub rows: LinkedList<TakenRow>,
    /// No later take answers less.
    pub least: u64,
    /// The word's number, which a load found above the own one, is at least this. Else 0.
    pub ahead: u64,
}

/// What a seat at the table knows. No value of it is made.
pub struct SeatView {
    pub is_publisher: bool,
    pub is_reader: bool,
    pub publisher: PublisherView,
    pub reader: ReaderView,
}

/// Words, slots and views show a valid state of the publication machine. The key is any plan with the common base.
pub struct Rules<P> {
    plan: PhantomData<P>,
}

impl<P: Numbered> TableRule<Option<P>, SeatView, P> for Rules<P> {
    ghost use Rattle.graph_word.specs.Rule.{PublicationRule, opening_view};

    ghost holds = { λ key s. PublicationRule P.content P.base (P.base key) s };

    ghost first = { λ key. opening_view (P.base key) };
}

pub(crate) type Board<P> = Table<Option<P>, SeatView, P, Rules<P>, Global>;

pub(crate) type Words<P> = Shared<Option<P>, SeatView, P, Rules<P>>;

pub(crate) type Place<P> = Seat<Option<P>, SeatView>;

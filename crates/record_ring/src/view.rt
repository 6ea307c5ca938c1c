//! The table of a ring, and what each of its two seats knows.
//! Word 0 is twice the number of blocks sent, and one more where the end mark stands. Word 1 is the number taken.
//! Slot k holds a block sent and not yet taken whose number is k modulo the capacity, and else a spare.
use crate::block::{Block, Content};
use atomic_table::{Seat, Table, TableRule};
use std::alloc::Global;
use std::collections::LinkedList;

pub(crate) const SENT: usize = 0;

pub(crate) const TAKEN: usize = 1;

/// What a ring was made for: the room of its blocks, and a bound on the samples of all blocks put.
#[derive(Clone, Copy)]
pub struct Size {
    pub samples: u32,
    pub most: u64,
}

/// What the producer knows. No value of it is made.
pub struct ProducerView {
    pub put: LinkedList<Content>,
    /// The number taken that each put found.
    pub looks: LinkedList<u64>,
    /// No later look is less.
    pub least: u64,
    pub ended: bool,
    /// A slot is out with the producer.
    pub holds: bool,
}

/// What the consumer knows. No value of it is made.
pub struct ConsumerView {
    pub got: LinkedList<Content>,
    /// The block that is out with the consumer, if one is.
    pub next: LinkedList<Content>,
    /// The number sent that each get found.
    pub finds: LinkedList<u64>,
    /// No later get finds less.
    pub least: u64,
    /// Every later get finds the end mark.
    pub told: bool,
    /// A get found the end, with all blocks got.
    pub done: bool,
}

/// What a seat at the table knows. No value of it is made.
pub struct SeatView {
    pub size: Size,
    pub is_producer: bool,
    pub is_consumer: bool,
    pub producer: ProducerView,
    pub consumer: ConsumerView,
}

/// Words, slots and views show a valid state of the ring machine.
pub struct Rules;

impl TableRule<Block, SeatView, Size> for Rules {
    ghost use Rattle.record_ring.specs.Rule.{RingRule, opening_view};

    ghost holds = { RingRule };

    ghost first = { opening_view };
}

pub(crate) type Board = Table<Block, SeatView, Size, Rules, Global>;

pub(crate) type Place = Seat<Block, SeatView>;

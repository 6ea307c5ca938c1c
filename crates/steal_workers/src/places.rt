//! The place of a seat: its deque, and in a cycle the seat itself.
use crate::ends::{Deque, Pass};
use cycle_workers::activation::{Seat, Work};

/// A seat in a cycle, with a pass to each deque, in the order of the seats.
#[derive(Drop)]
pub(crate) struct Thief<B: Work> {
    pub(crate) seat: Seat<B>,
    pub(crate) passes: Vec<Pass>,
}

/// A deque, and in a cycle the seat that owns it.
#[derive(Drop)]
pub(crate) struct Place<B: Work> {
    pub(crate) deque: Deque,
    pub(crate) thief: Option<Thief<B>>,
}

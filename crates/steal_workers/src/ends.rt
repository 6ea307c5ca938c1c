//! The two ends of a deque of node numbers.
ghost use Rattle.std.specs.Prelude.{◌≡◌};
ghost use Rattle.crossbeam_deque.specs.Handles.{worker_flavor, worker_port, stealer_flavor};

use crate::tallies::{Pending, Tally};
use crossbeam_deque::Worker;
use std::alloc::Global;

/// A seat's right to steal from a deque. It has no bytes.
pub(crate) type Pass = crossbeam_deque::Pass<u32, Tally>;

/// A deque, at the seat that owns it. What is pushed first leaves first.
#[derive(Drop)]
pub(crate) struct Deque {
    pub(crate) worker: Worker<u32, Global, Tally, Pending>,
    ghost fifo: { worker_flavor worker ≡ 0 },
    ghost first: { worker_port worker ≡ 0 },
}

/// A deque, at the seats that steal from it.
#[derive(Drop)]
pub(crate) struct Stealer {
    pub(crate) stealer: crossbeam_deque::Stealer<u32, Global, Tally, Pending>,
    ghost fifo: { stealer_flavor stealer ≡ 0 },
}

//! A deque of node numbers: the seat that owns it pushes and pops, the others steal.
ghost use Rattle.std.specs.Prelude.{◌≡◌, ◌+◌, ◌<◌, [], ◌∷◌, length, IfOk, MatchResult, MatchOption};
ghost use Rattle.steal_workers.specs.Tallies.{tally, every_part, with_pushed, with_taken, without_part, with_part, HasAll, IsEven};
ghost use Rattle.steal_workers.specs.Deques.{tally_of, SameDeque, LeadsTo, IsPassOn, IsPassFor};

use crate::ends::{Deque, Pass, Stealer};
use crate::tallies::{Parts, Popped, Pushed, Stolen};
use crossbeam_deque::{Steal, Worker};
use std::alloc::{AllocError, Global};

// How often a steal is tried again that another thread came before.
const MOST_RETRIES: u32 = 64;

// A deque begins with a slot for each node that a crew can have.
const FIRST_ROOM: usize = 64;

impl Deque {
    /// An empty deque, all of whose parts are its owner's.
    pub(crate) fn new(alloc: Global) -> Result<Deque, AllocError>
        ensures { IfOk result (λ deque. tally_of deque ≡ tally every_part [] []) }
    {
        Ok(Deque {
            worker: Worker::fifo_as(alloc, FIRST_ROOM)?,
        })
    }

    /// The deque, for the seats that steal from it.
    pub(crate) fn stealer(&self) -> Result<Stealer, AllocError>
        ensures { IfOk result (λ stealer. LeadsTo stealer self.now) }
    {
        Ok(Stealer {
            stealer: self.worker.stealer()?,
        })
    }

    /// Pushes a number, or gives it back for want of memory.
    pub(crate) fn push(&mut self, node: u32) -> Result<(), u32>
        ensures same { SameDeque self.old self.new }
        ensures pushed { MatchResult result (λ _. tally_of self.new ≡ with_pushed (tally_of self.old) (node ∷ [])) (λ back. (back ≡ node) × (tally_of self.new ≡ tally_of self.old)) }
    {
        self.worker.push_as::<Pushed>(node)
    }

    /// Pops the number that was pushed first.
    ///
    /// The answer is `None` only where the deque was empty at one moment of the call.
    pub(crate) fn pop(&mut self) -> Option<u32>
        requires part { 0 < (tally_of self.old).parts }
        ensures same { SameDeque self.old self.new }
        ensures popped { MatchOption result ((tally_of self.new ≡ tally_of self.old) × (HasAll (tally_of self.old) → IsEven (tally_of self.old))) (λ node. (tally_of self.new ≡ with_taken (tally_of self.old) (node ∷ [])) × (HasAll (tally_of self.old) → length (tally_of self.old).taken < length (tally_of self.old).pushed)) }
    {
        self.worker.pop_as::<Popped>()
    }

    /// Pops all that is left.
    pub(crate) fn clear(&mut self)
        requires all { HasAll (tally_of self.old) }
        ensures same { SameDeque self.old self.new }
        ensures empty { HasAll (tally_of self.new) × IsEven (tally_of self.new) }
    {
        while self.pop().is_some() {}
    }

    /// Gives a part to a seat that may steal.
    pub(crate) fn lend(&mut self) -> Pass
        requires parts { 1 < (tally_of self.old).parts }
        ensures same { SameDeque self.old self.new }
        ensures lent { (tally_of self.new ≡ without_part (tally_of self.old)) × IsPassOn self.old result }
    {
        self.worker.another::<Parts>()
    }

    /// Takes a part back, with what was stolen by it.
    pub(crate) fn take_back(&mut self, pass: Pass)
        requires pass { IsPassOn self.old pass }
        ensures same { SameDeque self.old self.new }
        ensures parts { (tally_of self.new).parts ≡ (tally_of self.old).parts + 1 }
    {
        self.worker.absorb::<Parts>(pass);
    }
}

impl Stealer {
    /// Steals the number that was pushed first.
    ///
    /// The answer is `None` where the deque was empty at one moment of the call, or where other threads came
    /// before too often.
    pub(crate) fn steal(&self, pass: &mut Pass) -> Option<u32>
        requires pass { IsPassFor self.now pass.old }
        ensures pass { IsPassFor self.now pass.new }
    {
        for _ in 0..=MOST_RETRIES {
            match self.stealer.steal_as::<Stolen>(pass) {
                Steal::Success(node) => return Some(node),
                Steal::Empty => return None,
                Steal::Retry => {}
            }
        }
        None
    }
}

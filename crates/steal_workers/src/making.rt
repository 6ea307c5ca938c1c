//! How deques and passes are made.
ghost use Rattle.std.specs.Prelude.{◌≡◌, ◌≤◌, length, IfOk};
ghost use Rattle.steal_workers.specs.Thefts.{AreEmpty};

use crate::ends::Deque;
use crate::places::Place;
use crate::thieves::Thieves;
use cycle_workers::activation::Work;
use std::alloc::{AllocError, Global};

impl<B: Work> Thieves<B> {
    /// An empty deque for each seat, and the room for all that a cycle lends.
    pub fn new(alloc: Global, seats: u32) -> Result<Thieves<B>, AllocError>
        requires { seats ≤ 16 }
        ensures count { IfOk result (λ thieves. length thieves ≡ seats) }
        ensures empty { IfOk result (λ thieves. AreEmpty thieves) }
    {
        let count = seats as usize;
        let mut stealers = Vec::with_capacity(alloc, count)?;
        let mut places = Vec::with_capacity(alloc, count)?;
        let mut passes = Vec::with_capacity(alloc, count)?;
        for _ in 0..count {
            let deque = Deque::new(alloc)?;
            stealers.push_reserved(deque.stealer()?);
            places.push_reserved(Place { deque, thief: None });
            passes.push_reserved(Vec::with_capacity(alloc, count)?);
        }
        Ok(Thieves {
            stealers,
            places,
            passes,
        })
    }
}

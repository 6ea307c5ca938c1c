//! The end of a ring that puts blocks.
use crate::block::Block;
use crate::steps::{Glance, Look, Mark, Send};
use crate::view::{Board, Place, SENT, TAKEN};
use std::alloc::Global;
use std::marker::Model;
use std::mem;
use std::sync::Arc;

/// The ring had no free place: so many blocks were sent, and this call found so many taken.
#[derive(Clone, Copy, Debug, PartialEq, Eq)]
pub struct Full {
    pub sent: u64,
    pub taken: u64,
}

/// The end of a ring that puts blocks. It can move to another thread.
#[derive(Drop)]
pub struct Producer {
    pub(crate) table: Arc<Board, Global>,
    pub(crate) seat: Place,
    pub(crate) capacity: u64,
    pub(crate) sent: u64,
}

impl Model for Producer {
    ghost use Rattle.driver_words.specs.Rings.{Sending};

    ghost Value = { Sending };

    ghost use Rattle.record_ring.specs.Ends.{sending_of, IsProducer};

    ghost view = { λ p. sending_of p.seat.table_id p.capacity p.seat.me.0 };

    ghost invariant = { IsProducer };
}

impl Producer {
    ghost use Rattle.std.specs.Prelude.{◌≡◌, ◌+◌, ◌<◌, ◌≤◌, ◌^◌, ℕ, false, true, length, OnOk, OnErr, IfErr};
    ghost use Rattle.record_ring.specs.Rings.{content};
    ghost use Rattle.driver_words.specs.Rings.{items_of, Puts, IsFull};

    /// Puts the block's content into the ring, and leaves a spare in its place.
    ///
    /// It loads the number taken once, and where that leaves no room it does nothing. Else it swaps the
    /// block with the spare of its slot, and stores the number sent. It neither waits nor takes memory.
    pub fn put(&mut self, block: &mut Block) -> Result<(), Full>
        requires going { self.old.ended ≡ false }
        requires room { block.old.samples.room ≡ self.old.samples }
        requires few { length self.old.put < 2 ^ 62 }
        requires most { items_of self.old.put + length block.old.samples.items ≤ self.old.most }
        ensures ok { OnOk result ((look : ℕ) × Puts self.old (content block.old) look self.new) }
        ensures full { IfErr result (λ full. IsFull self.old full.taken self.new × (full.sent ≡ length self.old.put)) }
        ensures kept { OnErr result (block.new ≡ block.old) }
        ensures spare { block.new.samples.room ≡ block.old.samples.room }
    {
        let words = &self.table.shared;
        let taken = words.load::<Look>(&mut self.seat, TAKEN);
        if self.sent >= taken + self.capacity {
            return Err(Full {
                sent: self.sent,
                taken,
            });
        }
        let slot = (self.sent % self.capacity) as usize;
        mem::swap(block, self.seat.slot_mut(words, slot));
        words.store::<Send>(&mut self.seat, SENT, 2 * (self.sent + 1));
        self.sent += 1;
        Ok(())
    }

    /// Whether the ring has no free place now. Where the two ends met with room since the last put, it has one.
    ///
    /// It loads the number taken once, and notes nothing.
    pub fn is_full(&mut self) -> bool
        ensures full { result ≡ true → self.old.least + self.old.capacity ≤ length self.old.put }
        ensures same { self.new ≡ self.old }
    {
        let words = &self.table.shared;
        let taken = words.load::<Glance>(&mut self.seat, TAKEN);
        self.sent.saturating_sub(taken) >= self.capacity
    }

    /// Sets the end mark: no block follows until `renew` takes it away. One store.
    pub fn end(&mut self)
        requires { self.old.ended ≡ false }
        ensures { self.new ≡ record self.old { ended = true } }
    {
        let words = &self.table.shared;
        words.store::<Mark>(&mut self.seat, SENT, 2 * self.sent + 1);
    }
}

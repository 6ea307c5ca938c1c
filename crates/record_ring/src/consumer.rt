//! The end of a ring that gets blocks.
use crate::block::Block;
use crate::steps::{Find, Peek, Take};
use crate::view::{Board, Place, SENT, TAKEN};
use std::alloc::Global;
use std::marker::Model;
use std::mem;
use std::sync::Arc;

/// What a get answers.
#[derive(Clone, Copy, Debug, PartialEq, Eq)]
pub enum Got {
    Block,
    /// So many blocks were sent, and all of them taken.
    Empty { sent: u64, taken: u64 },
    Ended,
}

/// The end of a ring that gets blocks. It can move to another thread.
#[derive(Drop)]
pub struct Consumer {
    pub(crate) table: Arc<Board, Global>,
    pub(crate) seat: Place,
    pub(crate) capacity: u64,
    pub(crate) taken: u64,
}

impl Model for Consumer {
    ghost use Rattle.driver_words.specs.Rings.{Getting};

    ghost Value = { Getting };

    ghost use Rattle.record_ring.specs.Ends.{getting_of, IsConsumer};

    ghost view = { λ c. getting_of c.seat.table_id c.seat.me.0 };

    ghost invariant = { IsConsumer };
}

impl Consumer {
    ghost use Rattle.std.specs.Prelude.{◌≡◌, ◌≢◌, ◌<◌, ◌≤◌, ◌^◌, ℕ, false, true, length};
    ghost use Rattle.record_ring.specs.Rings.{content, Gets};
    ghost use Rattle.driver_words.specs.Rings.{items_of};

    /// Takes the oldest block of the ring, and leaves the content of `block` there as a spare.
    ///
    /// It loads the number sent with the end mark once. Where a block waits it swaps it with `block`, and
    /// stores the number taken. It neither waits nor takes memory.
    pub fn get(&mut self, block: &mut Block) -> Got
        requires { block.old.samples.room ≡ self.old.samples }
        ensures gets { (found : ℕ) × Gets self.old self.new (content block.new) found result }
        ensures most { items_of self.new.got ≤ self.new.most }
        ensures few { length self.new.got < 2 ^ 63 }
        ensures kept { result ≢ Got.Block → block.new ≡ block.old }
        ensures spare { block.new.samples.room ≡ block.old.samples.room }
    {
        let words = &self.table.shared;
        let found = words.load::<Find>(&mut self.seat, SENT);
        let sent = found / 2;
        if sent == self.taken {
            if found % 2 == 1 {
                return Got::Ended;
            }
            return Got::Empty {
                sent,
                taken: self.taken,
            };
        }
        let slot = (self.taken % self.capacity) as usize;
        mem::swap(block, self.seat.slot_mut(words, slot));
        words.store::<Take>(&mut self.seat, TAKEN, self.taken + 1);
        self.taken += 1;
        Got::Block
    }

    /// Whether a get would answer `Empty` now: all that was sent is taken, and the end mark does not stand.
    ///
    /// It loads the number sent with the end mark once, and notes nothing.
    pub fn is_empty(&mut self) -> bool
        ensures none { result ≡ true → self.old.least ≤ length self.old.got }
        ensures going { result ≡ true → (self.old.told ≡ false) × (self.old.done ≡ false) }
        ensures same { self.new ≡ self.old }
    {
        let words = &self.table.shared;
        let found = words.load::<Peek>(&mut self.seat, SENT);
        found % 2 == 0 && found / 2 == self.taken
    }

    /// How many blocks were taken out of the ring.
    pub fn taken(&self) -> u64
        ensures { result ≡ length self.now.got }
    {
        self.taken
    }
}

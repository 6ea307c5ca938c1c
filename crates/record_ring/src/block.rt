//! A block of samples, as it lies in a ring.
ghost use Rattle.std.specs.Prelude.{◌≡◌, ◌++◌, ◌-◌, ◌≤◌, length, take, replicate, pos, IfOk};

use std::alloc::{AllocError, Global};
use std::marker::Model;

/// A list of samples within the room that it was made with. No call but `Block::new` takes memory.
#[derive(Drop)]
pub struct Samples {
    items: Vec<i32>,
    room: u32,
}

impl Model for Samples {
    ghost use Rattle.std.specs.Prelude.{◌≤◌, ◌<◌, ◌^◌, length, vec_capacity};
    ghost use Rattle.record_ring.specs.Blocks.{SampleList};

    ghost Value = { SampleList };

    ghost view = { λ s. record { items = s.items.items; room = s.room } };

    ghost invariant = { λ s. (length s.items.items ≤ s.room) × (s.room ≤ vec_capacity s.items) × (s.room < 2 ^ 32) };
}

/// What a ring carries: the samples of one period, and the number of the cycle that made them.
#[derive(Drop)]
pub struct Block {
    pub cycle: u32,
    pub samples: Samples,
}

/// A block as contracts see it where its room does not matter. No value of it is made.
pub struct Content {
    block: Block,
}

impl Model for Content {
    ghost use Rattle.driver_words.specs.session_model.specs.Rings.{RingBlock};

    ghost Value = { RingBlock };

    ghost view = { λ c. record { cycle = c.block.cycle; samples = c.block.samples.items } };
}

impl Samples {
    ghost use Rattle.std.specs.Prelude.{◌≡◌, ◌++◌, ◌-◌, ◌≤◌, length, take, replicate, pos};
    ghost use Rattle.std.specs.Borrow.{sem, Lends, Array, i32};
    ghost use Rattle.record_ring.specs.contracts.block.Samples.{the_row};
    ghost use Rattle.record_ring.specs.Blocks.{with_samples};

    /// How many samples there are.
    pub fn len(&self) -> u32
        ensures len { result ≡ length self.now.items }
        ensures room { result ≤ self.now.room }
    {
        self.items.len() as u32
    }

    pub fn as_slice(&self) -> &[i32]
        ensures { result.now ≡ self.now.items }
    {
        self.items.as_slice()
    }

    /// The samples, to be set. Their number stays.
    pub fn as_mut_slice(&mut self) -> &mut [i32]
        ensures* writes_back { sem 𝓛 (Lends the_row (Array i32 0) self.entry result (with_samples self.old)) }
        ensures value { result.now ≡ self.old.items }
    {
        self.items.as_mut_slice()
    }

    /// Sets the samples to so many others.
    pub fn copy_from(&mut self, items: &[i32])
        requires { length items.now ≡ length self.old.items }
        ensures { self.new ≡ record self.old { items = items.now } }
    {
        self.items.as_mut_slice().copy_from_slice(items);
    }

    /// Cuts the list to `len` samples, or fills it up to as many with zeros.
    pub fn set_len(&mut self, len: u32)
        requires { len ≤ self.old.room }
        ensures { self.new ≡ record self.old { items = take len self.old.items ++ replicate (len - length self.old.items) (pos 0) } }
    {
        match self.items.resize(len as usize, 0) {
            Ok(()) => {}
            Err(_) => unreachable!(),
        }
    }
}

impl Block {
    /// A block of so many zeros, with room for as many.
    pub fn new(alloc: Global, samples: u32) -> Result<Block, AllocError>
        ensures { IfOk result (λ b. (b.cycle ≡ 0) × (b.samples.items ≡ replicate samples (pos 0)) × (b.samples.room ≡ samples)) }
    {
        let items = Vec::from_elem(alloc, 0, samples as usize)?;
        let samples = Samples {
            items,
            room: samples,
        };
        Ok(Block { cycle: 0, samples })
    }
}

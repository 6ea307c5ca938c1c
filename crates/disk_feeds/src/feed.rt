//! What a cycle has of one disk.

ghost use Rattle.std.specs.Prelude.{◌≡◌, ◌≤◌};
ghost use Rattle.session_model.specs.Samples.{silence};

use record_ring::{Block, Consumer, Got};
use std::alloc::{AllocError, Global};

/// A disk's block of a period, which its player has in the cycle or has not.
#[derive(Drop)]
pub(crate) struct Feed {
    pub(crate) channels: u16,
    pub(crate) played: u64,
    pub(crate) block: Block,
    pub(crate) is_given: bool,
}

/// Makes a block so many samples of silence.
fn silence_block(block: &mut Block, samples: u32)
    requires { samples ≤ block.old.samples.room }
    ensures room { block.new.samples.room ≡ block.old.samples.room }
    ensures items { block.new.samples.items ≡ silence samples }
{
    block.samples.set_len(0);
    block.samples.set_len(samples);
}

impl Feed {
    ghost use Rattle.std.specs.Prelude.{◌≡◌, ◌*◌, ◌≤◌, ◌^◌, ◌<◌, ℕ, IfOk, false, length};
    ghost use Rattle.session_model.specs.Rings.{RingBlock};
    ghost use Rattle.record_ring.specs.Rings.{Gets};
    ghost use Rattle.disk_feeds.specs.Insides.{FeedsFrom, IsFeed};

    /// A block of a period of so many channels, which nobody has.
    pub(crate) fn new(alloc: Global, channels: u16, period: u32) -> Result<Feed, AllocError>
        requires channels { (1 ≤ channels) × (channels ≤ 8) }
        requires period { period ≤ 4096 }
        ensures { IfOk result (λ feed. IsFeed period feed × (feed.channels ≡ channels) × (feed.played ≡ 0) × (feed.is_given ≡ false)) }
    {
        let block = Block::new(alloc, period * u32::from(channels))?;
        Ok(Feed {
            channels,
            played: 0,
            block,
            is_given: false,
        })
    }

    /// The player has no block.
    pub(crate) fn rest(&mut self)
        ensures { self.new ≡ record self.old { is_given = false } }
    {
        self.is_given = false;
    }

    /// The player has the next block of a ring, zeros where the ring ended, or none where it is empty.
    pub(crate) fn get(&mut self, ring: &mut Consumer) -> Got
        requires room { self.old.block.samples.room ≡ ring.old.samples }
        requires whole { length self.old.block.samples.items ≡ self.old.block.samples.room }
        ensures gets { (one : RingBlock) × (found : ℕ) × Gets ring.old ring.new one found result }
        ensures feeds { FeedsFrom self.old self.new ring.old ring.new }
        ensures few { length ring.new.got < 2 ^ 63 }
    {
        let samples = self.block.samples.len();
        let got = ring.get(&mut self.block);
        match got {
            Got::Block => {
                self.block.samples.set_len(samples);
                self.played = self.played.saturating_add(1);
                self.is_given = true;
            }
            Got::Ended => {
                silence_block(&mut self.block, samples);
                self.is_given = true;
            }
            Got::Empty { .. } => self.is_given = false,
        }
        got
    }
}

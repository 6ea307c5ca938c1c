//! How a cycle's block goes into its ring.

ghost use Rattle.std.specs.Prelude.{◌≡◌, ℕ, ◌+◌, ◌<◌, ◌≤◌, ◌^◌, false, IfNone, IfSome, length};
ghost use Rattle.driver_words.specs.Rings.{IsFull, Puts, items_of};

use crate::rings::RecorderRings;
use jack_types::Overrun;
use record_ring::{Block, Producer};

/// Puts a block, as that of a cycle, into a ring; where the ring is full, the overrun comes back.
fn put_block(ring: &mut Producer, block: &mut Block, recorder: u8, cycle: u32) -> Option<Overrun>
    requires going { ring.old.ended ≡ false }
    requires room { block.old.samples.room ≡ ring.old.samples }
    requires few { length ring.old.put < 2 ^ 62 }
    requires most { items_of ring.old.put + length block.old.samples.items ≤ ring.old.most }
    ensures went { IfNone result ((look : ℕ) × Puts ring.old (record { cycle = cycle; samples = block.old.samples.items }) look ring.new) }
    ensures lacked { IfSome result (λ overrun. IsFull ring.old overrun.taken ring.new × (overrun ≡ record { recorder = recorder; cycle = cycle; sent = length ring.old.put; taken = overrun.taken })) }
    ensures room { block.new.samples.room ≡ block.old.samples.room }
{
    block.cycle = cycle;
    match ring.put(block) {
        Ok(()) => None,
        Err(full) => Some(Overrun {
            recorder,
            cycle,
            sent: full.sent,
            taken: full.taken,
        }),
    }
}

impl RecorderRings {
    ghost use Rattle.std.specs.Prelude.{◌≡◌, ◌+◌, ◌-◌, ◌≤◌, ◌^◌, ◌++◌, All, List, length, min, slice_set, true};
    ghost use Rattle.driver_laws.specs.Cycling.{PutsOne};
    ghost use Rattle.driver_laws.specs.Drivers.{overruns_on};
    ghost use Rattle.jack_types.specs.declared.replies.Overrun.{Overrun as Loss};
    ghost use Rattle.recorder_rings.specs.Sending.{AreCounted, MayPut, block_at, ring_at, sent_at};

    /// Puts the block of a recorder into its ring, as that of a cycle. Where the ring is full, nothing goes
    /// in, and an overrun is added with the counts of this put's look.
    pub fn put(&mut self, recorder: u8, cycle: u32)
        requires { MayPut self.old recorder }
        ensures at { PutsOne cycle recorder true (block_at self.old recorder) (ring_at self.old recorder) (ring_at self.new recorder) (overruns_on self.old.overruns recorder) (overruns_on self.new.overruns recorder) }
        ensures more { (more : List Loss) × (self.new.overruns ≡ self.old.overruns ++ more) × (length more ≤ 1) × All (λ overrun. (overrun.cycle ≡ cycle) × (overrun.recorder ≡ recorder)) more }
        ensures went { length (ring_at self.new recorder).put ≡ length (ring_at self.old recorder).put + 1 → self.new.sent ≡ slice_set self.old.sent recorder (min (sent_at self.old recorder + 1) (2 ^ 64 - 1)) }
        ensures refused { length (ring_at self.new recorder).put ≡ length (ring_at self.old recorder).put → self.new.sent ≡ self.old.sent }
        ensures counted { AreCounted self.old → AreCounted self.new }
        ensures others { self.new ≡ record self.old { rings = slice_set self.old.rings recorder (ring_at self.new recorder); sent = self.new.sent; blocks = slice_set self.old.blocks recorder (block_at self.new recorder); overruns = self.new.overruns } }
    {
        let place = usize::from(recorder);
        match put_block(
            &mut self.rings[place],
            &mut self.blocks[place],
            recorder,
            cycle,
        ) {
            None => self.sent[place] = self.sent[place].saturating_add(1),
            Some(overrun) => self.overruns.push_reserved(overrun),
        }
    }
}

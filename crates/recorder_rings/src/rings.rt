//! The rings of a session's recorders.

use jack_types::Overrun;
use record_ring::{Block, Consumer, Producer};
use std::marker::Model;

/// The rings of a session's recorders, with the blocks that are put next.
///
/// Contracts see a `Sent`. Recorders are counted from 0. No call but `new` takes memory.
#[derive(Drop)]
pub struct RecorderRings {
    pub(crate) rings: Vec<Producer>,
    pub(crate) out: Vec<Option<Consumer>>,
    pub(crate) channels: Vec<u16>,
    pub(crate) sent: Vec<u64>,
    pub(crate) blocks: Vec<Block>,
    pub(crate) overruns: Vec<Overrun>,
    pub(crate) room: u32,
}

impl Model for RecorderRings {
    ghost use Rattle.std.specs.Prelude.{vec_capacity};
    ghost use Rattle.recorder_rings.specs.Sending.{Sent};
    ghost use Rattle.recorder_rings.specs.Insides.{sent_of, IsSound};

    ghost Value = { Sent };

    ghost view = { λ r. sent_of r.rings.items r.out.items r.channels.items r.sent.items r.blocks.items r.overruns.items r.room (vec_capacity r.overruns) };

    ghost invariant = { λ r. IsSound r.rings.items r.out.items r.channels.items r.sent.items r.blocks.items r.room };
}

impl RecorderRings {
    ghost use Rattle.std.specs.Prelude.{◌≡◌, ◌<◌, None, length, slice_index, slice_set};
    ghost use Rattle.std.specs.Borrow.{sem, Lends};
    ghost use Rattle.record_ring.specs.contracts.producer.Producer.{the_row as the_producer};
    ghost use Rattle.recorder_rings.specs.contracts.rings.RecorderRings.{the_row};
    ghost use Rattle.recorder_rings.specs.Sending.{consumer_at, ring_at};

    /// How many recorders there are.
    pub fn len(&self) -> usize
        ensures { result ≡ length self.now.rings }
    {
        self.rings.len()
    }

    /// How many channels a recorder's blocks have.
    pub fn channels(&self, recorder: u8) -> u16
        requires { recorder < length self.now.rings }
        ensures { result ≡ slice_index self.now.channels recorder }
    {
        self.channels[usize::from(recorder)]
    }

    /// How many blocks `put` put into a recorder's ring.
    pub fn sent(&self, recorder: u8) -> u64
        requires { recorder < length self.now.rings }
        ensures { result ≡ slice_index self.now.sent recorder }
    {
        self.sent[usize::from(recorder)]
    }

    /// The overruns of all recorders, in the order in which they came.
    pub fn overruns(&self) -> &[Overrun]
        ensures { result.now ≡ self.now.overruns }
    {
        self.overruns.as_slice()
    }

    /// The end of a recorder's ring that puts, to end it or to meet the other end.
    pub fn producer(&mut self, recorder: u8) -> &mut Producer
        requires { recorder < length self.old.rings }
        ensures* writes_back { sem 𝓛 (Lends the_row the_producer self.entry result (λ ring. record self.old { rings = slice_set self.old.rings recorder ring })) }
        ensures value { result.now ≡ ring_at self.old recorder }
    {
        &mut self.rings[recorder as usize]
    }

    /// Hands the other end of a recorder's ring out, None exactly where it is out.
    pub fn consumer(&mut self, recorder: u8) -> Option<Consumer>
        requires { recorder < length self.old.rings }
        ensures end { result ≡ consumer_at self.old recorder }
        ensures after { self.new ≡ record self.old { out = slice_set self.old.out recorder None } }
    {
        self.out[usize::from(recorder)].take()
    }
}

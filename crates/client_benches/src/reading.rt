//! What a driver reads from a client's bench.

ghost use Rattle.std.specs.Prelude.{◌≡◌, ◌*◌, ◌≤◌, [], length, slice_index_or};
ghost use Rattle.client_kinds.specs.Buffers.{buffers_of};

use crate::benches::ClientBench;
use activation::jack_types::Kind;
use client_kinds::Guest;

/// The buffer at a place among so many planar ones, nothing past the last one.
#[tactic(auto, using(crate::proofs::SliceLemmas::buffer_there, crate::proofs::SliceLemmas::buffer_none, crate::proofs::SliceLemmas::buffer_fits))]
pub(crate) fn buffer(samples: &[i32], count: u16, period: u32, place: usize) -> &[i32]
    requires { count * period ≤ length samples.now }
    ensures { result.now ≡ slice_index_or (buffers_of count period samples.now) place [] }
{
    if place < usize::from(count) {
        let first = place * period as usize;
        &samples[first..first + period as usize]
    } else {
        &[]
    }
}

impl<G: Guest> ClientBench<G> {
    ghost use Rattle.std.specs.Prelude.{◌≡◌, [], None, is_none, is_some, slice_index_or};

    /// Whether it has no task.
    pub fn is_idle(&self) -> bool
        ensures { result ≡ is_none self.now.kept.turn }
    {
        self.parts.turn.is_none()
    }

    /// The client's kind.
    pub fn kind(&self) -> Kind
        ensures { result ≡ self.now.kept.standing.kind }
    {
        self.parts.bench.kind()
    }

    /// Whether a guest is lent to it.
    pub fn has_guest(&self) -> bool
        ensures { result ≡ is_some self.now.kept.standing.score }
    {
        self.parts.bench.has_guest()
    }

    /// How much more work its turn is than that of a client that copies samples, as its guest tells it. It is
    /// 0 where it has no turn or no guest.
    pub fn extra_work(&self) -> u32
        ensures none { self.now.kept.standing.score ≡ None → result ≡ 0 }
    {
        match &self.parts.turn {
            Some(turn) => {
                let work = self.parts.bench.work(turn.ports);
                work.saturating_sub(turn.ports.period)
            }
            None => 0,
        }
    }

    /// A meter's peak, the greatest magnitude of its inputs so far.
    pub fn peak(&self) -> u32
        ensures { result ≡ self.now.kept.standing.memory.peak }
    {
        self.parts.bench.peak()
    }

    /// What an input got when it was last played, nothing where there was no such input.
    pub fn sound(&self, input: usize) -> &[i32]
        ensures { result.now ≡ slice_index_or self.now.kept.sounds input [] }
    {
        buffer(
            self.parts.input.as_slice(),
            self.parts.played.inputs,
            self.parts.played.period,
            input,
        )
    }

    /// What an output gave when it was last played, nothing where there was no such output.
    pub fn output(&self, output: usize) -> &[i32]
        ensures { result.now ≡ slice_index_or self.now.kept.audio output [] }
    {
        buffer(
            self.parts.output.as_slice(),
            self.parts.played.outputs,
            self.parts.played.period,
            output,
        )
    }
}

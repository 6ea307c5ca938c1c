//! What is read of a stage between two cycles.

use crate::stage::Stage;
use bench_rack::Rack;
use client_kinds::Guest;
use client_seats::peak;
use client_wiring::Heard;

impl<G: Guest> Stage<G> {
    ghost use Rattle.std.specs.Prelude.{◌≡◌, ◌≤◌, length};
    ghost use Rattle.std.specs.Option.{option_map_or};
    ghost use Rattle.client_seats.specs.Seatings.{memory_of};
    ghost use Rattle.stage_laws.specs.Standing.{StandsOn};

    /// Whether each client of the plan that was played last has a bench.
    pub fn is_staffed(&self) -> bool
        ensures value { result ≡ self.now.staged.is_staffed }
        ensures stands { StandsOn self.now.staged self.now.plan }
    {
        self.parts.is_staffed
    }

    /// All benches, those of the last plan's nodes first, by their nodes.
    pub fn rack(&self) -> &Rack<G>
        ensures { result.now ≡ self.now.staged.racked }
    {
        &self.parts.rack
    }

    /// The connections into playback ports, in the order of making: at most 512.
    pub fn heard(&self) -> &[Heard]
        ensures heard { result.now ≡ self.now.staged.wiring.heard }
        ensures few { length result.now ≤ 512 }
    {
        self.parts.wiring.heard()
    }

    /// The peak of the meter of this birth, the greatest magnitude of its inputs so far, 0 where no client of this birth ever
    /// played.
    pub fn peak(&self, birth: u32) -> u32
        ensures { result ≡ option_map_or (λ memory. memory.peak) (memory_of self.now.staged.racked self.now.staged.owned birth) 0 }
    {
        peak(&self.parts.rack, &self.parts.owners, birth)
    }
}

//! What a cycle plays back.

use crate::works::Works;
use client_kinds::Guest;
use jack_host::Source;
use playback_mix::Playback;

impl<S: Source, G: Guest> Works<S, G> {
    ghost use Rattle.std.specs.Prelude.{◌≡◌, ◌≤◌, true};
    ghost use Rattle.cycle_works.specs.Gears.{mixed};

    /// Mixes the block that the last cycle plays back: as many frames as the period that is set, a sample of each channel in
    /// each.
    pub fn mix(&self, playback: &mut Playback)
        requires { self.now.set ≤ playback.old.room }
        ensures block { playback.new.block ≡ mixed self.now playback.old.channels }
        ensures room { (playback.new.channels ≡ playback.old.channels) × (playback.new.room ≡ playback.old.room) }
    {
        let parts = &self.parts;
        playback.mix(
            parts.stage.rack().benches(),
            parts.stage.heard(),
            &parts.capture,
            parts.set,
        );
    }

    /// Marks the last cycle as failed, as where its block could not be written. After it no cycle may be run.
    pub fn fail(&mut self)
        ensures { self.new ≡ record self.old { failed = true } }
    {
        self.failed = true;
    }
}

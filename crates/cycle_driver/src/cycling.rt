//! A cycle.

ghost use Rattle.std.specs.Prelude.{◌≡◌, IfOk, IsErrOf};
ghost use Rattle.cycle_driver.specs.declared.faults.CycleFault.{CycleFault as Fault};

use crate::driver::Driver;
use crate::faults::CycleFault;
use crate::writing::play_back;
use client_kinds::Guest;
use cycle_works::driver_laws::cycling::steps_that_play_are_a_cycle;
use cycle_works::script_needs::limits::samples_are_few;
use cycle_works::{
    a_cycle_is_a_step, a_cycle_may_be_played, a_cycle_plays_its_own, a_mix_is_played,
};
use jack_host::{Gate, Source, Store};
use std::thread::Threads;

impl<S: Source, W: Store, G: Guest + Send> Driver<S, W, G> {
    ghost use Rattle.std.specs.Prelude.{◌≡◌, IfOk, IsErrOf, Some};
    ghost use Rattle.jack_host.specs.Causes.{Rose};
    ghost use Rattle.wave_pcm.specs.Readings.{SameReading};
    ghost use Rattle.driver_words.specs.Tapes.{SameFile, Tape};
    ghost use Rattle.driver_laws.specs.Cycling.{CyclesOnce, FailsAtRead, FailsAtWrite, MayCycle};
    ghost use Rattle.cycle_works.specs.Gears.{driver_of};

    /// Runs the next cycle of the script: takes the newest plan and begins, steps the transport, captures, lets the clients of
    /// the plan play, puts the blocks of the recorders, and plays back. A freewheel cycle hears silence and plays nothing back.
    ///
    /// A fault is answered only where the count of its file's faults rose. After it no cycle may be run. It takes no memory. With one seat no thread is started.
    pub fn cycle<T: Threads + Sync, K: Gate>(
        &mut self,
        threads: &T,
        gate: &K,
        freewheel: bool,
    ) -> Result<(), CycleFault>
        requires { MayCycle (driver_of G.sound self.old) freewheel }
        ensures ok { IfOk result (λ _. CyclesOnce (driver_of G.sound self.old) (driver_of G.sound self.new)) }
        ensures read { IsErrOf result CycleFault.Read → FailsAtRead (driver_of G.sound self.old) (driver_of G.sound self.new) }
        ensures write { IsErrOf result CycleFault.Write → FailsAtWrite (driver_of G.sound self.old) (driver_of G.sound self.new) }
        ensures read_cause { IsErrOf result CycleFault.Read → Rose self.old.capture.reading.faults self.new.capture.reading.faults }
        ensures write_cause { IsErrOf result CycleFault.Write → (file : Tape) × (after : Tape) × (self.old.playback ≡ Some file) × (self.new.playback ≡ Some after) × SameFile file after × Rose file.faults after.faults }
        ensures capture { SameReading self.old.capture.reading self.new.capture.reading }
    {
        a_cycle_may_be_played();
        a_cycle_is_a_step();
        a_cycle_plays_its_own();
        a_mix_is_played();
        steps_that_play_are_a_cycle();
        samples_are_few();
        if self.works.turn(threads, gate, freewheel).is_err() {
            return Err(CycleFault::Read);
        }
        if freewheel {
            return Ok(());
        }
        let Some(file) = &mut self.playback else {
            return Ok(());
        };
        if play_back(&self.works, &mut self.mix, file).is_err() {
            self.works.fail();
            return Err(CycleFault::Write);
        }
        Ok(())
    }
}

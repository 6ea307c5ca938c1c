//! Many cycles, one after another.

ghost use Rattle.std.specs.Prelude.{◌≡◌, IsErrOf, OnOk, Some, length};
ghost use Rattle.jack_host.specs.Causes.{Rose};
ghost use Rattle.wave_pcm.specs.Readings.{SameReading};
ghost use Rattle.driver_words.specs.Tapes.{Tape};
ghost use Rattle.cycle_driver.specs.declared.faults.CycleFault.{CycleFault as Fault};
ghost use Rattle.cycle_driver.specs.Gears.{driver_of};
ghost use Rattle.driver_laws.specs.Cycling.{CyclesMany, FailsAtRead};
ghost use Rattle.cycle_driver.specs.Runs.{AreNext, BreaksAtWrite, IsGoing, RunsInto, StaysInRun};

use crate::giving::give_way;
use crate::{CycleFault, Driver};
use client_kinds::Guest;
use jack_host::{Gate, Source, Store};
use std::thread::Threads;

/// Runs so many cycles, one after another, until one fails. Before each it calls the gate, with the cycle's number.
///
/// Where a recorder's ring is full before a cycle, or a disk's ring is empty before its file's end, it gives way for a bounded time,
/// so that the file may go on. It waits for nobody, and takes no memory.
pub fn run_cycles<S: Source, W: Store, G: Guest + Send, T: Threads + Sync, K: Gate>(
    driver: &mut Driver<S, W, G>,
    threads: &T,
    gate: &K,
    recorders: u8,
    disks: u8,
    cycles: u32,
    freewheel: bool,
) -> Result<(), CycleFault>
    requires many { length driver.old.rings.rings ≡ recorders }
    requires many_disks { length driver.old.disks.disks ≡ disks }
    requires next { AreNext cycles freewheel (driver_of G.sound driver.old) }
    requires going { IsGoing (driver_of G.sound driver.old) }
    ensures ok { OnOk result (CyclesMany cycles (driver_of G.sound driver.old) (driver_of G.sound driver.new)) }
    ensures going { OnOk result (IsGoing (driver_of G.sound driver.new)) }
    ensures read { IsErrOf result CycleFault.Read → RunsInto FailsAtRead cycles (driver_of G.sound driver.old) (driver_of G.sound driver.new) }
    ensures write { IsErrOf result CycleFault.Write → RunsInto BreaksAtWrite cycles (driver_of G.sound driver.old) (driver_of G.sound driver.new) }
    ensures read_cause { IsErrOf result CycleFault.Read → Rose driver.old.capture.reading.faults driver.new.capture.reading.faults }
    ensures write_cause { IsErrOf result CycleFault.Write → (tape after : Tape) → driver.old.playback ≡ Some tape → driver.new.playback ≡ Some after → Rose tape.faults after.faults }
    ensures stays { StaysInRun (driver_of G.sound driver.old) (driver_of G.sound driver.new) }
    ensures capture { SameReading driver.old.capture.reading driver.new.capture.reading }
{
    let mut rest = 0;
    for cycle in 0..cycles {
        rest = give_way(driver, recorders, disks, rest);
        let number = u32::try_from(driver.numbers().len()).unwrap_or(u32::MAX);
        gate.before_cycle(number.saturating_add(1));
        match driver.cycle(threads, gate, freewheel) {
            Ok(()) => {}
            Err(fault) => return Err(fault),
        }
    }
    Ok(())
}

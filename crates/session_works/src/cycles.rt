//! A cycle of a session, with what leaves the recorders' rings and what goes into those of the disks around it.

ghost use Rattle.std.specs.Prelude.{◌≡◌, ◌+◌, ◌<◌, IsErrOf, List, OnErr, OnOk, Some, length, true};
ghost use Rattle.jack_host.specs.Causes.{Rose};
ghost use Rattle.session_model.specs.Scripts.{turns};
ghost use Rattle.control_desk.specs.Desks.{Desk as DeskValue};
ghost use Rattle.driver_laws.specs.Cycling.{CyclesOnce, FailsAtRead, FailsAtWrite, MayCycle};
ghost use Rattle.driver_laws.specs.Drivers.{run, turn_of};
ghost use Rattle.recorder_files.specs.Recorders.{Recording};
ghost use Rattle.run_laws.specs.Sessions.{Playing};
ghost use Rattle.wave_pcm.specs.Readings.{SameReading};
ghost use Rattle.driver_words.specs.Tapes.{SameFile, Tape};
ghost use Rattle.cycle_driver.specs.Gears.{driver_of};
ghost use Rattle.cycle_driver.specs.Runs.{KeepsRings};
ghost use Rattle.serial_laws.specs.Faults.{BreakUp};
ghost use Rattle.serial_laws.specs.Steps.{Emptied, GiveUp, IsSettled, IsSound};
ghost use Rattle.session_works.specs.DiskSteps.{BesideAny, SeenBesideAny, SomeRose};
ghost use Rattle.session_works.specs.Insides.{AreAble, ArePaired, AreSettled, Aside, DisksPaired, IsWritten, Stays, StaysOpen, beside, parts_with, seen_with};
ghost use Rattle.session_works.specs.Parts.{OneRose, SourceRose, stores_in};
ghost use Rattle.session_works.specs.Turnings.{Fails, Goes, PlayFails, Plays};
ghost use Rattle.session_works.specs.declared.faults.SessionFault.{SessionFault as Fault};

use crate::faults::SessionFault;
use crate::giving::give_up;
use crate::laws::cycles_and_blocks;
use crate::limits::RingLimits;
use crate::reading::{read_ahead, tell_all};
use client_kinds::Guest;
use cycle_driver::{CycleFault, Driver};
use disk_runs::disk_files::DiskReader;
use jack_host::{Gate, Source, Store};
use recorder_files::Recorder;
use std::thread::Threads;

/// Runs the next cycle, with what leaves the recorders' rings and what goes into those of the disks around it. Before a
/// freewheel cycle the recorders' rings are emptied and those of the disks filled, and behind it the recorders' are emptied
/// again. Before a `run` cycle at most `fill` blocks go into each disk's ring, and behind it at most `drain` leave each
/// recorder's. The gate is called before the cycle.
pub fn cycle<S: Source, W: Store, G: Guest + Send, T: Threads + Sync, K: Gate>(
    driver: &mut Driver<S, W, G>,
    recorders: &mut Vec<Recorder<W>>,
    readers: &mut Vec<DiskReader<S>>,
    threads: &T,
    gate: &K,
    freewheel: bool,
    limits: RingLimits,
) -> Result<(), SessionFault>
    requires settled { AreSettled G.sound driver.old recorders.old.items readers.old.items }
    requires left { run (driver_of G.sound driver.old) < length (turns driver.old.script) }
    requires kind { (turn_of driver.old.script (run (driver_of G.sound driver.old) + 1)).is_freewheel ≡ freewheel }
    requires period { (turn_of driver.old.script (run (driver_of G.sound driver.old) + 1)).period ≡ driver.old.set }
    requires ring { limits.ring ≡ driver.old.script.header.ring }
    requires drain { limits.drain ≡ driver.old.script.header.drain }
    requires fill { limits.fill ≡ driver.old.script.header.fill }
    ensures goes { (desk : DeskValue) → IsSettled (seen_with G.sound (beside desk readers.old.items) driver.old recorders.old.items) → OnOk result (Goes freewheel (seen_with G.sound (beside desk readers.old.items) driver.old recorders.old.items) (seen_with G.sound (beside desk readers.new.items) driver.new recorders.new.items)) }
    ensures fails { (desk : DeskValue) → IsSettled (seen_with G.sound (beside desk readers.old.items) driver.old recorders.old.items) → OnErr result (Fails freewheel (seen_with G.sound (beside desk readers.old.items) driver.old recorders.old.items) (seen_with G.sound (beside desk readers.new.items) driver.new recorders.new.items)) }
    ensures stays { (desk : DeskValue) → Stays G.sound (parts_with (beside desk readers.old.items) driver.old recorders.old.items) (parts_with (beside desk readers.new.items) driver.new recorders.new.items) }
    ensures set { driver.new.set ≡ driver.old.set }
    ensures table { driver.new.reading.table ≡ driver.old.reading.table }
    ensures pairs { ArePaired driver.old recorders.old.items → ArePaired driver.new recorders.new.items }
    ensures disks { DisksPaired driver.new readers.new.items }
    ensures read { (desk : DeskValue) → IsErrOf result SessionFault.Read → SourceRose (parts_with (beside desk readers.old.items) driver.old recorders.old.items) (parts_with (beside desk readers.new.items) driver.new recorders.new.items) }
    ensures write { (desk : DeskValue) → IsErrOf result SessionFault.Write → OneRose (stores_in (parts_with (beside desk readers.old.items) driver.old recorders.old.items)) (stores_in (parts_with (beside desk readers.new.items) driver.new recorders.new.items)) }
{
    cycles_and_blocks();
    empty(driver, recorders, freewheel, limits.ring)?;
    play(
        driver,
        readers,
        threads,
        gate,
        freewheel,
        limits.most_filled(freewheel),
    )?;
    drain(driver, recorders, limits.most(freewheel))
}

/// Empties the rings before a freewheel cycle.
fn empty<S: Source, W: Store, G: Guest>(
    driver: &mut Driver<S, W, G>,
    recorders: &mut Vec<Recorder<W>>,
    freewheel: bool,
    ring: u32,
) -> Result<(), SessionFault>
    requires able { AreAble G.sound driver.old recorders.old.items }
    requires ring { ring ≡ driver.old.script.header.ring }
    ensures emptied { (aside : Aside) → IsSound (seen_with G.sound aside driver.old recorders.old.items) → OnOk result (Emptied freewheel (seen_with G.sound aside driver.old recorders.old.items) (seen_with G.sound aside driver.new recorders.new.items)) }
    ensures broken { (aside : Aside) → IsSound (seen_with G.sound aside driver.old recorders.old.items) → OnErr result ((freewheel ≡ true) × BreakUp driver.old.script.header.ring (seen_with G.sound aside driver.old recorders.old.items) (seen_with G.sound aside driver.new recorders.new.items)) }
    ensures stays { (aside : Aside) → Stays G.sound (parts_with aside driver.old recorders.old.items) (parts_with aside driver.new recorders.new.items) }
    ensures driver { driver.new ≡ record driver.old { rings = driver.new.rings } }
    ensures pairs { ArePaired driver.old recorders.old.items → ArePaired driver.new recorders.new.items }
    ensures read { IsErrOf result SessionFault.Read → ⊥ }
    ensures write { (aside : Aside) → IsErrOf result SessionFault.Write → OneRose (stores_in (parts_with aside driver.old recorders.old.items)) (stores_in (parts_with aside driver.new recorders.new.items)) }
{
    if freewheel {
        drain(driver, recorders, ring)
    } else {
        Ok(())
    }
}

/// Writes blocks of each recorder's ring into its file, at most so many.
fn drain<S: Source, W: Store, G: Guest>(
    driver: &mut Driver<S, W, G>,
    recorders: &mut Vec<Recorder<W>>,
    most: u32,
) -> Result<(), SessionFault>
    requires able { AreAble G.sound driver.old recorders.old.items }
    ensures given { (aside : Aside) → IsSound (seen_with G.sound aside driver.old recorders.old.items) → OnOk result (GiveUp most (seen_with G.sound aside driver.old recorders.old.items) (seen_with G.sound aside driver.new recorders.new.items)) }
    ensures broken { (aside : Aside) → IsSound (seen_with G.sound aside driver.old recorders.old.items) → OnErr result (BreakUp most (seen_with G.sound aside driver.old recorders.old.items) (seen_with G.sound aside driver.new recorders.new.items)) }
    ensures stays { (aside : Aside) → Stays G.sound (parts_with aside driver.old recorders.old.items) (parts_with aside driver.new recorders.new.items) }
    ensures driver { driver.new ≡ record driver.old { rings = driver.new.rings } }
    ensures pairs { ArePaired driver.old recorders.old.items → ArePaired driver.new recorders.new.items }
    ensures read { IsErrOf result SessionFault.Read → ⊥ }
    ensures write { (aside : Aside) → IsErrOf result SessionFault.Write → OneRose (stores_in (parts_with aside driver.old recorders.old.items)) (stores_in (parts_with aside driver.new recorders.new.items)) }
{
    match give_up(driver, recorders, most) {
        Ok(()) => Ok(()),
        Err(_) => Err(SessionFault::Write),
    }
}

/// Runs the next cycle of the driver. Before it the disks' readers put at most so many blocks each, and behind it the ends of
/// their rings meet, also where it failed.
fn play<S: Source, W: Store, G: Guest + Send, T: Threads + Sync, K: Gate>(
    driver: &mut Driver<S, W, G>,
    readers: &mut Vec<DiskReader<S>>,
    threads: &T,
    gate: &K,
    freewheel: bool,
    most: u32,
) -> Result<(), SessionFault>
    requires settled { (recorders : List Recording) × AreSettled G.sound driver.old recorders readers.old.items }
    requires left { run (driver_of G.sound driver.old) < length (turns driver.old.script) }
    requires kind { (turn_of driver.old.script (run (driver_of G.sound driver.old) + 1)).is_freewheel ≡ freewheel }
    requires period { (turn_of driver.old.script (run (driver_of G.sound driver.old) + 1)).period ≡ driver.old.set }
    ensures plays { OnOk result (SeenBesideAny G.sound (Plays most) driver.old readers.old.items driver.new readers.new.items) }
    ensures fails { OnErr result (SeenBesideAny G.sound (PlayFails most) driver.old readers.old.items driver.new readers.new.items) }
    ensures stays { BesideAny (StaysOpen G.sound) driver.old readers.old.items driver.new readers.new.items }
    ensures set { driver.new.set ≡ driver.old.set }
    ensures table { driver.new.reading.table ≡ driver.old.reading.table }
    ensures rings { KeepsRings (driver_of G.sound driver.old) (driver_of G.sound driver.new) }
    ensures disks { DisksPaired driver.new readers.new.items }
    ensures read { IsErrOf result SessionFault.Read → SomeRose driver.old readers.old.items driver.new readers.new.items }
    ensures write { IsErrOf result SessionFault.Write → IsWritten driver.old.playback driver.new.playback }
{
    cycles_and_blocks();
    if let Err(_) = read_ahead(driver, readers, most) {
        return Err(SessionFault::Read);
    }
    let stepped = step(driver, threads, gate, freewheel);
    tell_all(driver, readers);
    stepped
}

/// Runs the next cycle of the driver.
fn step<S: Source, W: Store, G: Guest + Send, T: Threads + Sync, K: Gate>(
    driver: &mut Driver<S, W, G>,
    threads: &T,
    gate: &K,
    freewheel: bool,
) -> Result<(), SessionFault>
    requires may { MayCycle (driver_of G.sound driver.old) freewheel }
    ensures cycled { OnOk result (CyclesOnce (driver_of G.sound driver.old) (driver_of G.sound driver.new)) }
    ensures at_read { IsErrOf result SessionFault.Read → FailsAtRead (driver_of G.sound driver.old) (driver_of G.sound driver.new) }
    ensures at_write { IsErrOf result SessionFault.Write → FailsAtWrite (driver_of G.sound driver.old) (driver_of G.sound driver.new) }
    ensures read { IsErrOf result SessionFault.Read → Rose driver.old.capture.reading.faults driver.new.capture.reading.faults }
    ensures write { IsErrOf result SessionFault.Write → IsWritten driver.old.playback driver.new.playback }
    ensures capture { SameReading driver.old.capture.reading driver.new.capture.reading }
    ensures script { driver.new.script ≡ driver.old.script }
    ensures set { driver.new.set ≡ driver.old.set }
    ensures table { driver.new.reading.table ≡ driver.old.reading.table }
    ensures rings { KeepsRings (driver_of G.sound driver.old) (driver_of G.sound driver.new) }
    ensures disks { (players : List Playing) → DisksPaired driver.old players → DisksPaired driver.new players }
{
    let number = u32::try_from(driver.numbers().len()).unwrap_or(u32::MAX);
    gate.before_cycle(number.saturating_add(1));
    match driver.cycle(threads, gate, freewheel) {
        Ok(()) => Ok(()),
        Err(CycleFault::Read) => Err(SessionFault::Read),
        Err(CycleFault::Write) => Err(SessionFault::Write),
    }
}

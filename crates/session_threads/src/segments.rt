//! A segment of a session in threads mode: the desk lies in the turn meanwhile.

ghost use Rattle.std.specs.Prelude.{◌≡◌, ◌<◌, ◌≤◌, ◌⊎◌, ℕ, All, IsErrOf, IsOk, OnErr, OnOk, false, true};
ghost use Rattle.session_works.specs.DeskWords.{IsDone};
ghost use Rattle.session_works.specs.Cycles.{CycleFault as DriverFault, AreNext};
ghost use Rattle.session_works.specs.Drivers.{driver_of};
ghost use Rattle.session_works.specs.SerialWords.{IsSettled, IsSound};
ghost use Rattle.session_works.specs.Insides.{ArePaired, DisksPaired, Stays, held, parts_of, seen};
ghost use Rattle.session_works.specs.Parts.{HasOpenFiles, OneRose, SourceRose};
ghost use Rattle.session_works.specs.disk_files.specs.Serving.{HaveFailed as HaveBroken, IsGoing as IsReading};
ghost use Rattle.session_threads.specs.Phases.{Bound, BoundFails, HaveMade, SegmentFails, Segmented};
ghost use Rattle.session_threads.specs.Serving.{HaveFailed, IsUntorn};
ghost use Rattle.session_works.specs.declared.faults.SessionFault.{SessionFault as Fault};

use crate::joins::{run_beside, wheel_beside};
use crate::lanes::Lanes;
use crate::rig::{Deck, Rig};
use crate::serving::has_failed;
use client_kinds::Guest;
use desk_turn::calls_made;
use desk_turn::laws::behind_the_lanes;
use jack_host::{Gate, Source, Store};
use recorder_files::Recorder;
use script_segments::Segment;
use session_works::disk_files::{DiskReader, has_failed as has_broken};
use session_works::laws::cycles_and_blocks;
use session_works::passed::goes_on;
use session_works::{CycleFault, RingLimits, SessionFault, SessionWorks, read_ahead};
use std::sync::Wait;
use std::sync::atomic::AtomicBool;
use std::thread::Threads;

/// Runs the cycles of a segment with the lanes beside them, and with recorders and readers where it is bound to the device.
/// Behind cycles that went well the lanes made all their calls. Where there are no cycles, nothing is begun.
pub(crate) fn run_segment<
    S: Source + Send,
    W: Store + Send,
    G: Guest + Send,
    T: Threads + Sync,
    R: Wait + Sync,
    K: Gate,
>(
    rig: Rig<S, W, G>,
    threads: &T,
    wait: &R,
    gate: &K,
    segment: Segment,
    limits: RingLimits,
) -> (Rig<S, W, G>, Result<(), SessionFault>)
    requires settled { IsSettled (seen G.sound rig.works) }
    requires files { HasOpenFiles (parts_of rig.works) }
    requires begun { (1 ≤ rig.works.desk.phase) × IsDone rig.works.desk 0 }
    requires next { 0 < segment.cycles → AreNext segment.cycles segment.is_freewheel (driver_of G.sound rig.works.driver) }
    requires ring { limits.ring ≡ rig.works.driver.script.header.ring }
    requires drain { limits.drain ≡ rig.works.driver.script.header.drain }
    requires fill { limits.fill ≡ rig.works.driver.script.header.fill }
    ensures whole { OnOk result.1 (Segmented segment.cycles segment.is_freewheel (seen G.sound rig.works) (seen G.sound result.0.works)) }
    ensures fails { OnErr result.1 ((kept : ℕ) × SegmentFails segment.cycles segment.is_freewheel kept (seen G.sound rig.works) (seen G.sound result.0.works)) }
    ensures stays { Stays G.sound (parts_of rig.works) (parts_of result.0.works) }
    ensures table { result.0.works.desk.publishing.table ≡ result.0.works.driver.reading.table }
    ensures phase { result.0.works.desk.phase ≡ rig.works.desk.phase }
    ensures group { OnOk result.1 (IsDone result.0.works.desk 0) }
    ensures lanes { 0 < segment.cycles → OnOk result.1 (HaveMade result.0.works.desk) }
    ensures pairs { ArePaired result.0.works.driver result.0.works.recorders.items }
    ensures disks { DisksPaired result.0.works.driver result.0.works.readers.items }
    ensures read { IsErrOf result.1 SessionFault.Read → SourceRose (parts_of rig.works) (parts_of result.0.works) }
    ensures write { IsErrOf result.1 SessionFault.Write → OneRose (held rig.works) (held result.0.works) }
{
    if segment.cycles == 0 {
        return (rig, Ok(()));
    }
    let free = segment.is_freewheel;
    if free {
        run_free(rig, threads, wait, gate, segment.cycles, limits)
    } else {
        run_bound(rig, threads, wait, gate, segment.cycles, limits.ring)
    }
}

/// A segment that is bound to the device. The disks' rings are filled before it; where that fails, nothing else is begun.
fn run_bound<
    S: Source + Send,
    W: Store + Send,
    G: Guest + Send,
    T: Threads + Sync,
    R: Wait + Sync,
    K: Gate,
>(
    mut rig: Rig<S, W, G>,
    threads: &T,
    wait: &R,
    gate: &K,
    cycles: u32,
    ring: u32,
) -> (Rig<S, W, G>, Result<(), SessionFault>)
    requires settled { IsSettled (seen G.sound rig.works) }
    requires files { HasOpenFiles (parts_of rig.works) }
    requires begun { (1 ≤ rig.works.desk.phase) × IsDone rig.works.desk 0 }
    requires next { AreNext cycles false (driver_of G.sound rig.works.driver) }
    requires ring { ring ≡ rig.works.driver.script.header.ring }
    ensures whole { OnOk result.1 (Segmented cycles false (seen G.sound rig.works) (seen G.sound result.0.works)) }
    ensures fails { OnErr result.1 ((kept : ℕ) × SegmentFails cycles false kept (seen G.sound rig.works) (seen G.sound result.0.works)) }
    ensures stays { Stays G.sound (parts_of rig.works) (parts_of result.0.works) }
    ensures table { result.0.works.desk.publishing.table ≡ result.0.works.driver.reading.table }
    ensures phase { result.0.works.desk.phase ≡ rig.works.desk.phase }
    ensures group { OnOk result.1 (IsDone result.0.works.desk 0) }
    ensures lanes { OnOk result.1 (HaveMade result.0.works.desk) }
    ensures pairs { ArePaired result.0.works.driver result.0.works.recorders.items }
    ensures disks { DisksPaired result.0.works.driver result.0.works.readers.items }
    ensures read { IsErrOf result.1 SessionFault.Read → SourceRose (parts_of rig.works) (parts_of result.0.works) }
    ensures write { IsErrOf result.1 SessionFault.Write → OneRose (held rig.works) (held result.0.works) }
{
    cycles_and_blocks();
    match read_ahead(&mut rig.works.driver, &mut rig.works.readers, ring) {
        Ok(()) => run_filled(rig, threads, wait, gate, cycles),
        Err(_) => (rig, Err(SessionFault::Read)),
    }
}

/// Its cycles, behind the filling. The driver's fault is answered, else that of a recorder, else that of a reader.
fn run_filled<
    S: Source + Send,
    W: Store + Send,
    G: Guest + Send,
    T: Threads + Sync,
    R: Wait + Sync,
    K: Gate,
>(
    rig: Rig<S, W, G>,
    threads: &T,
    wait: &R,
    gate: &K,
    cycles: u32,
) -> (Rig<S, W, G>, Result<(), SessionFault>)
    requires sound { IsSound (seen G.sound rig.works) }
    requires files { HasOpenFiles (parts_of rig.works) }
    requires begun { (1 ≤ rig.works.desk.phase) × IsDone rig.works.desk 0 }
    requires next { AreNext cycles false (driver_of G.sound rig.works.driver) }
    ensures whole { OnOk result.1 (Bound cycles (seen G.sound rig.works) (seen G.sound result.0.works)) }
    ensures fails { OnErr result.1 ((kept : ℕ) × BoundFails cycles kept (seen G.sound rig.works) (seen G.sound result.0.works)) }
    ensures stays { Stays G.sound (parts_of rig.works) (parts_of result.0.works) }
    ensures table { result.0.works.desk.publishing.table ≡ result.0.works.driver.reading.table }
    ensures phase { result.0.works.desk.phase ≡ rig.works.desk.phase }
    ensures group { OnOk result.1 (IsDone result.0.works.desk 0) }
    ensures lanes { OnOk result.1 (HaveMade result.0.works.desk) }
    ensures pairs { ArePaired result.0.works.driver result.0.works.recorders.items }
    ensures disks { DisksPaired result.0.works.driver result.0.works.readers.items }
    ensures read { IsErrOf result.1 SessionFault.Read → SourceRose (parts_of rig.works) (parts_of result.0.works) }
    ensures write { IsErrOf result.1 SessionFault.Write → OneRose (held rig.works) (held result.0.works) }
{
    let Rig { works, lanes } = rig;
    let SessionWorks {
        desk,
        driver,
        recorders,
        readers,
    } = works;
    goes_on();
    behind_the_lanes();
    let made = calls_made(desk.history());
    let over = AtomicBool::new(false);
    let (turn, passes, caller) = lanes.open(desk);
    let ((passes, (recorders, readers)), (driver, ran, caller)) = run_beside(
        threads, wait, gate, &turn, &over, passes, made, recorders, readers, driver, cycles, caller,
    );
    let (lanes, desk) = Lanes::shut(turn, passes, caller);
    let outcome = outcome_of(ran, &recorders, &readers);
    let works = SessionWorks {
        desk,
        driver,
        recorders,
        readers,
    };
    (Rig { works, lanes }, outcome)
}

// The first fault of a segment: the driver's, else that of a recorder's file, else that of a disk's.
fn outcome_of<S: Source, W: Store>(
    ran: Result<(), CycleFault>,
    recorders: &[Recorder<W>],
    readers: &[DiskReader<S>],
) -> Result<(), SessionFault>
    ensures ok { OnOk result (OnOk ran (All IsUntorn recorders.now × All IsReading readers.now)) }
    ensures whole { OnOk result (IsOk ran) }
    ensures read { IsErrOf result SessionFault.Read → IsErrOf ran CycleFault.Read ⊎ (IsOk ran × HaveBroken readers.now) }
    ensures write { IsErrOf result SessionFault.Write → IsErrOf ran CycleFault.Write ⊎ (IsOk ran × HaveFailed recorders.now) }
{
    match ran {
        Err(CycleFault::Read) => Err(SessionFault::Read),
        Err(CycleFault::Write) => Err(SessionFault::Write),
        Ok(()) => {
            if has_failed(recorders) {
                return Err(SessionFault::Write);
            }
            if has_broken(readers) {
                return Err(SessionFault::Read);
            }
            Ok(())
        }
    }
}

/// A segment that is not bound to the device.
fn run_free<
    S: Source + Send,
    W: Store + Send,
    G: Guest + Send,
    T: Threads + Sync,
    R: Wait + Sync,
    K: Gate,
>(
    rig: Rig<S, W, G>,
    threads: &T,
    wait: &R,
    gate: &K,
    cycles: u32,
    limits: RingLimits,
) -> (Rig<S, W, G>, Result<(), SessionFault>)
    requires settled { IsSettled (seen G.sound rig.works) }
    requires files { HasOpenFiles (parts_of rig.works) }
    requires begun { (1 ≤ rig.works.desk.phase) × IsDone rig.works.desk 0 }
    requires next { AreNext cycles true (driver_of G.sound rig.works.driver) }
    requires ring { limits.ring ≡ rig.works.driver.script.header.ring }
    requires drain { limits.drain ≡ rig.works.driver.script.header.drain }
    requires fill { limits.fill ≡ rig.works.driver.script.header.fill }
    ensures whole { OnOk result.1 (Segmented cycles true (seen G.sound rig.works) (seen G.sound result.0.works)) }
    ensures fails { OnErr result.1 ((kept : ℕ) × SegmentFails cycles true kept (seen G.sound rig.works) (seen G.sound result.0.works)) }
    ensures stays { Stays G.sound (parts_of rig.works) (parts_of result.0.works) }
    ensures table { result.0.works.desk.publishing.table ≡ result.0.works.driver.reading.table }
    ensures phase { result.0.works.desk.phase ≡ rig.works.desk.phase }
    ensures group { OnOk result.1 (IsDone result.0.works.desk 0) }
    ensures lanes { OnOk result.1 (HaveMade result.0.works.desk) }
    ensures pairs { ArePaired result.0.works.driver result.0.works.recorders.items }
    ensures disks { DisksPaired result.0.works.driver result.0.works.readers.items }
    ensures read { IsErrOf result.1 SessionFault.Read → SourceRose (parts_of rig.works) (parts_of result.0.works) }
    ensures write { IsErrOf result.1 SessionFault.Write → OneRose (held rig.works) (held result.0.works) }
{
    let Rig { works, lanes } = rig;
    let SessionWorks {
        desk,
        driver,
        recorders,
        readers,
    } = works;
    goes_on();
    behind_the_lanes();
    let made = calls_made(desk.history());
    let (turn, passes, caller) = lanes.open(desk);
    let deck = Deck {
        driver,
        recorders,
        readers,
    };
    let (passes, (deck, ran, caller)) = wheel_beside(
        threads, wait, gate, &turn, passes, made, deck, cycles, limits, caller,
    );
    let (lanes, desk) = Lanes::shut(turn, passes, caller);
    let Deck {
        driver,
        recorders,
        readers,
    } = deck;
    let works = SessionWorks {
        desk,
        driver,
        recorders,
        readers,
    };
    (Rig { works, lanes }, ran)
}

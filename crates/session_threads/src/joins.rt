//! The threads of a segment.

ghost use Rattle.std.specs.Prelude.{◌≡◌, ◌<◌, All, IsErrOf, OnErr, OnOk, false, length, true};
ghost use Rattle.session_works.specs.Drivers.{Gear, driver_of};
ghost use Rattle.session_works.specs.Cycles.{AreNext, IsGoing};
ghost use Rattle.desk_turn.specs.Lanes.{HaveRun, IsOpen};
ghost use Rattle.session_threads.specs.Calling.{HasKept, IsOfTurn};
ghost use Rattle.session_threads.specs.Driving.{HasDriven, with_ends};
ghost use Rattle.session_works.specs.DeskWords.{Desk as DeskValue};
ghost use Rattle.session_works.specs.SerialWords.{IsSettled};
ghost use Rattle.session_works.specs.Insides.{ArePaired, AreSettled, DisksPaired, Stays, beside, parts_with, seen_with};
ghost use Rattle.session_works.specs.Parts.{OneRose, SourceRose, stores_in};
ghost use Rattle.session_works.specs.disk_files.specs.Serving.{AreRead, IsGoing as IsReading};
ghost use Rattle.session_works.specs.declared.faults.SessionFault.{SessionFault as Fault};
ghost use Rattle.thread_laws.specs.Segments.{WheeledMany};
ghost use Rattle.session_threads.specs.Serving.{AreServed, MayServe};
ghost use Rattle.session_threads.specs.Wheels.{HaveWheeled, WheelBroke};

use crate::rig::Deck;
use crate::serving::serve_all;
use client_kinds::Guest;
use desk_turn::{TurnDesk, run_lanes};
use jack_host::{Gate, Source, Store};
use recorder_files::Recorder;
use session_works::disk_files::{DiskReader, read_all};
use session_works::laws::cycles_and_blocks;
use session_works::{CycleFault, Driver, RingLimits, SessionFault, cycle, end_rings, run_cycles};
use std::sync::Wait;
use std::sync::atomic::{AtomicBool, Ordering};
use std::thread;
use std::thread::Threads;
use turn_word::{Caller, Pass, Turn};

/// The cycles of a `run` segment in this thread, and lanes, recorders and readers beside them. Each side gives back what it
/// had. `over` says that the cycles are over.
///
/// Where no thread can be made the first of the two runs last, so it is the one that waits.
pub(crate) fn run_beside<
    S: Source + Send,
    W: Store + Send,
    G: Guest + Send,
    T: Threads + Sync,
    R: Wait + Sync,
    K: Gate,
>(
    threads: &T,
    wait: &R,
    gate: &K,
    turn: &Turn<TurnDesk>,
    over: &AtomicBool,
    passes: Vec<Pass<TurnDesk>>,
    made: [usize; 4],
    recorders: Vec<Recorder<W>>,
    readers: Vec<DiskReader<S>>,
    driver: Driver<S, W, G>,
    cycles: u32,
    caller: Caller<TurnDesk>,
) -> (
    (Vec<Pass<TurnDesk>>, (Vec<Recorder<W>>, Vec<DiskReader<S>>)),
    (Driver<S, W, G>, Result<(), CycleFault>, Caller<TurnDesk>),
)
    requires four { length passes.items ≡ 4 }
    requires open { All (IsOpen turn.now.table) passes.items }
    requires may { All MayServe recorders.items }
    requires few { length recorders.items < 256 }
    requires reading { All IsReading readers.items }
    requires few_disks { length readers.items < 256 }
    requires many { length driver.rings.rings ≡ length recorders.items }
    requires many_disks { length driver.disks.disks ≡ length readers.items }
    requires next { AreNext cycles false (driver_of G.sound driver) }
    requires going { IsGoing (driver_of G.sound driver) }
    requires caller { IsOfTurn turn.now caller }
    ensures passes { HaveRun passes.items result.0.0.items }
    ensures many { length result.0.1.0.items ≡ length recorders.items }
    ensures served { AreServed recorders.items result.0.1.0.items }
    ensures many_disks { length result.0.1.1.items ≡ length readers.items }
    ensures read { AreRead readers.items result.0.1.1.items }
    ensures driven { (driven : Gear) × HasDriven G.sound cycles driver driven result.1.1 × (result.1.0 ≡ with_ends driven) }
    ensures caller { HasKept caller result.1.2 result.1.1 }
{
    let many = recorders.len() as u8;
    let many_disks = readers.len() as u8;
    thread::join(
        threads,
        move || -> (Vec<Pass<TurnDesk>>, (Vec<Recorder<W>>, Vec<DiskReader<S>>))
            requires { (length passes.items ≡ 4) × All (IsOpen turn.now.table) passes.items × (length recorders.items < 256) × All MayServe recorders.items × (length readers.items < 256) × All IsReading readers.items }
            ensures { HaveRun passes.items result.0.items × (length result.1.0.items ≡ length recorders.items) × AreServed recorders.items result.1.0.items × (length result.1.1.items ≡ length readers.items) × AreRead readers.items result.1.1.items }
        {
            wait_beside(
                threads, wait, gate, turn, over, passes, made, recorders, readers,
            )
        },
        move || -> (Driver<S, W, G>, Result<(), CycleFault>, Caller<TurnDesk>)
            requires { AreNext cycles false (driver_of G.sound driver) × IsGoing (driver_of G.sound driver) × (length driver.rings.rings ≡ many) × (length driver.disks.disks ≡ many_disks) × IsOfTurn turn.now caller }
            ensures { ((driven : Gear) × HasDriven G.sound cycles driver driven result.1 × (result.0 ≡ with_ends driven)) × HasKept caller result.2 result.1 }
        {
            drive(
                threads, gate, driver, cycles, many, many_disks, turn, over, caller,
            )
        },
    )
}

/// Those that wait for the driver, with what they own.
fn wait_beside<S: Source + Send, W: Store + Send, T: Threads + Sync, R: Wait + Sync, K: Gate>(
    threads: &T,
    wait: &R,
    gate: &K,
    turn: &Turn<TurnDesk>,
    over: &AtomicBool,
    passes: Vec<Pass<TurnDesk>>,
    made: [usize; 4],
    recorders: Vec<Recorder<W>>,
    readers: Vec<DiskReader<S>>,
) -> (Vec<Pass<TurnDesk>>, (Vec<Recorder<W>>, Vec<DiskReader<S>>))
    requires four { length passes.items ≡ 4 }
    requires open { All (IsOpen turn.now.table) passes.items }
    requires few { length recorders.items < 256 }
    requires may { All MayServe recorders.items }
    requires few_disks { length readers.items < 256 }
    requires reading { All IsReading readers.items }
    ensures passes { HaveRun passes.items result.0.items }
    ensures many { length result.1.0.items ≡ length recorders.items }
    ensures served { AreServed recorders.items result.1.0.items }
    ensures many_disks { length result.1.1.items ≡ length readers.items }
    ensures read { AreRead readers.items result.1.1.items }
{
    thread::join(
        threads,
        move || -> Vec<Pass<TurnDesk>>
            requires { (length passes.items ≡ 4) × All (IsOpen turn.now.table) passes.items }
            ensures { HaveRun passes.items result.items }
        { wait_alone(threads, wait, gate, turn, passes, made) },
        move || -> (Vec<Recorder<W>>, Vec<DiskReader<S>>)
            requires { (length recorders.items < 256) × All MayServe recorders.items × (length readers.items < 256) × All IsReading readers.items }
            ensures { (length result.0.items ≡ length recorders.items) × AreServed recorders.items result.0.items × (length result.1.items ≡ length readers.items) × AreRead readers.items result.1.items }
        { serve_beside(threads, wait, gate, over, recorders, readers) },
    )
}

/// The recorders and the readers, with what they own.
fn serve_beside<S: Source + Send, W: Store + Send, T: Threads + Sync, R: Wait + Sync, K: Gate>(
    threads: &T,
    wait: &R,
    gate: &K,
    over: &AtomicBool,
    recorders: Vec<Recorder<W>>,
    readers: Vec<DiskReader<S>>,
) -> (Vec<Recorder<W>>, Vec<DiskReader<S>>)
    requires few { length recorders.items < 256 }
    requires may { All MayServe recorders.items }
    requires few_disks { length readers.items < 256 }
    requires reading { All IsReading readers.items }
    ensures many { length result.0.items ≡ length recorders.items }
    ensures served { AreServed recorders.items result.0.items }
    ensures many_disks { length result.1.items ≡ length readers.items }
    ensures read { AreRead readers.items result.1.items }
{
    thread::join(
        threads,
        move || -> Vec<Recorder<W>>
            requires { (length recorders.items < 256) × All MayServe recorders.items }
            ensures { (length result.items ≡ length recorders.items) × AreServed recorders.items result.items }
        { serve_alone(threads, wait, gate, recorders) },
        move || -> Vec<DiskReader<S>>
            requires { (length readers.items < 256) × All IsReading readers.items }
            ensures { (length result.items ≡ length readers.items) × AreRead readers.items result.items }
        { read_alone(threads, wait, gate, over, readers) },
    )
}

/// The recorders, with what they own.
fn serve_alone<W: Store + Send, T: Threads + Sync, R: Wait + Sync, K: Gate>(
    threads: &T,
    wait: &R,
    gate: &K,
    mut recorders: Vec<Recorder<W>>,
) -> Vec<Recorder<W>>
    requires few { length recorders.items < 256 }
    requires may { All MayServe recorders.items }
    ensures many { length result.items ≡ length recorders.items }
    ensures served { AreServed recorders.items result.items }
{
    serve_all(threads, wait, gate, &mut recorders);
    recorders
}

/// The readers, with what they own.
fn read_alone<S: Source + Send, T: Threads + Sync, R: Wait + Sync, K: Gate>(
    threads: &T,
    wait: &R,
    gate: &K,
    over: &AtomicBool,
    mut readers: Vec<DiskReader<S>>,
) -> Vec<DiskReader<S>>
    requires few { length readers.items < 256 }
    requires reading { All IsReading readers.items }
    ensures many { length result.items ≡ length readers.items }
    ensures read { AreRead readers.items result.items }
{
    read_all(threads, wait, gate, &mut readers, over);
    readers
}

/// The driver's cycles. Behind them, however they came out, the recorders' rings end and `over` is set, so that recorders and
/// readers come to an end; where one failed, the work is called off.
fn drive<S: Source, W: Store, G: Guest + Send, T: Threads + Sync, K: Gate>(
    threads: &T,
    gate: &K,
    mut driver: Driver<S, W, G>,
    cycles: u32,
    recorders: u8,
    disks: u8,
    turn: &Turn<TurnDesk>,
    over: &AtomicBool,
    mut caller: Caller<TurnDesk>,
) -> (Driver<S, W, G>, Result<(), CycleFault>, Caller<TurnDesk>)
    requires many { length driver.rings.rings ≡ recorders }
    requires many_disks { length driver.disks.disks ≡ disks }
    requires next { AreNext cycles false (driver_of G.sound driver) }
    requires going { IsGoing (driver_of G.sound driver) }
    requires caller { IsOfTurn turn.now caller }
    ensures driven { (driven : Gear) × HasDriven G.sound cycles driver driven result.1 × (result.0 ≡ with_ends driven) }
    ensures caller { HasKept caller result.2 result.1 }
{
    let ran = run_cycles(&mut driver, threads, gate, recorders, disks, cycles, false);
    end_rings(&mut driver, recorders);
    over.store(true, Ordering::SeqCst);
    tell_lanes(turn, &mut caller, ran.is_err());
    (driver, ran, caller)
}

/// Calls the work off where it failed.
fn tell_lanes(turn: &Turn<TurnDesk>, caller: &mut Caller<TurnDesk>, has_failed: bool)
    requires { IsOfTurn turn.now caller.old }
    ensures same { caller.new ≡ record caller.old { called = caller.new.called } }
    ensures quiet { has_failed ≡ false → caller.new ≡ caller.old }
{
    if has_failed {
        turn.call_off(caller);
    }
}

/// The cycles of a freewheel segment in this thread, with the recorders' rings emptied around each and those of the disks filled
/// before it, and the lanes beside them.
pub(crate) fn wheel_beside<
    S: Source,
    W: Store + Send,
    G: Guest + Send,
    T: Threads + Sync,
    R: Wait + Sync,
    K: Gate,
>(
    threads: &T,
    wait: &R,
    gate: &K,
    turn: &Turn<TurnDesk>,
    passes: Vec<Pass<TurnDesk>>,
    made: [usize; 4],
    deck: Deck<S, W, G>,
    cycles: u32,
    limits: RingLimits,
    caller: Caller<TurnDesk>,
) -> (
    Vec<Pass<TurnDesk>>,
    (Deck<S, W, G>, Result<(), SessionFault>, Caller<TurnDesk>),
)
    requires four { length passes.items ≡ 4 }
    requires open { All (IsOpen turn.now.table) passes.items }
    requires settled { AreSettled G.sound deck.driver deck.recorders.items deck.readers.items }
    requires next { AreNext cycles true (driver_of G.sound deck.driver) }
    requires ring { limits.ring ≡ deck.driver.script.header.ring }
    requires drain { limits.drain ≡ deck.driver.script.header.drain }
    requires fill { limits.fill ≡ deck.driver.script.header.fill }
    requires caller { IsOfTurn turn.now caller }
    ensures passes { HaveRun passes.items result.0.items }
    ensures wheeled { HaveWheeled G.sound cycles deck.driver deck.recorders.items deck.readers.items result.1.0.driver result.1.0.recorders.items result.1.0.readers.items result.1.1 }
    ensures caller { HasKept caller result.1.2 result.1.1 }
{
    thread::join(
        threads,
        move || -> Vec<Pass<TurnDesk>>
            requires { (length passes.items ≡ 4) × All (IsOpen turn.now.table) passes.items }
            ensures { HaveRun passes.items result.items }
        { wait_alone(threads, wait, gate, turn, passes, made) },
        move || -> (Deck<S, W, G>, Result<(), SessionFault>, Caller<TurnDesk>)
            requires { AreSettled G.sound deck.driver deck.recorders.items deck.readers.items × AreNext cycles true (driver_of G.sound deck.driver) × (limits.ring ≡ deck.driver.script.header.ring) × (limits.drain ≡ deck.driver.script.header.drain) × (limits.fill ≡ deck.driver.script.header.fill) × IsOfTurn turn.now caller }
            ensures { HaveWheeled G.sound cycles deck.driver deck.recorders.items deck.readers.items result.0.driver result.0.recorders.items result.0.readers.items result.1 × HasKept caller result.2 result.1 }
        { wheel(threads, gate, deck, cycles, limits, turn, caller) },
    )
}

/// The lanes, with what they own.
fn wait_alone<T: Threads + Sync, R: Wait + Sync, K: Gate>(
    threads: &T,
    wait: &R,
    gate: &K,
    turn: &Turn<TurnDesk>,
    mut passes: Vec<Pass<TurnDesk>>,
    made: [usize; 4],
) -> Vec<Pass<TurnDesk>>
    requires four { length passes.items ≡ 4 }
    requires open { All (IsOpen turn.now.table) passes.items }
    ensures { HaveRun passes.items result.items }
{
    run_lanes(threads, wait, gate, turn, &mut passes, made);
    passes
}

/// The cycles of a freewheel segment; where one failed, the work is called off.
fn wheel<S: Source, W: Store, G: Guest + Send, T: Threads + Sync, K: Gate>(
    threads: &T,
    gate: &K,
    mut deck: Deck<S, W, G>,
    cycles: u32,
    limits: RingLimits,
    turn: &Turn<TurnDesk>,
    mut caller: Caller<TurnDesk>,
) -> (Deck<S, W, G>, Result<(), SessionFault>, Caller<TurnDesk>)
    requires settled { AreSettled G.sound deck.driver deck.recorders.items deck.readers.items }
    requires next { AreNext cycles true (driver_of G.sound deck.driver) }
    requires ring { limits.ring ≡ deck.driver.script.header.ring }
    requires drain { limits.drain ≡ deck.driver.script.header.drain }
    requires fill { limits.fill ≡ deck.driver.script.header.fill }
    requires caller { IsOfTurn turn.now caller }
    ensures wheeled { HaveWheeled G.sound cycles deck.driver deck.recorders.items deck.readers.items result.0.driver result.0.recorders.items result.0.readers.items result.1 }
    ensures caller { HasKept caller result.2 result.1 }
{
    let ran = wheel_cycles(
        &mut deck.driver,
        &mut deck.recorders,
        &mut deck.readers,
        threads,
        gate,
        cycles,
        limits,
    );
    tell_lanes(turn, &mut caller, ran.is_err());
    (deck, ran, caller)
}

/// Freewheel cycles, one after another, until one fails.
fn wheel_cycles<S: Source, W: Store, G: Guest + Send, T: Threads + Sync, K: Gate>(
    driver: &mut Driver<S, W, G>,
    recorders: &mut Vec<Recorder<W>>,
    readers: &mut Vec<DiskReader<S>>,
    threads: &T,
    gate: &K,
    cycles: u32,
    limits: RingLimits,
) -> Result<(), SessionFault>
    requires settled { AreSettled G.sound driver.old recorders.old.items readers.old.items }
    requires next { AreNext cycles true (driver_of G.sound driver.old) }
    requires ring { limits.ring ≡ driver.old.script.header.ring }
    requires drain { limits.drain ≡ driver.old.script.header.drain }
    requires fill { limits.fill ≡ driver.old.script.header.fill }
    ensures wheeled { (desk : DeskValue) → IsSettled (seen_with G.sound (beside desk readers.old.items) driver.old recorders.old.items)
        → OnOk result (WheeledMany cycles (seen_with G.sound (beside desk readers.old.items) driver.old recorders.old.items) (seen_with G.sound (beside desk readers.new.items) driver.new recorders.new.items)) }
    ensures failed { (desk : DeskValue) → IsSettled (seen_with G.sound (beside desk readers.old.items) driver.old recorders.old.items)
        → OnErr result (WheelBroke cycles (seen_with G.sound (beside desk readers.old.items) driver.old recorders.old.items) (seen_with G.sound (beside desk readers.new.items) driver.new recorders.new.items)) }
    ensures stays { (desk : DeskValue) → Stays G.sound (parts_with (beside desk readers.old.items) driver.old recorders.old.items) (parts_with (beside desk readers.new.items) driver.new recorders.new.items) }
    ensures table { driver.new.reading.table ≡ driver.old.reading.table }
    ensures pairs { ArePaired driver.old recorders.old.items → ArePaired driver.new recorders.new.items }
    ensures disks { DisksPaired driver.old readers.old.items → DisksPaired driver.new readers.new.items }
    ensures read { (desk : DeskValue) → IsErrOf result SessionFault.Read → SourceRose (parts_with (beside desk readers.old.items) driver.old recorders.old.items) (parts_with (beside desk readers.new.items) driver.new recorders.new.items) }
    ensures write { (desk : DeskValue) → IsErrOf result SessionFault.Write → OneRose (stores_in (parts_with (beside desk readers.old.items) driver.old recorders.old.items)) (stores_in (parts_with (beside desk readers.new.items) driver.new recorders.new.items)) }
{
    cycles_and_blocks();
    for _ in 0..cycles {
        cycle(driver, recorders, readers, threads, gate, true, limits)?;
    }
    Ok(())
}

//! The phases of a session in threads mode.

ghost use Rattle.std.specs.Prelude.{◌≡◌, ◌≤◌, ℕ, IsErrOf, IsSome, IsTrue, OnErr, OnOk, Some, false, length, slice_get, suc};
ghost use Rattle.session_model.specs.Explanations.{Given};
ghost use Rattle.session_model.specs.Scripts.{phases as the_phases};
ghost use Rattle.session_works.specs.DeskWords.{IsDone};
ghost use Rattle.session_works.specs.RunWords.{AtPhase, RanPhases, StandsSoFar};
ghost use Rattle.script_segments.specs.Segments.{segments as the_segments};
ghost use Rattle.session_works.specs.SerialWords.{IsSettled};
ghost use Rattle.thread_laws.specs.Coming.{HasCome};
ghost use Rattle.thread_laws.specs.Faults.{ThreadFault};
ghost use Rattle.thread_laws.specs.Segments.{ThreadSegment};
ghost use Rattle.session_works.specs.Insides.{ArePaired, DisksPaired, Stays, held, parts_of, seen};
ghost use Rattle.session_works.specs.Parts.{HasOpenFiles, OneRose, SourceRose, told_of};
ghost use Rattle.session_threads.specs.Phases.{Settles, Stops};
ghost use Rattle.session_works.specs.declared.faults.SessionFault.{SessionFault as Fault};

use crate::laws::phases_with_threads;
use crate::meetings::{begin, finish_lanes};
use crate::rig::Rig;
use crate::rings::renew_rings;
use crate::segments::run_segment;
use client_kinds::Guest;
use jack_host::{Gate, Source, Store};
use script_segments::Segment;
use session_works::laws::phases_and_cycles;
use session_works::{RingLimits, SessionFault, SessionWorks, meet, tell_all};
use std::sync::Wait;
use std::thread::Threads;

/// Runs a phase: its `do` calls, and its segment. Behind the segment the rings' ends meet, of recorders and of disks, and desk
/// and driver do; where nothing failed the lanes go on before until none has a call left.
fn run_phase<
    S: Source + Send,
    W: Store + Send,
    G: Guest + Send,
    T: Threads + Sync,
    R: Wait + Sync,
    K: Gate,
>(
    mut rig: Rig<S, W, G>,
    threads: &T,
    wait: &R,
    gate: &K,
    phase: u32,
    segment: Segment,
    limits: RingLimits,
) -> (Rig<S, W, G>, Result<(), SessionFault>)
    requires there { slice_get (the_segments rig.works.driver.script) phase ≡ Some segment }
    requires settled { IsSettled (seen G.sound rig.works) }
    requires ran { RanPhases (seen G.sound rig.works) phase }
    requires files { HasOpenFiles (parts_of rig.works) }
    requires ring { limits.ring ≡ rig.works.driver.script.header.ring }
    requires drain { limits.drain ≡ rig.works.driver.script.header.drain }
    requires fill { limits.fill ≡ rig.works.driver.script.header.fill }
    ensures whole { OnOk result.1 (ThreadSegment phase segment.cycles segment.is_freewheel (seen G.sound rig.works) (seen G.sound result.0.works)) }
    ensures fault { OnErr result.1 ((kept : ℕ) × ThreadFault phase segment.cycles segment.is_freewheel kept (seen G.sound rig.works) (seen G.sound result.0.works)) }
    ensures stays { Stays G.sound (parts_of rig.works) (parts_of result.0.works) }
    ensures read { IsErrOf result.1 SessionFault.Read → SourceRose (parts_of rig.works) (parts_of result.0.works) }
    ensures write { IsErrOf result.1 SessionFault.Write → OneRose (held rig.works) (held result.0.works) }
{
    phases_and_cycles();
    begin(&mut rig.works, phase, segment.period);
    let (mut rig, ran) = run_segment(rig, threads, wait, gate, segment, limits);
    match ran {
        Ok(()) => {
            settle(&mut rig.works);
            (rig, Ok(()))
        }
        Err(fault) => {
            stop(&mut rig.works);
            (rig, Err(fault))
        }
    }
}

/// Lets all meet behind a segment, and the lanes go on until none has a call left.
fn settle<S: Source, W: Store, G: Guest>(works: &mut SessionWorks<S, W, G>)
    requires table { works.old.desk.publishing.table ≡ works.old.driver.reading.table }
    requires begun { 1 ≤ works.old.desk.phase }
    requires group { IsDone works.old.desk 0 }
    requires pairs { ArePaired works.old.driver works.old.recorders.items }
    requires disks { DisksPaired works.old.driver works.old.readers.items }
    requires files { HasOpenFiles (parts_of works.old) }
    ensures settled { Settles (seen G.sound works.old) (seen G.sound works.new) }
    ensures stays { Stays G.sound (parts_of works.old) (parts_of works.new) }
{
    finish_lanes(works);
    renew_rings(&mut works.driver, &mut works.recorders);
    tell_all(&mut works.driver, &mut works.readers);
    meet(works);
}

/// Lets all meet behind a segment that failed.
fn stop<S: Source, W: Store, G: Guest>(works: &mut SessionWorks<S, W, G>)
    requires table { works.old.desk.publishing.table ≡ works.old.driver.reading.table }
    requires pairs { ArePaired works.old.driver works.old.recorders.items }
    requires disks { DisksPaired works.old.driver works.old.readers.items }
    requires files { HasOpenFiles (parts_of works.old) }
    ensures stopped { Stops (seen G.sound works.old) (seen G.sound works.new) }
    ensures stays { Stays G.sound (parts_of works.old) (parts_of works.new) }
{
    renew_rings(&mut works.driver, &mut works.recorders);
    tell_all(&mut works.driver, &mut works.readers);
    meet(works);
}

/// Runs all phases, one after another, until one fails.
pub(crate) fn run_phases<
    S: Source + Send,
    W: Store + Send,
    G: Guest + Send,
    T: Threads + Sync,
    R: Wait + Sync,
    K: Gate,
>(
    mut rig: Rig<S, W, G>,
    threads: &T,
    wait: &R,
    gate: &K,
    segments: &[Segment],
    limits: RingLimits,
) -> (Rig<S, W, G>, Result<(), SessionFault>)
    requires segments { segments.now ≡ the_segments rig.works.driver.script }
    requires threads { IsSome rig.works.driver.script.header.threads }
    requires settled { IsSettled (seen G.sound rig.works) }
    requires ran { RanPhases (seen G.sound rig.works) 0 }
    requires files { HasOpenFiles (parts_of rig.works) }
    requires ring { limits.ring ≡ rig.works.driver.script.header.ring }
    requires drain { limits.drain ≡ rig.works.driver.script.header.drain }
    requires fill { limits.fill ≡ rig.works.driver.script.header.fill }
    ensures settled { OnOk result.1 (IsSettled (seen G.sound result.0.works)) }
    ensures ran { OnOk result.1 (RanPhases (seen G.sound result.0.works) (length (the_phases result.0.works.driver.script))) }
    ensures at { OnOk result.1 ((given : Given) → AtPhase (seen G.sound rig.works) given 0 → AtPhase (seen G.sound result.0.works) given (length (the_phases result.0.works.driver.script))) }
    ensures fault { OnErr result.1 ((kept : ℕ) × ((given : Given) → AtPhase (seen G.sound rig.works) given 0 → StandsSoFar kept (told_of G.sound (parts_of result.0.works)) given)) }
    ensures come { OnErr result.1 (HasCome result.0.works.driver.script result.0.works.desk.history result.0.works.driver.numbers) }
    ensures stays { Stays G.sound (parts_of rig.works) (parts_of result.0.works) }
    ensures read { IsErrOf result.1 SessionFault.Read → SourceRose (parts_of rig.works) (parts_of result.0.works) }
    ensures write { IsErrOf result.1 SessionFault.Write → OneRose (held rig.works) (held result.0.works) }
{
    phases_with_threads();
    for phase in 0..segments.len() {
        let segment = segments[phase];
        let (next, ran) = run_phase(rig, threads, wait, gate, phase as u32, segment, limits);
        rig = next;
        match ran {
            Ok(()) => {}
            Err(fault) => return (rig, Err(fault)),
        }
    }
    (rig, Ok(()))
}

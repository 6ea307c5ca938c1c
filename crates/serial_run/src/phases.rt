//! The phases of a session's run in serial mode.

ghost use Rattle.std.specs.Prelude.{◌≡◌, ◌<◌, ◌≤◌, IsErrOf, OnErr, OnOk, Some, length, slice_get, suc};
ghost use Rattle.session_model.specs.Explanations.{Given};
ghost use Rattle.session_model.specs.Scripts.{phases as the_phases};
ghost use Rattle.session_works.specs.RunWords.{SerialBehind, SerialKept};
ghost use Rattle.script_segments.specs.Segments.{segments as the_segments};
ghost use Rattle.session_works.specs.SerialWords.{IsSettled, StandsInSerial};
ghost use Rattle.session_works.specs.Insides.{Stays, held, parts_of, seen};
ghost use Rattle.session_works.specs.Parts.{HasOpenFiles, OneRose, SourceRose, told_of};

use crate::laws::a_phase_by_cycles;
use crate::steps::begin;
use crate::turning::turn;
use client_kinds::Guest;
use jack_host::{Gate, Source, Store};
use script_segments::Segment;
use session_works::laws::phases_and_cycles;
use session_works::{RingLimits, SessionFault, SessionWorks};
use std::thread::Threads;

/// Runs a phase: its `do` calls, and the cycles of its segment with the lanes' rounds around them.
fn run_phase<S: Source, W: Store, G: Guest + Send, T: Threads + Sync, K: Gate>(
    works: &mut SessionWorks<S, W, G>,
    threads: &T,
    gate: &K,
    phase: u32,
    segment: Segment,
    limits: RingLimits,
) -> Result<(), SessionFault>
    requires there { slice_get (the_segments works.old.driver.script) phase ≡ Some segment }
    requires settled { IsSettled (seen G.sound works.old) }
    requires behind { SerialBehind (seen G.sound works.old) phase }
    requires files { HasOpenFiles (parts_of works.old) }
    requires ring { limits.ring ≡ works.old.driver.script.header.ring }
    requires drain { limits.drain ≡ works.old.driver.script.header.drain }
    requires fill { limits.fill ≡ works.old.driver.script.header.fill }
    ensures settled { OnOk result (IsSettled (seen G.sound works.new)) }
    ensures behind { OnOk result (SerialBehind (seen G.sound works.new) (suc phase)) }
    ensures kept { OnOk result ((given : Given) → SerialKept given (seen G.sound works.old) → SerialKept given (seen G.sound works.new)) }
    ensures fault { OnErr result ((given : Given) → SerialKept given (seen G.sound works.old) → StandsInSerial given (told_of G.sound (parts_of works.new))) }
    ensures stays { Stays G.sound (parts_of works.old) (parts_of works.new) }
    ensures read { IsErrOf result SessionFault.Read → SourceRose (parts_of works.old) (parts_of works.new) }
    ensures write { IsErrOf result SessionFault.Write → OneRose (held works.old) (held works.new) }
{
    a_phase_by_cycles();
    begin(works, phase);
    works.driver.period(segment.period);
    for _ in 0..segment.cycles {
        turn(works, threads, gate, segment.is_freewheel, limits)?;
    }
    Ok(())
}

/// Runs all phases.
pub(crate) fn run_phases<S: Source, W: Store, G: Guest + Send, T: Threads + Sync, K: Gate>(
    works: &mut SessionWorks<S, W, G>,
    threads: &T,
    gate: &K,
    segments: &[Segment],
    limits: RingLimits,
) -> Result<(), SessionFault>
    requires segments { segments.now ≡ the_segments works.old.driver.script }
    requires settled { IsSettled (seen G.sound works.old) }
    requires behind { SerialBehind (seen G.sound works.old) 0 }
    requires files { HasOpenFiles (parts_of works.old) }
    requires ring { limits.ring ≡ works.old.driver.script.header.ring }
    requires drain { limits.drain ≡ works.old.driver.script.header.drain }
    requires fill { limits.fill ≡ works.old.driver.script.header.fill }
    ensures settled { OnOk result (IsSettled (seen G.sound works.new)) }
    ensures behind { OnOk result (SerialBehind (seen G.sound works.new) (length (the_phases works.new.driver.script))) }
    ensures kept { OnOk result ((given : Given) → SerialKept given (seen G.sound works.old) → SerialKept given (seen G.sound works.new)) }
    ensures fault { OnErr result ((given : Given) → SerialKept given (seen G.sound works.old) → StandsInSerial given (told_of G.sound (parts_of works.new))) }
    ensures stays { Stays G.sound (parts_of works.old) (parts_of works.new) }
    ensures read { IsErrOf result SessionFault.Read → SourceRose (parts_of works.old) (parts_of works.new) }
    ensures write { IsErrOf result SessionFault.Write → OneRose (held works.old) (held works.new) }
{
    phases_and_cycles();
    for phase in 0..segments.len() {
        let segment = segments[phase];
        run_phase(works, threads, gate, phase as u32, segment, limits)?;
    }
    Ok(())
}

//! A session's run in serial mode.

ghost use Rattle.std.specs.Prelude.{◌≡◌, IsErrOf, IsNone, OnErr, OnOk};
ghost use Rattle.session_model.specs.Explanations.{Given};
ghost use Rattle.session_works.specs.RunWords.{IsGiven, Runs, SerialKept};
ghost use Rattle.script_segments.specs.Segments.{segments as the_segments};
ghost use Rattle.session_works.specs.SerialWords.{StandsInSerial};
ghost use Rattle.session_works.specs.Insides.{Stays};
ghost use Rattle.session_works.specs.Parts.{OneRose, SourceRose, session_of, stores_in, told_of};
ghost use Rattle.session_works.specs.Standings.{HasRun, IsReady};

use crate::laws::a_run_by_phases;
use crate::phases::run_phases;
use client_kinds::Guest;
use jack_host::{Gate, Source, Store};
use script_segments::Segment;
use session_works::{RingLimits, SessionFault, SessionParts};
use std::thread::Threads;

/// Runs all phases of a session in serial mode: the `do` calls of each, and then its cycles with the calls of the lanes before
/// the first and behind each.
///
/// It takes no memory.
pub fn run_serial<S: Source, W: Store, G: Guest + Send, T: Threads + Sync, K: Gate>(
    parts: &mut SessionParts<S, W, G>,
    threads: &T,
    gate: &K,
    segments: &[Segment],
    limits: RingLimits,
) -> Result<(), SessionFault>
    requires ready { IsReady G.sound parts.old }
    requires serial { IsNone parts.old.gear.script.header.threads }
    requires segments { segments.now ≡ the_segments parts.old.gear.script }
    requires ring { limits.ring ≡ parts.old.gear.script.header.ring }
    requires drain { limits.drain ≡ parts.old.gear.script.header.drain }
    requires fill { limits.fill ≡ parts.old.gear.script.header.fill }
    ensures runs { OnOk result (Runs (session_of G.sound parts.old) (session_of G.sound parts.new)) }
    ensures ran { OnOk result (HasRun G.sound parts.new) }
    ensures kept { OnOk result ((given : Given) → IsGiven (session_of G.sound parts.old) given → SerialKept given (session_of G.sound parts.new)) }
    ensures fault { OnErr result ((given : Given) → IsGiven (session_of G.sound parts.old) given → StandsInSerial given (told_of G.sound parts.new)) }
    ensures stays { Stays G.sound parts.old parts.new }
    ensures read { IsErrOf result SessionFault.Read → SourceRose parts.old parts.new }
    ensures write { IsErrOf result SessionFault.Write → OneRose (stores_in parts.old) (stores_in parts.new) }
{
    a_run_by_phases();
    run_phases(&mut parts.works, threads, gate, segments, limits)
}

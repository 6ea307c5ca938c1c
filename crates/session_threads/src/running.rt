//! A session's run in threads mode.

ghost use Rattle.std.specs.Prelude.{◌≡◌, ℕ, IsErrOf, IsSome, OnErr, OnOk};
ghost use Rattle.session_model.specs.Explanations.{Given};
ghost use Rattle.session_works.specs.RunWords.{IsGiven, Runs, StandsSoFar};
ghost use Rattle.script_segments.specs.Segments.{segments as the_segments};
ghost use Rattle.thread_laws.specs.Coming.{HasCome};
ghost use Rattle.session_works.specs.Insides.{Stays};
ghost use Rattle.session_works.specs.Parts.{OneRose, SourceRose, session_of, stores_in, told_of};
ghost use Rattle.session_works.specs.Standings.{HasRun, IsReady};

use crate::lanes::Lanes;
use crate::laws::a_run_by_phases;
use crate::phases::run_phases;
use crate::rig::Rig;
use client_kinds::Guest;
use jack_host::{Gate, Source, Store};
use script_segments::Segment;
use session_works::{RingLimits, SessionFault, SessionParts};
use std::sync::Wait;
use std::thread::Threads;

/// Runs all phases of a session in threads mode: the lanes make their calls beside the cycles, and in a segment that is bound
/// to the device each recorder's file is filled beside them, and each disk's file read.
///
/// It may wait for ever. It takes no memory but for a push in `mode steal`.
pub fn run_threads<
    S: Source + Send,
    W: Store + Send,
    G: Guest + Send,
    T: Threads + Sync,
    R: Wait + Sync,
    K: Gate,
>(
    parts: SessionParts<S, W, G>,
    lanes: Lanes,
    threads: &T,
    wait: &R,
    gate: &K,
    segments: &[Segment],
    limits: RingLimits,
) -> ((SessionParts<S, W, G>, Lanes), Result<(), SessionFault>)
    requires ready { IsReady G.sound parts }
    requires threads { IsSome parts.gear.script.header.threads }
    requires segments { segments.now ≡ the_segments parts.gear.script }
    requires ring { limits.ring ≡ parts.gear.script.header.ring }
    requires drain { limits.drain ≡ parts.gear.script.header.drain }
    requires fill { limits.fill ≡ parts.gear.script.header.fill }
    ensures runs { OnOk result.1 (Runs (session_of G.sound parts) (session_of G.sound result.0.0)) }
    ensures ran { OnOk result.1 (HasRun G.sound result.0.0) }
    ensures so_far { OnErr result.1 ((kept : ℕ) × ((given : Given) → IsGiven (session_of G.sound parts) given → StandsSoFar kept (told_of G.sound result.0.0) given)) }
    ensures come { OnErr result.1 (HasCome result.0.0.gear.script result.0.0.desk.history result.0.0.gear.numbers) }
    ensures stays { Stays G.sound parts result.0.0 }
    ensures read { IsErrOf result.1 SessionFault.Read → SourceRose parts result.0.0 }
    ensures write { IsErrOf result.1 SessionFault.Write → OneRose (stores_in parts) (stores_in result.0.0) }
{
    a_run_by_phases();
    let SessionParts {
        works,
        playback,
        attached,
    } = parts;
    let rig = Rig { works, lanes };
    let (rig, ran) = run_phases(rig, threads, wait, gate, segments, limits);
    let Rig { works, lanes } = rig;
    let parts = SessionParts {
        works,
        playback,
        attached,
    };
    ((parts, lanes), ran)
}

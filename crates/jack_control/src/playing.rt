//! A play whose session is open.

ghost use Rattle.std.specs.Prelude.{◌≡◌, ◌+◌, ◌<◌, ◌≤◌, ◌⊎◌, [], List, ℕ, Option, IfErr, IsErrOf, IsNone, IsOk, IsTrue, OnErr, OnOk, false, length};
ghost use Rattle.jack_host.specs.Bytes.{Gains};
ghost use Rattle.jack_host.specs.Causes.{Rose};
ghost use Rattle.jack_host.specs.Files.{SameFiles};
ghost use Rattle.session_model.specs.Explanations.{Given};
ghost use Rattle.session_model.specs.Kinds.{Sound};
ghost use Rattle.session_model.specs.Soundness.{Apart};
ghost use Rattle.session_model.specs.Serial.{serial, serial_printed};
ghost use Rattle.run_laws.specs.Sessions.{IsGiven, printed_of};
ghost use Rattle.wave_pcm.specs.Readings.{SameReading};
ghost use Rattle.jack_control.specs.Files.{AreOut, OneFailed};
ghost use Rattle.play_inputs.specs.Inputs.{Files as AllFiles};
ghost use Rattle.jack_control.specs.Openings.{AreFaultless, IsSessionOf, NoFaults};
ghost use Rattle.jack_control.specs.Performances.{CutsReport, Explain, HaveCut, MadeSome, status_of_session};
ghost use Rattle.jack_control.specs.Plays.{IsExplained, IsOutCut, IsPlayCut, TouchesOnly, made_by};
ghost use Rattle.play_words.specs.Words.{names_of};
ghost use Rattle.run_laws.specs.Told.{text_in};
ghost use Rattle.session_run.specs.Seen.{SourceRose, session_of, stores_in};
ghost use Rattle.session_run.specs.Standings.{HasEnded, IsAttaching};

use crate::disks::back_disks;
use crate::files::{hand_back, make_files};
use client_kinds::Guest;
use driver_laws::endings::{all_is_played_back, blocks_kept_are_recorded};
use jack_host::{Gate, Host, Sink, Source, Store};
use play_inputs::Status;
use play_words::Names;
use run_laws::endings::a_session_is_explained;
use session_run::{Session, SessionFault};
use std::sync::Wait;
use std::thread::Threads;

// The status of a session's fault.
fn status_of(fault: SessionFault) -> Status
    ensures { result ≡ status_of_session fault }
{
    match fault {
        SessionFault::Read => Status::ReadFault,
        SessionFault::Write => Status::WriteFault,
    }
}

/// Makes the files, runs the session and ends it. However that goes, the stores that are out have fronts of their files. Answers
/// also whether these are wanted: they are not where one of them could not be made.
pub(crate) fn perform<H: Host, G: Guest + Send, T: Threads + Sync, R: Wait + Sync, A: Gate>(
    threads: &T,
    wait: &R,
    gate: &A,
    names: &Names<'_>,
    host: &mut H,
    mut session: Session<H::In, H::Out, G>,
) -> (Session<H::In, H::Out, G>, Result<(), Status>, bool)
    requires out { H.lent host.old < 950 }
    requires attaching { IsAttaching G.sound session × (session.attached ≡ 0) × (stores_in session ≡ []) }
    requires recorders { length session.recorders ≡ length names.now.records }
    requires apart { Apart (λ (name : List ℕ). name) (made_by names.now) }
    ensures ended { OnOk result.1 (HasEnded G.sound result.0) }
    ensures wanted { OnOk result.1 (IsTrue result.2) }
    ensures explained { OnOk result.1 ((given : Given) → IsGiven (session_of G.sound session) given → Explain given (printed_of (session_of G.sound result.0)) (stores_in result.0) (text_in (session_of G.sound result.0))) }
    ensures serial { OnOk result.1 ((given : Given) → IsGiven (session_of G.sound session) given → IsNone given.script.header.threads → printed_of (session_of G.sound result.0) ≡ serial_printed given) }
    ensures history { OnOk result.1 (IsNone session.gear.script.header.threads → result.0.desk.history ≡ (serial session.gear.script).history) }
    ensures whole { OnOk result.1 (AreOut (H.files host.new) (made_by names.now) (stores_in result.0)) }
    ensures fronts { (given : Given) → IsGiven (session_of G.sound session) given → HaveCut given (printed_of (session_of G.sound result.0)) (stores_in result.0) }
    ensures made { MadeSome (H.files host.old) (H.files host.new) (made_by names.now) (stores_in result.0) }
    ensures fault { IfErr result.1 (λ status. (status ≡ Status.ReadFault) ⊎ (status ≡ Status.WriteFault)) }
    ensures read { IsErrOf result.1 Status.ReadFault → SourceRose session result.0 }
    ensures write { IsErrOf result.1 Status.WriteFault → Rose (H.write_faults host.old) (H.write_faults host.new) ⊎ OneFailed (stores_in result.0) }
    ensures others { TouchesOnly (H.files host.old) (H.files host.new) (made_by names.now) }
    ensures later { H.write_faults host.old ≤ H.write_faults host.new }
    ensures kept { OnOk result.1 (H.write_faults host.new ≡ H.write_faults host.old) }
    ensures capture { OnOk result.1 (SameReading session.gear.capture.reading result.0.gear.capture.reading) }
    ensures players { length result.0.players ≡ length session.players }
    ensures disks { OnOk result.1 (AreFaultless session.players → AreFaultless result.0.players) }
    ensures reads { H.read_faults host.new ≡ H.read_faults host.old }
    ensures lent { H.lent host.new ≡ H.lent host.old + length (stores_in result.0) }
{
    a_session_is_explained();
    all_is_played_back();
    blocks_kept_are_recorded();
    if make_files(host, names, &mut session).is_err() {
        return (session, Err(Status::WriteFault), false);
    }
    let (mut session, ran) = session.run(threads, wait, gate);
    if let Err(fault) = ran {
        return (session, Err(status_of(fault)), true);
    }
    if let Err(fault) = session.end() {
        return (session, Err(status_of(fault)), true);
    }
    (session, Ok(()), true)
}

// Puts the report out, where all files were handed back.
fn report<K: Sink, S: Source, W: Store, G: Guest>(
    out: &mut K,
    session: &Session<S, W, G>,
    handed: bool,
) -> Result<(), Status>
    requires { HasEnded G.sound session.now }
    ensures put { OnOk result (IsTrue handed × Gains (K.content out.old) (K.content out.new) (text_in (session_of G.sound session.now))) }
    ensures cut { OnErr result (CutsReport (IsTrue handed) (K.content out.old) (K.content out.new) (K.faults out.old) (K.faults out.new) (text_in (session_of G.sound session.now))) }
    ensures cause { OnErr result ((handed ≡ false) ⊎ Rose (K.faults out.old) (K.faults out.new)) }
    ensures status { IfErr result (λ status. status ≡ Status.WriteFault) }
    ensures later { K.faults out.old ≤ K.faults out.new }
    ensures kept { OnOk result (K.faults out.new ≡ K.faults out.old) }
{
    if !handed {
        return Err(Status::WriteFault);
    }
    match session.report(out) {
        Ok(()) => Ok(()),
        Err(_) => Err(Status::WriteFault),
    }
}

// What a session that was performed answers: its fault, or what putting the report out gives.
fn conclude<K: Sink, S: Source, W: Store, G: Guest>(
    out: &mut K,
    session: &Session<S, W, G>,
    performed: Result<(), Status>,
    handed: bool,
) -> Result<(), Status>
    requires ended { OnOk performed (HasEnded G.sound session.now) }
    requires fault { IfErr performed (λ status. (status ≡ Status.ReadFault) ⊎ (status ≡ Status.WriteFault)) }
    ensures put { OnOk result (IsOk performed × IsTrue handed × Gains (K.content out.old) (K.content out.new) (text_in (session_of G.sound session.now))) }
    ensures fault { IfErr result (λ status. (status ≡ Status.ReadFault) ⊎ (status ≡ Status.WriteFault)) }
    ensures read { IsErrOf result Status.ReadFault → IsErrOf performed Status.ReadFault × (out.new ≡ out.old) }
    ensures write { IsErrOf result Status.WriteFault → IsErrOf performed Status.WriteFault ⊎ (handed ≡ false) ⊎ Rose (K.faults out.old) (K.faults out.new) }
    ensures cut { OnErr result (CutsReport (IsOk performed × IsTrue handed) (K.content out.old) (K.content out.new) (K.faults out.old) (K.faults out.new) (text_in (session_of G.sound session.now))) }
    ensures later { K.faults out.old ≤ K.faults out.new }
    ensures kept { OnOk result (K.faults out.new ≡ K.faults out.old) }
{
    match performed {
        Err(status) => Err(status),
        Ok(()) => report(out, session, handed),
    }
}

/// Plays a session: makes its files, runs it, hands the files back, and puts the report out. The disk files and the capture go
/// back to the host last.
pub(crate) fn play_session<
    H: Host,
    K: Sink,
    G: Guest + Send,
    T: Threads + Sync,
    R: Wait + Sync,
    A: Gate,
>(
    threads: &T,
    wait: &R,
    gate: &A,
    names: &Names<'_>,
    host: &mut H,
    out: &mut K,
    session: Session<H::In, H::Out, G>,
) -> Result<(), Status>
    requires out { (1 + length session.players ≤ H.lent host.old) × (H.lent host.old < 950) }
    requires attaching { IsAttaching G.sound session × (session.attached ≡ 0) × (stores_in session ≡ []) }
    requires recorders { length session.recorders ≡ length names.now.records }
    requires apart { Apart (λ (name : List ℕ). name) (names_of names.now) }
    ensures played { OnOk result ((files : Option AllFiles) (scores : List Sound) → SameFiles files (H.files host.old) → IsSessionOf G.sound files scores names.now session → IsExplained files (H.files host.new) (K.content out.old) (K.content out.new) scores names.now) }
    ensures cut { OnErr result ((files : Option AllFiles) (scores : List Sound) → SameFiles files (H.files host.old) → IsSessionOf G.sound files scores names.now session → IsPlayCut files (H.files host.new) scores names.now) }
    ensures fault { IfErr result (λ status. (status ≡ Status.ReadFault) ⊎ (status ≡ Status.WriteFault)) }
    ensures read { IsErrOf result Status.ReadFault → Rose (H.read_faults host.old) (H.read_faults host.new) × (out.new ≡ out.old) }
    ensures write { IsErrOf result Status.WriteFault → Rose (H.write_faults host.old) (H.write_faults host.new) ⊎ Rose (K.faults out.old) (K.faults out.new) }
    ensures out_cut { OnErr result ((files : Option AllFiles) (scores : List Sound) → SameFiles files (H.files host.old) → IsSessionOf G.sound files scores names.now session → IsOutCut files (H.files host.new) (K.content out.old) (K.content out.new) (K.faults out.old) (K.faults out.new) scores names.now) }
    ensures others { TouchesOnly (H.files host.old) (H.files host.new) (made_by names.now) }
    ensures later { (H.read_faults host.old ≤ H.read_faults host.new) × (H.write_faults host.old ≤ H.write_faults host.new) × (K.faults out.old ≤ K.faults out.new) }
    ensures reads { OnOk result (NoFaults session → H.read_faults host.new ≡ H.read_faults host.old) }
    ensures writes { OnOk result (H.write_faults host.new ≡ H.write_faults host.old) }
    ensures puts { OnOk result (K.faults out.new ≡ K.faults out.old) }
    ensures lent { H.lent host.new + 1 + length session.players ≡ H.lent host.old }
{
    let (mut session, performed, wanted) = perform(threads, wait, gate, names, host, session);
    let handed = hand_back(host, &mut session, wanted);
    let reported = conclude(out, &session, performed, handed.is_ok());
    back_disks(host, &mut session);
    host.back(session.into_capture().into_source());
    reported
}

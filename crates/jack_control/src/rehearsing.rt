//! A rehearsal: the large session of a number, played in memory and summed up.

ghost use Rattle.std.specs.Prelude.{◌≡◌, ◌<◌, ◌≤◌, [], ◌∷◌, ◌++◌, ℕ, List, None, IfOk, OnOk, map, string_bytes};
ghost use Rattle.jack_host.specs.Causes.{Rose};
ghost use Rattle.host_memory.specs.MemoryHost.{host_files, host_lent};
ghost use Rattle.play_words.specs.Words.{IsPlay, names_of};
ghost use Rattle.rehearsal_model.specs.Rehearsals.{summary_text};
ghost use Rattle.session_model.specs.Soundness.{Apart};
ghost use Rattle.jack_control.specs.Performances.{HasHistory};
ghost use Rattle.jack_control.specs.Plays.{IsExplained};
ghost use Rattle.jack_control.specs.Rehearsals.{IsRehearsed};
ghost use Rattle.jack_control.specs.Rehearsing.{HasFiles, IsDone, rehearsal_play};

use crate::disks::back_disks;
use crate::files::hand_back;
use crate::opening::open_session;
use crate::playing::perform;
use client_kinds::Guest;
use host_memory::MemoryHost;
use jack_host::{Gate, Host, Sink};
use jack_types::{Entry, Memory};
use play_inputs::Status;
use play_words::laws::words_name_one_play;
use play_words::{Names, play_names};
use rehearsal_laws::captures::rehearsal_is_a_wave;
use rehearsal_laws::scripts::rehearsal_is_a_script;
use rehearsal_laws::serial::no_disk_has_no_underrun;
use rehearsals::{Rehearsal, Summary, summary};
use std::alloc::{AllocError, Global};
use std::sync::Wait;
use std::thread::Threads;
use wave_laws::waves::forward_reading;

// The names of its files: the script, the capture, the playback and the recorder's.
const SCRIPT: &str = "script";

const CAPTURE: &str = "capture";

const PLAYBACK: &str = "playback";

const RECORD: &str = "record";

// A word more.
fn add_word(alloc: Global, words: &mut Vec<String>, word: &str) -> Result<(), AllocError>
    ensures { OnOk result (map string_bytes words.new.items ≡ map string_bytes words.old.items ++ word.now ∷ []) }
{
    words.push(String::from_str(alloc, word)?)?;
    Ok(())
}

// The words of its play.
fn words_of_play(alloc: Global) -> Result<Vec<String>, AllocError>
    ensures { IfOk result (λ words. IsPlay (map string_bytes words.items) rehearsal_play) }
{
    let mut words = Vec::new(alloc);
    add_word(alloc, &mut words, "play")?;
    add_word(alloc, &mut words, SCRIPT)?;
    add_word(alloc, &mut words, CAPTURE)?;
    add_word(alloc, &mut words, PLAYBACK)?;
    add_word(alloc, &mut words, "--record")?;
    add_word(alloc, &mut words, RECORD)?;
    Ok(words)
}

// A host that has its two files.
fn host_of(alloc: Global, made: &Rehearsal) -> Result<MemoryHost, Memory>
    ensures files { IfOk result (λ host. HasFiles (host_files host) made.now) }
    ensures lent { IfOk result (λ host. host_lent host ≡ 0) }
{
    let mut host = MemoryHost::new(alloc);
    host.add(SCRIPT, made.script())?;
    host.add(CAPTURE, made.capture())?;
    Ok(host)
}

// Plays what these names name, and answers the history. No report is put out.
fn play_silently<T: Threads + Sync, R: Wait + Sync, H: Host, G: Guest + Send, A: Gate>(
    threads: &T,
    wait: &R,
    alloc: Global,
    names: &Names<'_>,
    host: &mut H,
    guests: Vec<G>,
    gate: &A,
) -> Result<Vec<Entry>, Status>
    requires out { H.lent host.old < 900 }
    requires apart { Apart (λ (name : List ℕ). name) (names_of names.now) }
    ensures played { OnOk result (IsExplained (H.files host.old) (H.files host.new) None None (map G.sound (map G.score guests.items)) names.now) }
    ensures history { IfOk result (λ history. HasHistory (H.files host.old) names.now history.items) }
{
    let session = open_session(alloc, names, host, guests)?;
    let (mut session, performed, wanted) = perform(threads, wait, gate, names, host, session);
    let history = Vec::from_slice(alloc, session.desk().history());
    let handed = hand_back(host, &mut session, wanted);
    back_disks(host, &mut session);
    host.back(session.into_capture().into_source());
    if let Err(status) = performed {
        return Err(status);
    }
    if handed.is_err() {
        return Err(Status::WriteFault);
    }
    match history {
        Ok(history) => Ok(history),
        Err(_) => Err(Status::NoMemory),
    }
}

// Makes a rehearsal, plays it in memory, and sums it up. Its host refuses nothing, so what fails there lacked memory.
fn lines_of<T: Threads + Sync, R: Wait + Sync, G: Guest + Send, A: Gate>(
    threads: &T,
    wait: &R,
    alloc: Global,
    number: u32,
    gate: &A,
) -> Result<Summary, Memory>
    ensures { IfOk result (λ lines. lines.bytes ≡ summary_text number) }
{
    rehearsal_is_a_script();
    rehearsal_is_a_wave();
    no_disk_has_no_underrun();
    words_name_one_play();
    let made = Rehearsal::make(alloc, number)?;
    forward_reading(made.capture());
    let mut host = host_of(alloc, &made)?;
    let Ok(words) = words_of_play(alloc) else {
        return Err(Memory);
    };
    let Some(names) = play_names(&words) else {
        unreachable!()
    };
    let guests: Vec<G> = Vec::new(alloc);
    let Ok(history) = play_silently(threads, wait, alloc, &names, &mut host, guests, gate) else {
        return Err(Memory);
    };
    let Some(playback) = host.file(PLAYBACK) else {
        unreachable!()
    };
    summary(alloc, number, &history, playback)
}

/// Makes the session of a number, plays it in memory, and puts out what is told of it.
pub(crate) fn rehearse<T: Threads + Sync, R: Wait + Sync, K: Sink, G: Guest + Send, A: Gate>(
    threads: &T,
    wait: &R,
    alloc: Global,
    number: u32,
    out: &mut K,
    gate: &A,
) -> Status
    ensures rehearsed { IsRehearsed number (K.content out.old) (K.content out.new) (K.faults out.old) (K.faults out.new) result }
    ensures done { IsDone result }
    ensures write { result ≡ Status.WriteFault → Rose (K.faults out.old) (K.faults out.new) }
    ensures silent { result ≡ Status.NoMemory → out.new ≡ out.old }
    ensures later { K.faults out.old ≤ K.faults out.new }
    ensures puts { result ≡ Status.Ok → K.faults out.new ≡ K.faults out.old }
{
    let Ok(lines) = lines_of::<T, R, G, A>(threads, wait, alloc, number, gate) else {
        return Status::NoMemory;
    };
    match out.put(lines.as_str().as_bytes()) {
        Ok(()) => Status::Ok,
        Err(_) => Status::WriteFault,
    }
}

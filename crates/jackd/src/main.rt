//! The program: the real files, standard output and the exit code.
#![tactic(auto)]

mod graphs;
mod handed;
mod options;
mod usage;

use crate::graphs::{show_graph, tell_feeds};
use crate::handed::hand_in;
use crate::options::take_option;
use exit_reasons::{MOST_OF_CAPTURE, MOST_OF_SCRIPT, NO_MEMORY, tell};
use host_files::{FileHost, Syncing, WriterSink};
use host_listener::ListeningHost;
use jack_control::{Status, jackd};
use jack_host::FreeGate;
use report_listener::ListeningSink;
use std::alloc::Global;
use std::env::Env;
use std::process::ExitCode;
use std::{env, io};

// The exit code where the help or the version can't be made or printed.
const UNPRINTED: u8 = 6;

// The exit code of a strict play in which a call was refused, or a recorder or a disk missed a block.
const LOSSY: u8 = 9;

// The most files of a command: the script, the capture, the playback, and a file of each of four recorders and of four disks.
const MOST_FILES: usize = 11;

// The words of the command line, without the program's name.
fn words(rt: &(impl Env + AllocGlobal)) -> io::Result<Vec<String>> {
    let mut words = Vec::new(rt.alloc());
    for word in env::args(rt)?.skip(1) {
        words.push(word)?;
    }
    Ok(words)
}

// Whether these words ask for the help.
fn ask_help(words: &[String]) -> bool {
    match words {
        [only] => { only.as_str() == "--help" || only.as_str() == "-h" || only.as_str() == "help" }
        [command, help] => {
            (command.as_str() == "play"
                || command.as_str() == "rehearse"
                || command.as_str() == "graph"
                || command.as_str() == "check")
                && (help.as_str() == "--help" || help.as_str() == "-h")
        }
        _ => false,
    }
}

// Whether these words ask for the version.
fn ask_version(words: &[String]) -> bool {
    match words {
        [only] => only.as_str() == "--version" || only.as_str() == "-V",
        _ => false,
    }
}

// Whether these words ask for the graph of a cycle.
fn ask_graph(words: &[String]) -> bool {
    match words {
        [command, ..] => command.as_str() == "graph",
        [] => false,
    }
}

// The exit code of what was printed.
fn code_of(printed: io::Result<()>) -> ExitCode {
    match printed {
        Ok(()) => ExitCode::SUCCESS,
        Err(_) => ExitCode::from(UNPRINTED),
    }
}

// The exit code for want of memory, which is told.
fn out_of_memory(rt: &impl Eprint) -> ExitCode {
    let _ = rt.eprint(NO_MEMORY);
    ExitCode::from(Status::NoMemory.code())
}

// Whether a call of the report was refused, a block lost, or a cycle an underrun.
fn is_lossy<K>(out: &ListeningSink<K>) -> bool {
    out.notes().refused() > 0 || out.losses().has_any()
}

// When the files of a play are synced: an option tells it, which is taken out of the words.
fn take_syncing(words: &mut Vec<String>) -> Syncing {
    if take_option(words, "--no-sync") {
        Syncing::Never
    } else {
        Syncing::AtClose
    }
}

fn main(rt: HostRuntime) -> ExitCode {
    let mut words = match words(&rt) {
        Ok(words) => words,
        Err(error) if error.kind() == io::ErrorKind::OutOfMemory => return out_of_memory(&rt),
        Err(_) => Vec::new(rt.alloc()),
    };
    let is_strict = take_option(&mut words, "--strict");
    let syncing = take_syncing(&mut words);
    if ask_help(&words) {
        return code_of(usage::print_help(&rt));
    }
    if ask_version(&words) {
        return code_of(usage::print_version(&rt));
    }
    if ask_graph(&words) {
        return show_graph(&rt, &words);
    }
    let Ok(guests) = hand_in(rt.alloc()) else {
        return out_of_memory(&rt);
    };
    let Ok(files) = FileHost::new(rt.alloc(), &rt, words.len().min(MOST_FILES), syncing) else {
        return out_of_memory(&rt);
    };
    let Ok(mut host) = ListeningHost::new(rt.alloc(), files, MOST_OF_SCRIPT, MOST_OF_CAPTURE) else {
        return out_of_memory(&rt);
    };
    let mut out = ListeningSink::new(WriterSink::new(io::writer(&rt)));
    let status = jackd(
        &rt,
        &rt,
        rt.alloc(),
        &words,
        &mut host,
        &mut out,
        guests,
        &FreeGate,
    );
    tell(&rt, &words, &host, &out, status);
    tell_feeds(&rt, &words, status);
    if is_strict && status == Status::Ok && is_lossy(&out) {
        return ExitCode::from(LOSSY);
    }
    ExitCode::from(status.code())
}

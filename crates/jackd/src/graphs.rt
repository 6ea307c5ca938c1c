//! The graph of a cycle: put out, or looked at for a reason.

use check_sights::Sight;
use exit_reasons::{NO_MEMORY, Told, print_told, tell_graph};
use host_files::{FileHost, Syncing, WriterSink};
use host_memory::MemorySink;
use play_inputs::Status;
use play_words::{CheckNames, check_names};
use session_graph::{GraphFault, graph};
use std::alloc::{AllocError, Global};
use std::env::Env;
use std::fs::{File, Files};
use std::process::ExitCode;
use std::{fs, io};
use told_reasons::{Channel, of_feeds};

// The files of a graph: the script and the report.
const GRAPH_FILES: usize = 2;

/// Puts out the graph of a cycle.
pub(crate) fn show_graph<R: Files<File = File> + Env + AllocGlobal + Eprint + Print>(
    rt: &R,
    words: &[String],
) -> ExitCode {
    let Ok(mut host) = FileHost::new(rt.alloc(), rt, GRAPH_FILES, Syncing::Never) else {
        let _ = rt.eprint(NO_MEMORY);
        return ExitCode::from(Status::NoMemory.code());
    };
    let mut out = WriterSink::new(io::writer(rt));
    match graph(rt.alloc(), words, &mut host, &mut out) {
        Ok(()) => ExitCode::SUCCESS,
        Err(fault) => {
            tell_graph(rt, words, &host, &out, status_of(fault));
            ExitCode::from(fault.code())
        }
    }
}

// The status of a play or a check that has the same reason.
fn status_of(fault: GraphFault) -> Status {
    match fault {
        GraphFault::NoMemory => Status::NoMemory,
        GraphFault::Words => Status::Words,
        GraphFault::ReadFault => Status::ReadFault,
        GraphFault::BadScript(fault) => Status::BadScript(fault),
        GraphFault::WriteFault => Status::WriteFault,
        GraphFault::Wrong(row) => Status::Wrong(row, Sight::Nothing),
    }
}

/// Tells on standard error which ports feed the channel of a wrong sample.
pub(crate) fn tell_feeds<R: Files<File = File> + AllocGlobal + Eprint>(
    rt: &R,
    words: &[String],
    status: Status,
) {
    let Status::Wrong(row, Sight::Sample { cycle, channel, .. }) = status else {
        return;
    };
    if let Some(names) = check_names(words) {
        let channel = Channel {
            row,
            cycle,
            number: channel,
        };
        print_told(rt, &feeds_of(rt, rt.alloc(), &names, channel));
    }
}

// What feeds a channel in its cycle.
fn feeds_of<R: Files<File = File>>(
    rt: &R,
    alloc: Global,
    names: &CheckNames<'_>,
    channel: Channel,
) -> Told {
    // A pipe can't be read again, and to open it might never end.
    if !is_file(rt, names.play.script) || !is_file(rt, names.report) {
        return Ok(None);
    }
    let words = graph_words(alloc, names, channel.cycle)?;
    let Ok(mut host) = FileHost::new(alloc, rt, GRAPH_FILES, Syncing::Never) else {
        return Err(AllocError);
    };
    let mut out = MemorySink::new(alloc);
    match graph(alloc, &words, &mut host, &mut out) {
        Ok(()) => of_feeds(
            alloc,
            names.play.script,
            names.report,
            out.as_bytes(),
            channel,
        ),
        Err(_) => Ok(None),
    }
}

fn graph_words(
    alloc: Global,
    names: &CheckNames<'_>,
    cycle: u32,
) -> Result<Vec<String>, AllocError> {
    let mut words = Vec::new(alloc);
    words.push(String::from_str(alloc, "graph")?)?;
    words.push(String::from_str(alloc, names.play.script)?)?;
    words.push(String::from_str(alloc, names.report)?)?;
    words.push(format!(in alloc; "{cycle}")?)?;
    Ok(words)
}

fn is_file<R: Files>(rt: &R, path: &str) -> bool {
    match fs::metadata(rt, path) {
        Ok(metadata) => metadata.is_file(),
        Err(_) => false,
    }
}

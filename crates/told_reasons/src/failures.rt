//! Failures of files and of standard output.

ghost use Rattle.std.specs.Prelude.{◌≡◌, IfOk};
ghost use Rattle.reason_text.specs.Reasons.{IsReason};
ghost use Rattle.told_reasons.specs.Standings.{frames_in, is_unfinished};

use crate::filling::line_of;
use crate::formats::{HEADER, u16_at, u32_at};
use reason_text::Piece::{Counted, Shown};
use reason_text::Reason;
use std::alloc::{AllocError, Global};
use std::io;

// A size that is not set.
const UNSET: u32 = 0xffff_ffff;

// What the system says, without the number of its error.
fn without_number(text: &str) -> &[u8] {
    let bytes = text.as_bytes();
    match text.find(" (os error ") {
        Some(end) if end <= bytes.len() => &bytes[..end],
        _ => bytes,
    }
}

// Whether these are the first bytes of a WAVE file whose sizes are not set.
fn is_unfinished(front: &[u8]) -> bool
    ensures { result ≡ is_unfinished front.now }
{
    front.len() >= HEADER
        && &front[..4] == b"RIFF".as_slice()
        && u32_at(front, 4) == UNSET
        && u32_at(front, 40) == UNSET
        && u16_at(front, 32) != 0
}

/// How many frames stand in a WAVE file that was not written to its end: it has these first bytes, and so many in all. Where
/// its sizes are set, or it is no such file, there is no answer.
pub fn standing_in(front: &[u8], bytes: u64) -> Option<u64>
    ensures { result ≡ frames_in front.now bytes }
{
    if !is_unfinished(front) {
        return None;
    }
    Some(bytes.saturating_sub(44) / u64::from(u16_at(front, 32)))
}

// A sentence on a file, which is `{0}`, and the system's reason, which is `{1}`. An empty name stands for one that is too long to be
// kept.
fn of_file(
    alloc: Global,
    sentence: &str,
    name: &str,
    error: io::Error,
    frames: u64,
) -> Result<Reason, AllocError>
    ensures { IfOk result IsReason }
{
    let system = format!(in alloc; "{error}")?;
    of_named(alloc, sentence, name, system.as_str(), frames)
}

fn of_named<'a>(
    alloc: Global,
    sentence: &str,
    name: &'a str,
    system: &'a str,
    frames: u64,
) -> Result<Reason, AllocError>
    ensures { IfOk result IsReason }
{
    line_of(
        alloc,
        sentence,
        &[
            Shown(name_or_length(name)),
            Shown(without_number(system)),
            Counted(frames, "frame stands", "frames stand"),
        ],
    )
}

// A name, or in place of an empty one what is said of a name that is too long to be kept.
fn name_or_length(name: &str) -> &[u8] {
    if name.is_empty() {
        b"a name of more than 4096 bytes".as_slice()
    } else {
        name.as_bytes()
    }
}

/// Why a file could not be read.
pub fn of_input(alloc: Global, name: &str, error: io::Error) -> Result<Reason, AllocError>
    ensures { IfOk result IsReason }
{
    of_file(alloc, "{0}: {1}", name, error, 0)
}

/// Why a file could not be written to its end, and how much of it stands.
pub fn of_writing(
    alloc: Global,
    name: &str,
    error: io::Error,
    standing: Option<u64>,
) -> Result<Reason, AllocError>
    ensures { IfOk result IsReason }
{
    match standing {
        Some(frames) => of_file(
            alloc,
            "{0}: {1}; {2}, sizes unset (sox --ignore-length reads it)",
            name,
            error,
            frames,
        ),
        None => of_file(alloc, "{0}: {1}", name, error, 0),
    }
}

/// Why a file could not be made, or opened for writing: then none was written.
pub fn of_making(alloc: Global, name: &str, error: io::Error) -> Result<Reason, AllocError>
    ensures { IfOk result IsReason }
{
    of_file(alloc, "{0}: {1}; nothing was written", name, error, 0)
}

/// Why a file may not have reached its medium, though all of it was written.
pub fn of_closing(alloc: Global, name: &str, error: io::Error) -> Result<Reason, AllocError>
    ensures { IfOk result IsReason }
{
    of_file(
        alloc,
        "{0}: {1}; what was written may be lost",
        name,
        error,
        0,
    )
}

/// Why a file is not made in place of one that is open: `what` it is, and the name by which it was opened.
pub fn of_open_output<'a>(
    alloc: Global,
    name: &'a str,
    what: &'a str,
    other: &'a str,
) -> Result<Reason, AllocError>
    ensures { IfOk result IsReason }
{
    line_of(
        alloc,
        "{0}: is the {1} {2}; nothing was written",
        &[
            Shown(name.as_bytes()),
            Shown(what.as_bytes()),
            Shown(other.as_bytes()),
        ],
    )
}

/// Why the report could not be put out, where all files were written.
pub fn of_report(alloc: Global, error: io::Error) -> Result<Reason, AllocError>
    ensures { IfOk result IsReason }
{
    of_sink(
        alloc,
        "{0}: {1}; the report is cut, the files are whole",
        error,
    )
}

/// Why the lines of a rehearsal could not be put out.
pub fn of_summary(alloc: Global, error: io::Error) -> Result<Reason, AllocError>
    ensures { IfOk result IsReason }
{
    of_sink(alloc, "{0}: {1}; the lines are cut", error)
}

/// Why the verdict of a check could not be put out.
pub fn of_verdict(alloc: Global, error: io::Error) -> Result<Reason, AllocError>
    ensures { IfOk result IsReason }
{
    of_sink(alloc, "{0}: {1}; the verdict is cut", error)
}

/// Why a graph could not be put out.
pub fn of_graph(alloc: Global, error: io::Error) -> Result<Reason, AllocError>
    ensures { IfOk result IsReason }
{
    of_sink(alloc, "{0}: {1}; the graph is cut", error)
}

// Why standard output could not be written, and what came of that.
fn of_sink(alloc: Global, sentence: &str, error: io::Error) -> Result<Reason, AllocError>
    ensures { IfOk result IsReason }
{
    of_file(alloc, sentence, "standard output", error, 0)
}

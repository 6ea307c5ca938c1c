//! Which ports feed a channel of a file, by the graph of a cycle.

ghost use Rattle.std.specs.Prelude.{IfOk, IfSome};
ghost use Rattle.reason_text.specs.Reasons.{IsReason};

use crate::filling::fill;
use crate::lines::{first_line, word_at};
use jack_types::{Part, Row};
use reason_text::Piece::{Number, Path, Shown};
use reason_text::Reason;
use script_words::Words;
use std::alloc::{AllocError, Global};

/// A channel of the playback or of a record, in a cycle.
#[derive(Clone, Copy, PartialEq, Eq)]
pub struct Channel {
    pub row: Row,
    /// Counted from 1.
    pub cycle: u32,
    /// Counted from 0.
    pub number: u16,
}

/// Which ports are connected to the port of a channel, and the command that shows the graph. `graph` is the text of the
/// cycle's graph; where it has no such port, there is nothing to tell.
pub fn of_feeds<'a>(
    alloc: Global,
    script: &'a str,
    report: &'a str,
    graph: &'a [u8],
    channel: Channel,
) -> Result<Option<Reason>, AllocError>
    ensures { IfOk result (λ told. IfSome told IsReason) }
{
    let Some(port) = port_of(graph, channel) else {
        return Ok(None);
    };
    let cycle = Number(u64::from(channel.cycle));
    let mut reason = Reason::new(alloc)?;
    fill(
        &mut reason,
        "in cycle {0} {1} is fed by",
        &[cycle, Shown(port)],
    )?;
    say_sources(&mut reason, graph, port)?;
    fill(
        &mut reason,
        "; jackd graph {0} {1} {2} shows all",
        &[Path(script), Path(report), cycle],
    )?;
    reason.end_line()?;
    Ok(Some(reason))
}

// The outputs that are connected to a port.
fn say_sources(reason: &mut Reason, graph: &[u8], port: &[u8]) -> Result<(), AllocError> {
    let mut rest = graph;
    let mut found = false;
    for _ in 0..graph.len() {
        if rest.is_empty() {
            break;
        }
        let (line, behind) = first_line(rest);
        if word_at(line, 0) == b"connected".as_slice() && word_at(line, 2) == port {
            fill(reason, " {0}", &[Shown(word_at(line, 1))])?;
            found = true;
        }
        rest = behind;
    }
    if found {
        return Ok(());
    }
    reason.say(" nothing")
}

// The port of a channel: the input of this number of the client that makes the file.
fn port_of(graph: &[u8], channel: Channel) -> Option<&[u8]> {
    let mut rest = graph;
    let mut is_below = false;
    let mut left = channel.number;
    for _ in 0..graph.len() {
        if rest.is_empty() {
            return None;
        }
        let (line, behind) = first_line(rest);
        rest = behind;
        if word_at(line, 0) == b"client".as_slice() {
            is_below = makes(line, channel.row);
        }
        if is_below && is_input(line) {
            if left == 0 {
                return Some(word_at(line, 1));
            }
            left -= 1;
        }
    }
    None
}

// Whether the client of a line makes a file.
fn makes(line: &[u8], row: Row) -> bool {
    if row.what == Part::Playback {
        return word_at(line, 1) == b"system".as_slice();
    }
    word_at(line, 2) == b"record".as_slice()
        && Words::of(word_at(line, 3)).any_number() == Ok(u64::from(row.number))
}

// Whether a line is that of an input of samples.
fn is_input(line: &[u8]) -> bool {
    word_at(line, 0) == b"port".as_slice()
        && word_at(line, 2) == b"in".as_slice()
        && word_at(line, 3) == b"audio".as_slice()
}

//! A capture that its session does not fit.

ghost use Rattle.std.specs.Prelude.{◌≤◌, IfOk, IfSome};
ghost use Rattle.reason_text.specs.Reasons.{IsReason};

use crate::filling::line_of;
use crate::formats::{made_by, u16_at, u32_at};
use jack_types::{Part, Row};
use reason_text::Piece::{Counted, Number, Shown};
use reason_text::Reason;
use std::alloc::{AllocError, Global};
use std::cmp::Ordering;

// A chunk's name and its size.
const CHUNK: usize = 8;

// The form's name and its size, and the word WAVE.
const FORM: usize = 12;

// The most chunks before the samples.
const MOST_CHUNKS: usize = 4096;

// What the name of each port of the capture begins with.
const PORT: &[u8; 15] = b"system:capture_";

// The least size that a program writes which can't go back to set it.
const UNSET: u32 = 0x7fff_f000;

/// A capture that was played.
#[derive(Clone, Copy, Drop)]
pub struct Capture<'a> {
    pub name: &'a str,
    /// Its first bytes.
    pub front: &'a [u8],
    /// How many bytes of it were read.
    pub read: u64,
    /// How many bytes it has, where that is known, as of a file.
    pub length: Option<u64>,
}

/// A capture that ends inside its samples, and one that has more or fewer frames than the session captures. `script` is the
/// script's text. There is nothing to tell of a capture that fits, of one that the script does not name, and of one whose
/// header does not stand in its first bytes.
pub fn of_capture(
    alloc: Global,
    capture: Capture<'_>,
    script: &[u8],
) -> Result<Option<Reason>, AllocError>
    ensures { IfOk result (λ told. IfSome told IsReason) }
{
    let (Some(samples), Some(wanted)) = (samples_in(capture.front), captured_by(script)) else {
        return Ok(None);
    };
    let there = samples.there(capture, wanted);
    let promised = samples.promised.unwrap_or(there);
    let frames = samples.frames_in(there.min(promised));
    let Some(sentence) = sentence(there < promised, frames, wanted) else {
        return Ok(None);
    };
    let reason = line_of(
        alloc,
        sentence,
        &[
            Shown(capture.name.as_bytes()),
            Number(there),
            Counted(promised, "byte", "bytes"),
            Number(frames),
            Counted(frames, "frame", "frames"),
            Number(wanted),
            Counted(wanted, "frame", "frames"),
        ],
    )?;
    Ok(Some(reason))
}

// What is told of a capture that ends inside its data or not, and of its frames beside those that the session captures.
fn sentence(is_cut: bool, frames: u64, wanted: u64) -> Option<&'static str> {
    match (is_cut, frames.cmp(&wanted)) {
        (false, Ordering::Equal) => None,
        (false, Ordering::Less) => Some(
            "{0}: has {3} of the {6} that the session captures, and silence follows",
        ),
        (false, Ordering::Greater) => {
            Some("{0}: has {4}, and the session captures the first {5}")
        }
        (true, Ordering::Equal) => Some("{0}: ends inside its data: {1} of {2} are there"),
        (true, Ordering::Less) => Some(
            "{0}: ends inside its data: {1} of {2} are there; it has {3} of the {6} that the session captures, and silence follows",
        ),
        (true, Ordering::Greater) => Some(
            "{0}: ends inside its data: {1} of {2} are there; it has {4}, and the session captures the first {5}",
        ),
    }
}

// How many frames the session captures, where it hears them: as many as it plays back.
fn captured_by(script: &[u8]) -> Option<u64> {
    if !names_capture(script) {
        return None;
    }
    let playback = Row {
        what: Part::Playback,
        number: 0,
        place: 0,
    };
    made_by(script, playback)?.frames
}

// Whether a port of the capture stands in a script.
fn names_capture(script: &[u8]) -> bool {
    for place in 0..script.len() {
        if script[place..].starts_with(PORT.as_slice()) {
            return true;
        }
    }
    false
}

// The samples of a file.
#[derive(Clone, Copy, Drop)]
struct Samples {
    // How many bytes stand before them.
    start: u64,
    // How many bytes they have by the header, where it tells.
    promised: Option<u64>,
    // The bytes of a frame, 1 at least.
    width: u64,
    ghost divides: { 1 ≤ width },
}

impl Samples {
    // How many frames so many bytes are.
    fn frames_in(&self, bytes: u64) -> u64 {
        bytes / self.width
    }

    // How many bytes of them are there. A pipe's are known as far as they were read.
    fn there(&self, capture: Capture<'_>, wanted: u64) -> u64 {
        if let Some(length) = capture.length {
            return length.saturating_sub(self.start);
        }
        let read = capture.read.saturating_sub(self.start);
        match self.promised {
            Some(promised) if read >= wanted.saturating_mul(self.width) => promised,
            _ => read,
        }
    }
}

// The samples of a WAVE file, by its first bytes.
fn samples_in(front: &[u8]) -> Option<Samples> {
    let mut at = FORM;
    let mut width = 0;
    for _ in 0..MOST_CHUNKS {
        if front.len() < CHUNK || at > front.len() - CHUNK {
            return None;
        }
        let size = u32_at(front, at + 4);
        if &front[at..at + 4] == b"data".as_slice() {
            return samples_at(at + CHUNK, size, width);
        }
        if &front[at..at + 4] == b"fmt ".as_slice() && front.len() - at >= CHUNK + 14 {
            width = u16_at(front, at + CHUNK + 12);
        }
        at = behind(at, size)?;
    }
    None
}

// Where the chunk behind one of this size stands. A chunk of an odd size has a byte more.
fn behind(at: usize, size: u32) -> Option<usize> {
    let padded = (size as usize).checked_add((size % 2) as usize)?;
    at.checked_add(CHUNK)?.checked_add(padded)
}

fn samples_at(start: usize, size: u32, width: u16) -> Option<Samples> {
    if width == 0 {
        return None;
    }
    let promised = if size < UNSET {
        Some(u64::from(size))
    } else {
        None
    };
    Some(Samples {
        start: start as u64,
        promised,
        width: u64::from(width),
    })
}

//! The formats of files that are made, by the script and by their headers.

ghost use Rattle.std.specs.Prelude.{◌≡◌, ◌+◌, ◌≤◌, length};
ghost use Rattle.session_model.specs.WaveFiles.{u16_at as u16_number, u32_at as u32_number};

use crate::lines::readable;
use jack_types::{Format, Part, Row};
use script_words::{Lines, Words};

/// How many bytes stand before the samples.
pub const HEADER: usize = 44;

// The most bytes of a script.
const MOST_BYTES: usize = 1_048_576;

/// A file of a session: how its samples are stored, and how many frames it has, where the script alone tells that.
#[derive(Clone, Copy, PartialEq, Eq)]
pub struct Made {
    pub format: Format,
    pub frames: Option<u64>,
}

impl Made {
    /// Whether the header in the first bytes of a file says the same.
    pub fn has_header(&self, front: &[u8]) -> bool {
        match made_in(front) {
            Some(made) => {
                made.format == self.format && (self.frames.is_none() || made.frames == self.frames)
            }
            None => false,
        }
    }
}

/// The playback or a record, by the script's text, as far as that can be read again.
pub fn made_by(text: &[u8], row: Row) -> Option<Made> {
    let mut lines = Lines::of(readable(text));
    let mut found = Reading::new(row);
    for _ in 0..MOST_BYTES {
        match lines.take() {
            Some(line) => found.hear(line.words),
            None => return found.made(),
        }
    }
    None
}

/// What the header of a file says that a play made, by its first bytes.
pub fn made_in(front: &[u8]) -> Option<Made> {
    if front.len() < HEADER {
        return None;
    }
    let align = u64::from(u16_at(front, 32));
    if align == 0 {
        return None;
    }
    let format = Format {
        rate: u32_at(front, 24),
        channels: u16_at(front, 22),
        bits: u16_at(front, 34),
    };
    let frames = u64::from(u32_at(front, 40)) / align;
    Some(Made {
        format,
        frames: Some(frames),
    })
}

/// The number in two bytes at a place.
pub fn u16_at(bytes: &[u8], at: usize) -> u16
    requires { at + 2 ≤ length bytes.now }
    ensures { result ≡ u16_number bytes.now at }
{
    u16::from_le_bytes([bytes[at], bytes[at + 1]])
}

/// The number in four bytes at a place.
pub fn u32_at(bytes: &[u8], at: usize) -> u32
    requires { at + 4 ≤ length bytes.now }
    ensures { result ≡ u32_number bytes.now at }
{
    u32::from_le_bytes([bytes[at], bytes[at + 1], bytes[at + 2], bytes[at + 3]])
}

// What was read so far of a script, for one of its files.
#[derive(Drop)]
struct Reading {
    row: Row,
    rate: u64,
    period: u64,
    frames: u64,
    // How many recorders were met.
    recorders: u32,
    // The channels and the bits.
    stored: Option<(u64, u64)>,
}

impl Reading {
    fn new(row: Row) -> Reading {
        Reading {
            row,
            rate: 0,
            period: 0,
            frames: 0,
            recorders: 0,
            stored: None,
        }
    }

    // Takes a line of the script.
    fn hear(&mut self, mut words: Words) {
        let Ok(name) = words.word() else {
            return;
        };
        if name == b"rate".as_slice() {
            self.rate = number_in(&mut words);
        } else if name == b"period".as_slice() {
            self.period = number_in(&mut words);
        } else if name == b"run".as_slice() {
            let cycles = number_in(&mut words);
            self.frames = self
                .frames
                .saturating_add(cycles.saturating_mul(self.period));
        } else if name == b"playback".as_slice() {
            self.hear_file(words, Part::Playback, 0);
        } else if name == b"recorder".as_slice() {
            let number = self.recorders;
            self.recorders = number.saturating_add(1);
            self.hear_file(words, Part::Record, number);
        }
    }

    // Takes the channels and bits of a file, if it is the one that is looked for.
    fn hear_file(&mut self, mut words: Words, part: Part, number: u32) {
        if self.row.what == part && self.row.number == number {
            let channels = number_in(&mut words);
            self.stored = Some((channels, number_in(&mut words)));
        }
    }

    // The file, where its line was met.
    fn made(&self) -> Option<Made> {
        let (channels, bits) = self.stored?;
        let format = Format {
            rate: u32::try_from(self.rate).ok()?,
            channels: u16::try_from(channels).ok()?,
            bits: u16::try_from(bits).ok()?,
        };
        let frames = if self.row.what == Part::Playback {
            Some(self.frames)
        } else {
            None
        };
        Some(Made { format, frames })
    }
}

/// The number that stands next, or 0 where none does.
pub fn number_in(words: &mut Words) -> u64 {
    match words.any_number() {
        Ok(number) => number,
        Err(_) => 0,
    }
}

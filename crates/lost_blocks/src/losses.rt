//! What is noted of the recorders and the disks of a report.

ghost use Rattle.std.specs.Prelude.{◌≡◌, ◌||◌, length, slice_set};
ghost use Rattle.script_words.specs.Reads.{Reads};
ghost use Rattle.lost_blocks.specs.Losses.{any_missed, counts_row, heard_with, is_told, miss_row, none_noted, stream_at, stream_of, with_counts, with_first, with_miss};

use jack_types::Cause;
use script_words::Words;
use std::marker::Model;

/// How many recorders a session has at most, and how many disks.
pub const MOST_OWNERS: usize = 4;

/// Whose blocks a report counts: a recorder's or a disk's, by its number from 0.
#[derive(Clone, Copy, PartialEq, Eq)]
pub enum Owner {
    Recorder(usize),
    Disk(usize),
}

/// What a report tells of a recorder or of a disk.
#[derive(Clone, Copy)]
pub struct Stream {
    /// How many blocks a recorder's file has, or were played of a disk's.
    pub blocks: u64,
    /// How many blocks a recorder lost, or how many underruns a disk had.
    pub missed: u64,
    /// The first cycle whose block was lost, or that was an underrun, or 0.
    pub first: u64,
}

/// What a report tells of its recorders and of its disks. Contracts see the four of each, with zeros where it tells nothing.
#[derive(Drop)]
pub struct Losses {
    recorders: [Stream; 4],
    disks: [Stream; 4],
}

impl Model for Losses {
    ghost use Rattle.std.specs.Prelude.{◌≡◌, length};
    ghost use Rattle.lost_blocks.specs.Losses.{Noted};

    ghost Value = { Noted };

    ghost view = { λ l. record { recorders = l.recorders; disks = l.disks } };

    ghost invariant = { λ l. (length l.recorders ≡ 4) × (length l.disks ≡ 4) };
}

// An owner of which nothing is told.
const NONE: Stream = Stream {
    blocks: 0,
    missed: 0,
    first: 0,
};

// An owner's number and its counts, from the words behind the name of its line.
fn counts_in(words: &mut Words) -> Result<(u64, Stream), Cause>
    ensures { Reads result words.new (counts_row words.old) }
{
    let number = words.any_number()?;
    let blocks = words.any_number()?;
    let missed = words.any_number()?;
    let stream = Stream {
        blocks,
        missed,
        first: 0,
    };
    Ok((number, stream))
}

// An owner's number and the cycle that missed a block, from the words behind the name of a missed block's line.
fn miss_in(words: &mut Words) -> Result<(u64, u64), Cause>
    ensures { Reads result words.new (miss_row words.old) }
{
    let number = words.any_number()?;
    let cycle = words.any_number()?;
    Ok((number, cycle))
}

// Keeps the counts of an owner.
#[tactic(auto, using(std::proofs::lemmas::List::set_past))]
fn set_counts(streams: &mut [Stream; 4], number: u64, stream: Stream)
    ensures { streams.new ≡ slice_set streams.old number stream }
{
    if number < MOST_OWNERS as u64 {
        streams[number as usize] = stream;
    }
}

// Keeps the cycle that missed a block, where it is the owner's first.
#[tactic(auto, using(std::proofs::lemmas::List::set_past))]
fn set_first(streams: &mut [Stream; 4], number: u64, cycle: u64)
    ensures { streams.new ≡ with_first streams.old number cycle }
{
    if number < MOST_OWNERS as u64 && streams[number as usize].first == 0 {
        streams[number as usize].first = cycle;
    }
}

// Notes the counts that stand behind the name of an owner's line.
fn note_counts(streams: &mut [Stream; 4], words: &mut Words)
    ensures { streams.new ≡ with_counts streams.old (counts_row words.old) }
{
    if let Ok((number, stream)) = counts_in(words) {
        set_counts(streams, number, stream);
    }
}

// Notes the cycle that stands behind the name of a missed block's line.
fn note_miss(streams: &mut [Stream; 4], words: &mut Words)
    ensures { streams.new ≡ with_miss streams.old (miss_row words.old) }
{
    if let Ok((number, cycle)) = miss_in(words) {
        set_first(streams, number, cycle);
    }
}

// What is kept of an owner, or zeros where there is none of this number.
fn stream_in(streams: &[Stream; 4], number: usize) -> Stream
    ensures { result ≡ stream_at streams.now number }
{
    if number < MOST_OWNERS {
        streams[number]
    } else {
        NONE
    }
}

// Whether one of these missed a block.
fn has_missed(streams: &[Stream; 4]) -> bool
    ensures { result ≡ any_missed streams.now }
{
    streams.iter().any(|stream| stream.missed != 0)
}

impl Losses {
    /// Nothing is noted yet.
    pub fn new() -> Losses
        ensures { result ≡ none_noted }
    {
        Losses {
            recorders: [NONE; 4],
            disks: [NONE; 4],
        }
    }

    /// What is noted of a recorder or of a disk; zeros where nothing is.
    pub fn of(&self, owner: Owner) -> Stream
        ensures { result ≡ stream_of self.now owner }
    {
        match owner {
            Owner::Recorder(number) => stream_in(&self.recorders, number),
            Owner::Disk(number) => stream_in(&self.disks, number),
        }
    }

    /// Whether a recorder lost a block, or a disk had an underrun.
    pub fn has_any(&self) -> bool
        ensures { result ≡ any_missed self.now.recorders || any_missed self.now.disks }
    {
        has_missed(&self.recorders) || has_missed(&self.disks)
    }

    /// Hears a line of a report, without its end, and answers whether it is one of a recorder or of a disk, or of a block that
    /// one of them missed.
    pub fn hear(&mut self, line: &[u8]) -> bool
        ensures heard { self.new ≡ heard_with self.old line.now }
        ensures told { result ≡ is_told line.now }
    {
        let mut words = Words::of(line);
        let Ok(first) = words.word() else {
            return false;
        };
        if first == b"recorder".as_slice() {
            note_counts(&mut self.recorders, &mut words);
        } else if first == b"overrun".as_slice() {
            note_miss(&mut self.recorders, &mut words);
        } else if first == b"disk".as_slice() {
            note_counts(&mut self.disks, &mut words);
        } else if first == b"underrun".as_slice() {
            note_miss(&mut self.disks, &mut words);
        } else {
            return false;
        }
        true
    }
}

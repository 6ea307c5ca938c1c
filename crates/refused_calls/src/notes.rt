//! What is noted of the calls of a report.

ghost use Rattle.std.specs.Prelude.{◌≡◌, ◌≤◌, [], length};
ghost use Rattle.script_words.specs.Reads.{Reads};
ghost use Rattle.refused_calls.specs.Calls.{counted, heard_with, may_follow, noted, refusal_at, refused_call};

use jack_types::{Cause, Refusal};
use script_words::Words;
use std::marker::Model;

/// How many refused calls are noted, of those that there are.
pub const MOST_NOTED: usize = 20;

/// A call that was refused: its lane, its number among the calls of the lane, counted from 1, and why.
#[derive(Clone, Copy, PartialEq, Eq)]
pub struct Refused {
    pub lane: u64,
    pub index: u64,
    pub refusal: Refusal,
}

/// The first refused calls of a report, how many were refused, and how many calls there were. Contracts see what was `Heard`.
#[derive(Drop)]
pub struct Notes {
    first: [Refused; 20],
    noted: usize,
    refused: u64,
    calls: u64,
}

impl Model for Notes {
    ghost use Rattle.std.specs.Prelude.{◌≤◌, take};
    ghost use Rattle.refused_calls.specs.Calls.{Heard};

    ghost Value = { Heard };

    ghost view = { λ n. record { first = take n.noted n.first; refused = n.refused; calls = n.calls } };

    ghost invariant = { λ n. n.noted ≤ 20 };
}

// The call that stands where none is noted.
const NONE: Refused = Refused {
    lane: 0,
    index: 0,
    refusal: Refusal::NoClient,
};

// The refusal of a number.
fn refusal_of(number: u64) -> Option<Refusal>
    ensures { result ≡ refusal_at number }
{
    match number {
        1 => Some(Refusal::NoClient),
        2 => Some(Refusal::NoPort),
        3 => Some(Refusal::IsOpen),
        4 => Some(Refusal::IsSystem),
        5 => Some(Refusal::NameTaken),
        6 => Some(Refusal::AlreadyActive),
        7 => Some(Refusal::NotActive),
        8 => Some(Refusal::ClientsFull),
        9 => Some(Refusal::PortsFull),
        10 => Some(Refusal::NoSource),
        11 => Some(Refusal::NoDestination),
        12 => Some(Refusal::NotOutput),
        13 => Some(Refusal::NotInput),
        14 => Some(Refusal::TypeDiffers),
        15 => Some(Refusal::Inactive),
        16 => Some(Refusal::Exists),
        17 => Some(Refusal::Full),
        18 => Some(Refusal::NotConnected),
        19 => Some(Refusal::Busy),
        20 => Some(Refusal::NotMaster),
        21 => Some(Refusal::InUse),
        _ => None,
    }
}

// The refused call that the words behind `call` tell of.
fn refused_in(words: &mut Words) -> Result<Refused, Cause>
    ensures { Reads result words.new (refused_call words.old) }
{
    let lane = words.any_number()?;
    let index = words.any_number()?;
    let answer = words.word()?;
    if answer != b"refused".as_slice() {
        return Err(Cause::Unknown);
    }
    let number = words.any_number()?;
    match refusal_of(number) {
        Some(refusal) => Ok(Refused {
            lane,
            index,
            refusal,
        }),
        None => Err(Cause::Unknown),
    }
}

impl Notes {
    /// Nothing is noted yet.
    pub fn new() -> Notes
        ensures { result ≡ record { first = []; refused = 0; calls = 0 } }
    {
        Notes {
            first: [NONE; 20],
            noted: 0,
            refused: 0,
            calls: 0,
        }
    }

    /// The first refused calls, at most 20, in the report's order.
    pub fn first(&self) -> &[Refused]
        ensures value { result.now ≡ self.now.first }
        ensures few { length result.now ≤ 20 }
    {
        &self.first[..self.noted]
    }

    /// How many calls were refused.
    pub fn refused(&self) -> u64
        ensures { result ≡ self.now.refused }
    {
        self.refused
    }

    /// How many calls there were.
    pub fn calls(&self) -> u64
        ensures { result ≡ self.now.calls }
    {
        self.calls
    }

    // Notes a refused call, where there is room for it.
    fn note(&mut self, call: Refused)
        ensures { self.new ≡ record { first = noted self.old.first call; refused = counted self.old.refused; calls = self.old.calls } }
    {
        self.refused = self.refused.saturating_add(1);
        if self.noted < MOST_NOTED {
            self.first[self.noted] = call;
            self.noted += 1;
        }
    }

    /// Hears a line of a report, without its end, and answers whether lines of calls may follow.
    ///
    /// A line of another kind is not noted, and no refused call behind the twentieth.
    pub fn hear(&mut self, line: &[u8]) -> bool
        ensures heard { self.new ≡ heard_with self.old line.now }
        ensures follow { result ≡ may_follow line.now }
    {
        let mut words = Words::of(line);
        let Ok(first) = words.word() else {
            return false;
        };
        if first != b"call".as_slice() {
            return first == b"report".as_slice();
        }
        self.calls = self.calls.saturating_add(1);
        if let Ok(call) = refused_in(&mut words) {
            self.note(call);
        }
        true
    }
}

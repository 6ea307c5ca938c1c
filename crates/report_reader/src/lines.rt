//! The lines of a source.

ghost use Rattle.std.specs.Prelude.{◌≡◌, ◌∷◌, ◌++◌, [], IfOk, OnErr, length};
ghost use Rattle.jack_host.specs.Causes.{HasCause};
ghost use Rattle.report_reader.specs.Lefts.{IsNextBy, IsShort, TakesText};
ghost use Rattle.report_reader.specs.Nexts.{IsNext, LeavesEnd, TakesNext};

use crate::bytes::Bytes;
use crate::reading::line_of;
use crate::rows::Line;
use jack_host::{ReadFailed, Source};
use std::marker::Model;

/// The most bytes that a line has, without its LF.
pub const MOST_BYTES: usize = 512;

/// What a source gives next: a line of a report, a line of no form, or its end.
/// A line without an LF, or of more than 512 bytes before it, is of no form.
#[derive(Clone, Copy, PartialEq, Eq)]
pub enum Next {
    Line(Line),
    Other,
    End,
}

// How a line ends: with its LF or with the source, behind so many bytes, or not within 512; the byte is the 513th.
#[derive(Clone, Copy)]
pub enum Ending {
    Whole(usize),
    Cut(usize),
    TooLong(u8),
}

/// The lines of a source that are not read yet. Contracts see its bytes and its count of faults.
///
/// After a failed read, part of a line may be gone: then only `into_source` is of use.
#[derive(Drop)]
pub struct Lines<S: Source> {
    bytes: Bytes<S>,
    text: [u8; MOST_BYTES],
}

impl<S: Source> Model for Lines<S> {
    ghost use Rattle.report_reader.specs.Nexts.{Unread};

    ghost Value = { Unread };

    ghost view = { λ lines. lines.bytes };
}

// Takes the bytes of a line, at most 513.
fn take_text<S: Source>(
    bytes: &mut Bytes<S>,
    text: &mut [u8; MOST_BYTES],
) -> Result<Ending, ReadFailed>
    ensures text { IfOk result (λ e. TakesText bytes.old.left bytes.new.left text.new e) }
    ensures short { IfOk result IsShort }
    ensures size { length text.new ≡ 512 }
    ensures part { OnErr result (LeavesEnd bytes.old.left bytes.new.left) }
    ensures cause { HasCause bytes.old.faults bytes.new.faults result }
{
    let mut len = 0;
    'taking: while len < MOST_BYTES {
        let byte = bytes.take()?;
        match byte {
            None => return Ok(Ending::Cut(len)),
            Some(b'\n') => return Ok(Ending::Whole(len)),
            Some(other) => {
                text[len] = other;
                len += 1;
            }
        }
    }
    let last = bytes.take()?;
    match last {
        None => Ok(Ending::Cut(len)),
        Some(b'\n') => Ok(Ending::Whole(len)),
        Some(other) => Ok(Ending::TooLong(other)),
    }
}

// What a text is, of which so many bytes stand before its LF.
fn next_of(text: &[u8]) -> Next
    ensures { IsNext (text.now ++ 10 ∷ []) result }
{
    match line_of(text) {
        Some(line) => Next::Line(line),
        None => Next::Other,
    }
}

// What a text is, by how it ends.
fn next_by(ending: Ending, text: &[u8; MOST_BYTES]) -> Next
    requires { IsShort ending }
    ensures { IsNextBy text.now ending result }
{
    match ending {
        Ending::Whole(len) => next_of(&text[..len]),
        Ending::Cut(0) => Next::End,
        Ending::Cut(_) => Next::Other,
        Ending::TooLong(_) => Next::Other,
    }
}

impl<S: Source> Lines<S> {
    /// The lines of a source.
    pub fn of(source: S) -> Lines<S>
        ensures left { result.left ≡ S.left source }
        ensures faults { result.faults ≡ S.faults source }
    {
        Lines {
            bytes: Bytes::of(source),
            text: [0; MOST_BYTES],
        }
    }

    /// The source. What was read from it and not taken is gone.
    pub fn into_source(self) -> S
        ensures left { LeavesEnd self.left (S.left result) }
        ensures faults { S.faults result ≡ self.faults }
    {
        self.bytes.into_source()
    }

    /// The next line.
    #[tactic(auto, using(crate::proofs::NextLemmas::taken_next))]
    pub fn next(&mut self) -> Result<Next, ReadFailed>
        ensures next { IfOk result (λ n. TakesNext self.old.left self.new.left n) }
        ensures part { OnErr result (LeavesEnd self.old.left self.new.left) }
        ensures cause { HasCause self.old.faults self.new.faults result }
    {
        let ending = take_text(&mut self.bytes, &mut self.text)?;
        Ok(next_by(ending, &self.text))
    }
}

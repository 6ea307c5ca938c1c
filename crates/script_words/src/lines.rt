//! The lines of a text that are said.

ghost use Rattle.std.specs.Prelude.{◌≡◌, ◌+◌, ◌≤◌, ◌∷◌, [], IfNone, IfSome, MatchOption, None, Some, length};
ghost use Rattle.script_words.specs.Remaining.{begins_front, begun_line, place, remaining_from};

use crate::bytes::{begins_with, first_piece, is_said, without_cr};
use crate::words::Words;
use std::marker::Model;

/// The lines of a text that are not read yet, without those that say nothing. Contracts see the
/// lines with their numbers and words, and the number of the line behind the text's last.
#[derive(Drop)]
pub struct Lines<'a> {
    /// The number of the line in front; without one, that of the line behind the last.
    number: u32,
    front: Option<&'a [u8]>,
    rest: &'a [u8],
}

impl<'a> Model for Lines<'a> {
    ghost use Rattle.std.specs.Prelude.{◌≡◌, ◌+◌, ◌≤◌, ℕ, Option, Some, None, length};
    ghost use Rattle.std.specs.Option.{option_map};
    ghost use Rattle.script_words.specs.Remaining.{Remaining, in_front, with_front};

    ghost Value = { Remaining };

    ghost view = { λ l. with_front l.number (option_map (λ text. text.now) l.front) l.rest.now };

    ghost invariant = { λ l. l.number + in_front l.front + length l.rest.now ≤ 2000000 };
}

/// A line that is said, with its number in the text and words that are not read yet.
#[derive(Drop)]
pub struct Line<'a> {
    pub number: u32,
    pub words: Words<'a>,
}

impl<'a> Lines<'a> {
    /// The lines of a text, counted from 1.
    pub fn of(text: &'a [u8]) -> Lines<'a>
        requires { length text.now ≤ 1048576 }
        ensures { result ≡ remaining_from 1 text.now }
    {
        Lines::from(text, 1)
    }

    /// The number of the line in front. Without one, that of the line behind the text's last.
    pub fn number(&self) -> u32
        ensures { result ≡ place self.now }
    {
        self.number
    }

    /// Takes the line in front, and goes on to the next line that is said.
    pub fn take(&mut self) -> Option<Line<'a>>
        ensures taken { MatchOption result (self.old.lines ≡ []) (λ l. self.old.lines ≡ record { number = l.number; words = l.words } ∷ self.new.lines) }
        ensures end { self.new.end ≡ self.old.end }
    {
        let line = self.front?;
        let number = self.number;
        let next = Lines::from(self.rest, number + 1);
        self.number = next.number;
        self.front = next.front;
        self.rest = next.rest;
        Some(Line {
            number,
            words: Words::of(line),
        })
    }

    /// Takes the line in front if its first word is this name. Its words are those behind the name.
    pub fn take_begun(&mut self, name: &[u8]) -> Option<Line<'a>>
        ensures none { IfNone result ((begun_line name.now self.old.lines ≡ None) × (self.new ≡ self.old)) }
        ensures some { IfSome result (λ l. begun_line name.now self.old.lines ≡ Some (record { number = l.number; words = l.words }, self.new.lines)) }
        ensures end { self.new.end ≡ self.old.end }
    {
        if !self.begins(name) {
            return None;
        }
        let mut line = self.take()?;
        line.words.skip();
        Some(line)
    }

    /// Whether the first word of the line in front is this name.
    fn begins(&self, name: &[u8]) -> bool
        ensures { result ≡ begins_front name.now self.now.lines }
    {
        match self.front {
            Some(line) => begins_with(line, name),
            None => false,
        }
    }

    /// The lines of a text whose first line has this number.
    fn from(text: &'a [u8], number: u32) -> Lines<'a>
        requires { number + length text.now ≤ 2000000 }
        ensures { result ≡ remaining_from number text.now }
    {
        let mut rest = text;
        let mut number = number;
        while let Some((piece, after)) = first_piece(rest) {
            let line = without_cr(piece);
            if is_said(line) {
                return Lines {
                    number,
                    front: Some(line),
                    rest: after,
                };
            }
            rest = after;
            number += 1;
        }
        Lines {
            number,
            front: None,
            rest,
        }
    }
}

//! The words of a line, read from the left.

ghost use Rattle.std.specs.Prelude.{◌≡◌, ◌<◌, ◌==◌, ◌^◌, ◌≤◌, ◌≤ℤ◌, IfOk, MatchResult, Ok, Err, drop, length, pos};
ghost use Rattle.script_words.specs.Midi.{midi};
ghost use Rattle.script_words.specs.Reads.{Reads};
ghost use Rattle.session_model.specs.Reading.{any_number, client, number_up_to, period, port, signed_number, word};

use crate::bytes::first_word;
use crate::hexed::event_of;
use crate::numbers::{is_period, number_of, signed_of};
use session_model::jack_types::{Cause, ClientName, Event, PortName};
use std::marker::Model;

/// The words of a line that are not read yet. Contracts see their list.
///
/// Each call reads from the left. After an `Err` it is not said which words are left.
#[derive(Drop)]
pub struct Words<'a> {
    rest: &'a [u8],
}

impl<'a> Model for Words<'a> {
    ghost use Rattle.std.specs.Prelude.{List, ℕ};
    ghost use Rattle.session_model.specs.Texts.{words};

    ghost Value = { List (List ℕ) };

    ghost view = { λ w. words w.rest.now };
}

impl<'a> Words<'a> {
    ghost use Rattle.session_model.specs.Texts.{words};

    /// The words of a line.
    pub fn of(line: &'a [u8]) -> Words<'a>
        ensures { result ≡ words line.now }
    {
        Words { rest: line }
    }

    /// Whether no word is left.
    pub fn is_empty(&self) -> bool
        ensures { result ≡ (length self.now == 0) }
    {
        match first_word(self.rest) {
            Some(_) => false,
            None => true,
        }
    }

    /// The next word.
    pub fn word(&mut self) -> Result<&'a [u8], Cause>
        ensures { MatchResult result (λ w. word self.old ≡ Ok (w.now, self.new)) (λ cause. word self.old ≡ Err cause) }
    {
        match first_word(self.rest) {
            Some((word, rest)) => {
                self.rest = rest;
                Ok(word)
            }
            None => Err(Cause::Words),
        }
    }

    /// Goes on behind the next word, if there is one.
    pub fn skip(&mut self)
        ensures { self.new ≡ drop 1 self.old }
    {
        if let Some((_, rest)) = first_word(self.rest) {
            self.rest = rest;
        }
    }

    /// A number without a sign, of one to ten digits.
    pub fn any_number(&mut self) -> Result<u64, Cause>
        ensures gives { Reads result self.new (any_number self.old) }
        ensures small { IfOk result (λ n. n < 10 ^ 10) }
    {
        let word = self.word()?;
        match number_of(word) {
            Some(n) => Ok(n),
            None => Err(Cause::Number),
        }
    }

    /// A number without a sign, in its range.
    #[tactic(auto, using(std::proofs::lemmas::Int::ints))]
    pub fn number(&mut self, least: i64, most: i64) -> Result<u64, Cause>
        ensures gives { Reads result self.new (number_up_to least most self.old) }
        ensures within { IfOk result (λ n. (least ≤ℤ pos n) × (pos n ≤ℤ most)) }
    {
        let n = self.any_number()?;
        let given = n as i64;
        if given < least || given > most {
            return Err(Cause::Range { given, least, most });
        }
        Ok(n)
    }

    /// The frames of a cycle: a power of two from 4 to 4,096.
    pub fn period(&mut self) -> Result<u32, Cause>
        ensures gives { Reads result self.new (period self.old) }
        ensures most { IfOk result (λ n. n ≤ 4096) }
    {
        let n = self.number(4, 4096)?;
        if !is_period(n) {
            return Err(Cause::Choice(n));
        }
        Ok(n as u32)
    }

    /// A number, maybe with a `-` in front, in its range.
    pub fn signed_number(&mut self, least: i64, most: i64) -> Result<i64, Cause>
        ensures gives { Reads result self.new (signed_number least most self.old) }
        ensures within { IfOk result (λ z. (least ≤ℤ z) × (z ≤ℤ most)) }
    {
        let word = self.word()?;
        match signed_of(word) {
            Some(given) if given < least || given > most => {
                Err(Cause::Range { given, least, most })
            }
            Some(given) => Ok(given),
            None => Err(Cause::Number),
        }
    }

    /// A client's name.
    pub fn client(&mut self) -> Result<ClientName, Cause>
        ensures { Reads result self.new (client self.old) }
    {
        let word = self.word()?;
        match ClientName::from_bytes(word) {
            Ok(name) => Ok(name),
            Err(fault) => Err(Cause::Name(fault)),
        }
    }

    /// A port's name.
    pub fn port(&mut self) -> Result<PortName, Cause>
        ensures { Reads result self.new (port self.old) }
    {
        let word = self.word()?;
        match PortName::from_bytes(word) {
            Ok(name) => Ok(name),
            Err(fault) => Err(Cause::Name(fault)),
        }
    }

    /// An event at offset 0, by its bytes.
    pub fn event(&mut self) -> Result<Event, Cause>
        ensures { Reads result self.new (midi self.old) }
    {
        let word = self.word()?;
        event_of(word)
    }
}

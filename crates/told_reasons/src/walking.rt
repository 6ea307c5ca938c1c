//! Where a line departs from its form.

use crate::forms::{AT, COMMANDS, HEADER, KINDS, LINES, MODES, SIDES, TYPES, WAYS};
use crate::nearest::name_of;
use jack_types::{ClientName, PortName};
use script_words::Words;

// No line has more words.
const MOST_WORDS: usize = 16;

/// What is chosen where a word is one of several.
#[derive(Clone, Copy, PartialEq, Eq, Debug)]
pub enum Choice {
    Line,
    Command,
    Kind,
    Mode,
    Word,
}

/// How a line departs from its form.
#[derive(Clone, Copy, Drop)]
pub enum Departure<'a> {
    /// A word is none of those that may stand there.
    Unknown(Choice, &'a [u8], &'static [&'static str]),
    /// A word of the form is missing.
    Missing(&'static str),
    /// A word stands behind the form's last.
    LeftOver(&'a [u8], &'static str),
    /// A word is no number.
    NoNumber(&'a [u8]),
    /// A word is no name of a client.
    NoClient(&'a [u8]),
    /// A word is no name of a port.
    NoPort(&'a [u8]),
    /// It does not.
    None,
}

// What may stand for a word of a form, where that is one of several.
fn choices(place: &[u8]) -> Option<(Choice, &'static [&'static str])> {
    if place == b"LINE".as_slice() {
        return Some((Choice::Line, LINES.as_slice()));
    }
    if place == b"COMMAND".as_slice() {
        return Some((Choice::Command, COMMANDS.as_slice()));
    }
    if place == b"KIND".as_slice() {
        return Some((Choice::Kind, KINDS.as_slice()));
    }
    if place == b"MODE".as_slice() {
        return Some((Choice::Mode, MODES.as_slice()));
    }
    if place == b"at".as_slice() {
        return Some((Choice::Word, AT.as_slice()));
    }
    if place == b"in|out".as_slice() {
        return Some((Choice::Word, WAYS.as_slice()));
    }
    if place == b"audio|midi".as_slice() {
        return Some((Choice::Word, TYPES.as_slice()));
    }
    if place == b"capture|playback".as_slice() {
        return Some((Choice::Word, SIDES.as_slice()));
    }
    None
}

// The form that this name begins.
fn form_of(forms: &[&'static str], name: &[u8]) -> Option<&'static str> {
    for form in forms {
        if name_of(form) == name {
            return Some(form);
        }
    }
    None
}

// Whether a word is a number, maybe with a sign.
fn is_number(word: &[u8]) -> bool {
    let digits = match word {
        [b'-', digits @ ..] => digits,
        _ => word,
    };
    !digits.is_empty() && digits.len() <= 10 && digits.iter().all(|b| b.is_ascii_digit())
}

// How a word departs from a place that no choice stands for.
fn departs<'a>(place: &[u8], word: &'a [u8]) -> Departure<'a> {
    if place == b"CLIENT".as_slice() {
        return match ClientName::from_bytes(word) {
            Ok(_) => Departure::None,
            Err(_) => Departure::NoClient(word),
        };
    }
    if place == b"CLIENT:PORT".as_slice() {
        return match PortName::from_bytes(word) {
            Ok(_) => Departure::None,
            Err(_) => Departure::NoPort(word),
        };
    }
    if place == b"HEX".as_slice() || is_number(word) {
        return Departure::None;
    }
    Departure::NoNumber(word)
}

// A form that is walked along a line.
#[derive(Drop)]
struct Walk<'a> {
    form: &'static str,
    places: Words<'static>,
    words: Words<'a>,
}

impl<'a> Walk<'a> {
    // Takes the word that is chosen out of several. Where it begins a form, that one is walked to its end.
    fn choose(
        &mut self,
        choice: Choice,
        known: &'static [&'static str],
        word: &'a [u8],
    ) -> Departure<'a> {
        let Some(form) = form_of(known, word) else {
            return Departure::Unknown(choice, word, known);
        };
        if choice != Choice::Word {
            self.form = form;
            self.places = Words::of(form.as_bytes());
            self.places.skip();
        }
        Departure::None
    }

    // Goes on by one word. `None` is the end of the form.
    fn step(&mut self) -> Option<Departure<'a>> {
        let Ok(place) = self.places.word() else {
            return None;
        };
        let Ok(word) = self.words.word() else {
            return Some(Departure::Missing(self.form));
        };
        match choices(place) {
            Some((choice, known)) => Some(self.choose(choice, known, word)),
            None => Some(departs(place, word)),
        }
    }

    // What stands behind the form's end.
    fn end(&mut self) -> Departure<'a> {
        match self.words.word() {
            Ok(word) => Departure::LeftOver(word, self.form),
            Err(_) => Departure::None,
        }
    }
}

/// The first departure of a line that stands behind so many others that say something.
pub fn departure_of(line: &[u8], place: usize) -> Departure<'_> {
    let mut words = Words::of(line);
    let mut form = "LINE";
    if place < HEADER.len() {
        form = HEADER[place];
        words.skip();
    }
    let mut places = Words::of(form.as_bytes());
    if place < HEADER.len() {
        places.skip();
    }
    let mut walk = Walk {
        form,
        places,
        words,
    };
    for _ in 0..MOST_WORDS {
        match walk.step() {
            None => return walk.end(),
            Some(Departure::None) => (),
            Some(departure) => return departure,
        }
    }
    Departure::None
}

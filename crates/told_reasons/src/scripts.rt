//! Scripts that are not played.

ghost use Rattle.std.specs.Prelude.{IfOk};
ghost use Rattle.reason_text.specs.Reasons.{IsReason};

use crate::filling::fill;
use crate::forms::{HEADER, KINDS, LINES, MODES};
use crate::lines::{line_at, readable, said_before, word_at};
use crate::nearest::{name_of, nearest};
use crate::walking::{Choice, Departure, departure_of};
use jack_types::{Cause, Many, NameFault, ScriptFault};
use reason_text::Piece::{Number, Quoted, Shown, Signed, Text};
use reason_text::Reason;
use script_words::Lines;
use std::alloc::{AllocError, Global};

// What stands before a text of another encoding, or of this one by some programs.
const MARK: &[u8; 3] = b"\xef\xbb\xbf";

const NAME: &str = "a name has 1 to 32 of A-Z a-z 0-9 . _ -";

const PORT: &str =
    "a port is CLIENT:PORT, of A-Z a-z 0-9 . _ -, the client 1 to 32 of them, 64 in all";

/// The faulty line of a script.
#[derive(Drop)]
struct Faulty<'a> {
    line: &'a [u8],
    number: u32,
    // How many lines that say something stand before it.
    place: usize,
    // The script's version, or 3 where none is said.
    version: u64,
    is_marked: bool,
}

/// Why a script is not played: its first fault, and the line's text below. `text` is the script's, as far as it can be read
/// again.
pub fn of_script(
    alloc: Global,
    name: &str,
    text: &[u8],
    fault: ScriptFault,
) -> Result<Reason, AllocError>
    ensures { IfOk result IsReason }
{
    let text = readable(text);
    let faulty = Faulty {
        line: line_at(text, fault.line),
        number: fault.line,
        place: said_before(text, fault.line),
        version: version_of(text),
        is_marked: is_marked(text),
    };
    let before = if fault.line > 0 { "{0}:{1}: " } else { "{0}: " };
    let mut reason = Reason::new(alloc)?;
    fill(
        &mut reason,
        before,
        &[Shown(name.as_bytes()), Number(u64::from(fault.line))],
    )?;
    say_cause(alloc, &mut reason, fault.cause, &faulty)?;
    if !faulty.line.is_empty() {
        reason.show_below(faulty.line)?;
    }
    reason.end_line()?;
    Ok(reason)
}

fn version_of(text: &[u8]) -> u64 {
    let Some(line) = Lines::of(readable(text)).take() else {
        return 3;
    };
    let mut words = line.words;
    words.skip();
    words.any_number().unwrap_or(3)
}

fn is_marked(text: &[u8]) -> bool {
    text.len() >= 3 && &text[..3] == MARK.as_slice()
}

fn say_cause(
    alloc: Global,
    reason: &mut Reason,
    cause: Cause,
    faulty: &Faulty<'_>,
) -> Result<(), AllocError> {
    match cause {
        Cause::Header => say_header(reason, faulty),
        Cause::Unknown => say_unknown(alloc, reason, faulty),
        Cause::Words => say_count(reason, faulty),
        Cause::Number => say_no_number(reason, faulty),
        Cause::Range { given, least, most } => say_range(reason, given, least, most),
        Cause::Name(fault) => reason.say(wrong_name(faulty, fault)),
        Cause::Choice(given) => fill(reason, wrong_choice(faulty, given), &[Number(given)]),
        Cause::Lane { before, given } => say_lane(reason, faulty, before, given),
        Cause::TooMany { what, limit } => {
            fill(reason, too_many(what), &[Number(u64::from(limit))])
        }
        Cause::TooLong if faulty.number == 0 => {
            reason.say("more than 1048576 bytes are no script")
        }
        Cause::TooLong => reason.say("more than 2000000000 bytes of samples would be played"),
        Cause::Memory => reason.say("no memory is left"),
    }
}

// A line of the header is missing, or another one stands in its place.
fn say_header(reason: &mut Reason, faulty: &Faulty<'_>) -> Result<(), AllocError> {
    if faulty.is_marked && faulty.number == 1 {
        return reason.say("begins with a byte order mark");
    }
    if faulty.place >= HEADER.len() {
        return reason.say("a line of the header is expected here");
    }
    fill(
        reason,
        "{0} is expected here",
        &[Quoted(name_of(HEADER[faulty.place]))],
    )
}

// What is said of an unknown word, by what it is chosen from.
fn unknown(choice: Choice) -> &'static str {
    match choice {
        Choice::Line => "no line {0}",
        Choice::Command => "no command {0}",
        Choice::Kind => "no kind {0}",
        Choice::Mode => "no mode {0}",
        Choice::Word => "no word {0}",
    }
}

// The names of forms, with `or` before the last.
fn say_names(reason: &mut Reason, forms: &[&str]) -> Result<(), AllocError> {
    for place in 0..forms.len() {
        let before = if place == 0 {
            "; {0}"
        } else if place + 1 == forms.len() {
            " or {0}"
        } else {
            ", {0}"
        };
        fill(reason, before, &[Shown(name_of(forms[place]))])?;
    }
    reason.say(" is expected")
}

// Those of the forms that are of a version.
fn of_version(
    choice: Choice,
    forms: &'static [&'static str],
    version: u64,
) -> &'static [&'static str] {
    match (choice, version) {
        (Choice::Line, 1) => &LINES[..7],
        (Choice::Line, 2) => &LINES[..8],
        (Choice::Kind, 1 | 2) => &KINDS[..9],
        (Choice::Mode, 1 | 2) => &MODES[..2],
        _ => forms,
    }
}

// A word is none of those that may stand there.
fn say_unknown(alloc: Global, reason: &mut Reason, faulty: &Faulty<'_>) -> Result<(), AllocError> {
    let Departure::Unknown(choice, word, known) = departure_of(faulty.line, faulty.place) else {
        return say_elsewhere(reason, faulty);
    };
    fill(reason, unknown(choice), &[Quoted(word)])?;
    let forms = of_version(choice, known, faulty.version);
    match nearest(alloc, word, forms)? {
        Some(name) => fill(reason, "; is {0} meant?", &[Quoted(name)]),
        None => say_names(reason, forms),
    }
}

// A word is one that stands elsewhere, or in another version.
fn say_elsewhere(reason: &mut Reason, faulty: &Faulty<'_>) -> Result<(), AllocError> {
    let name = word_at(faulty.line, 0);
    let (sentence, word) = if faulty.place < HEADER.len() {
        new_mode(word_at(faulty.line, 1))
    } else if name == b"period".as_slice() {
        (
            "\"period\" stands in the body from version 2 on, without disks",
            name,
        )
    } else if is_optional(name) {
        (
            "{0} is a line of the header, and not in this place or version",
            name,
        )
    } else {
        new_kind(faulty.line)
    };
    fill(reason, sentence, &[Quoted(word)])
}

fn is_optional(name: &[u8]) -> bool {
    for form in &LINES[4..] {
        if name_of(form) == name {
            return true;
        }
    }
    false
}

fn new_mode(mode: &[u8]) -> (&'static str, &[u8]) {
    if name_of(MODES[2]) == mode {
        ("mode {0} is of version 3", mode)
    } else {
        ("a word is not known here", mode)
    }
}

fn new_kind(line: &[u8]) -> (&'static str, &[u8]) {
    for place in 0..9 {
        let word = word_at(line, place);
        if is_new_kind(word) {
            return ("kind {0} is of version 3", word);
        }
    }
    ("a word is not known here", line)
}

fn is_new_kind(word: &[u8]) -> bool {
    for form in &KINDS[9..] {
        if name_of(form) == word {
            return true;
        }
    }
    false
}

// A word is missing or left over.
fn say_count(reason: &mut Reason, faulty: &Faulty<'_>) -> Result<(), AllocError> {
    match departure_of(faulty.line, faulty.place) {
        Departure::Missing(form) => fill(reason, "a word is missing: {0}", &[Text(form)]),
        Departure::LeftOver(word, form) => {
            fill(reason, left_over(word), &[Quoted(word), Text(form)])
        }
        _ => reason.say("a word is missing or left over"),
    }
}

// What is said of a word that is left over, which may be meant as a comment.
fn left_over(word: &[u8]) -> &'static str {
    match word {
        [b'#', ..] => "{0} is left over: {1}; a comment is a line of its own",
        _ => "{0} is left over: {1}",
    }
}

// What is said of a word that is no number, which may be meant as a fraction.
fn no_number(word: &[u8]) -> &'static str {
    if word.contains(&b'.') {
        "{0} is no number of 1 to 10 digits: numbers are whole, and a gain of a half is \"gain 1 1\""
    } else {
        "{0} is no number of 1 to 10 digits"
    }
}

// A word is no number, or no bytes in hexadecimal.
fn say_no_number(reason: &mut Reason, faulty: &Faulty<'_>) -> Result<(), AllocError> {
    match departure_of(faulty.line, faulty.place) {
        Departure::NoNumber(word) => { fill(reason, no_number(word), &[Quoted(word)]) }
        _ if word_at(faulty.line, 0) == b"event".as_slice() => {
            reason.say("an event is 1 to 16 bytes, each two lower-case hexadecimal digits")
        }
        _ => reason.say("a number of 1 to 10 digits is expected, without a sign"),
    }
}

// A number is outside its range.
fn say_range(reason: &mut Reason, given: i64, least: i64, most: i64) -> Result<(), AllocError> {
    let sentence = if most < least {
        "\"{0}\" is the number of none: the header has no such line"
    } else {
        "\"{0}\" is outside {1} to {2}"
    };
    fill(
        reason,
        sentence,
        &[Signed(given), Signed(least), Signed(most)],
    )
}

// What is said of a name that is refused.
fn wrong_name(faulty: &Faulty<'_>, fault: NameFault) -> &'static str {
    match departure_of(faulty.line, faulty.place) {
        Departure::NoPort(_) => PORT,
        Departure::NoClient(_) => NAME,
        _ if fault == NameFault::NoColon => PORT,
        _ => NAME,
    }
}

// What is said of a number that is in its range and none of the lawful ones.
fn wrong_choice(faulty: &Faulty<'_>, given: u64) -> &'static str {
    let name = word_at(faulty.line, 0);
    if name == b"jackd".as_slice() && given == 3 {
        "a session with disk files is played, and not checked yet"
    } else if name == b"jackd".as_slice() {
        "version {0} is none; 1, 2 and 3 are"
    } else if name == b"period".as_slice() {
        "{0} is no power of two"
    } else if name == b"event".as_slice() {
        "an event's first byte is 80 to ff"
    } else {
        "{0} bits are not 8, 16, 24 or 32"
    }
}

// A lane's call asks for fewer cycles than the one before it, or has no segment.
fn say_lane(
    reason: &mut Reason,
    faulty: &Faulty<'_>,
    before: u32,
    given: u64,
) -> Result<(), AllocError> {
    let sentence = if before == 0 {
        "no \"run\" or \"freewheel\" line is open before this call of a lane"
    } else {
        "cycle {0} falls behind {1}, the call before of lane {2}"
    };
    fill(
        reason,
        sentence,
        &[
            Number(given),
            Number(u64::from(before)),
            Shown(word_at(faulty.line, 1)),
        ],
    )
}

// What is said of a line that is one too many.
fn too_many(what: Many) -> &'static str {
    match what {
        Many::Calls => "more than {0} calls",
        Many::Opens => "more than {0} calls of open",
        Many::Segments => "more than {0} segments",
        Many::Periods => "more than {0} period lines in the body",
        Many::Recorders => "more than {0} recorders",
        Many::Events => "more than {0} events",
        Many::Disks => "more than {0} disk files",
        Many::Cycles => "more than {0} cycles in all",
    }
}

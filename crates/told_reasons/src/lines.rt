//! The lines of a text.

ghost use Rattle.std.specs.Prelude.{◌≤◌, length};

use script_words::{Lines, Words};

// The most bytes of a script.
const MOST_BYTES: usize = 1_048_576;

/// The text, or none where it is longer than a script.
pub fn readable(text: &[u8]) -> &[u8]
    ensures { length result.now ≤ 1048576 }
{
    if text.len() > MOST_BYTES {
        &text[..0]
    } else {
        text
    }
}

/// Whether so short a text was read again whole.
pub fn is_whole(text: &[u8]) -> bool {
    !text.is_empty() && text.len() < MOST_BYTES
}

/// The first line, and what stands behind its end.
pub fn first_line(text: &[u8]) -> (&[u8], &[u8]) {
    for place in 0..text.len() {
        if text[place] == b'\n' {
            return (&text[..place], &text[place + 1..]);
        }
    }
    (text, &text[..0])
}

/// The line of this number, from 1, without its end. Behind the last line it is empty.
pub fn line_at(text: &[u8], number: u32) -> &[u8] {
    let mut rest = text;
    for _ in 1..number {
        if rest.is_empty() {
            return rest;
        }
        rest = first_line(rest).1;
    }
    let line = first_line(rest).0;
    match line {
        [front @ .., b'\r'] => front,
        _ => line,
    }
}

/// Whether a text has a line of this number, from 1, with its end.
pub fn has_line(text: &[u8], number: u32) -> bool {
    let mut left = number;
    for byte in text {
        if *byte == b'\n' {
            if left <= 1 {
                return true;
            }
            left -= 1;
        }
    }
    false
}

/// The number of the line that is the one of this count, from 1, among those that begin with a word.
pub fn nth_line(text: &[u8], word: &[u8], count: u32) -> Option<u32> {
    let mut rest = text;
    let mut left = count;
    for number in 1..u32::MAX {
        if rest.is_empty() {
            return None;
        }
        let (line, behind) = first_line(rest);
        if word_at(line, 0) == word {
            if left <= 1 {
                return Some(number);
            }
            left -= 1;
        }
        rest = behind;
    }
    None
}

/// How many lines that say something stand before the line of this number.
pub fn said_before(text: &[u8], number: u32) -> usize {
    let mut lines = Lines::of(readable(text));
    for count in 0..MOST_BYTES {
        match lines.take() {
            Some(line) if line.number < number => (),
            _ => return count,
        }
    }
    MOST_BYTES
}

fn is_blank(byte: u8) -> bool {
    byte == b' ' || byte == b'\t'
}

fn without_blanks(line: &[u8]) -> &[u8] {
    for place in 0..line.len() {
        if !is_blank(line[place]) {
            return &line[place..];
        }
    }
    &line[..0]
}

fn without_word(line: &[u8]) -> &[u8] {
    for place in 0..line.len() {
        if is_blank(line[place]) {
            return &line[place..];
        }
    }
    &line[..0]
}

/// What stands behind so many words of a line.
pub fn behind(line: &[u8], words: usize) -> &[u8] {
    let mut rest = without_blanks(line);
    for _ in 0..words {
        rest = without_blanks(without_word(rest));
    }
    rest
}

/// A word of a line, counted from 0. Behind the last it is empty.
pub fn word_at(line: &[u8], place: usize) -> &[u8] {
    let mut words = Words::of(line);
    for _ in 0..place {
        words.skip();
    }
    match words.word() {
        Ok(word) => word,
        Err(_) => &line[..0],
    }
}

/// The line of a call, by its lane and the call's number in it, from 1: its own number, and how many words stand before the
/// command.
pub fn call_at(text: &[u8], lane: u64, index: u64) -> Option<(u32, usize)> {
    let mut lines = Lines::of(readable(text));
    let mut left = index;
    for _ in 0..MOST_BYTES {
        let line = lines.take()?;
        let words = words_before(line.words, lane);
        if words > 0 {
            if left <= 1 {
                return Some((line.number, words));
            }
            left -= 1;
        }
    }
    None
}

// How many words stand before the command of a call of this lane, or 0 where the line is another one.
fn words_before(mut words: Words, lane: u64) -> usize {
    let Ok(name) = words.word() else {
        return 0;
    };
    if lane == 0 {
        return if name == b"do".as_slice() { 1 } else { 0 };
    }
    if name == b"lane".as_slice() && words.any_number() == Ok(lane) {
        return 4;
    }
    0
}

/// The first line that opens a client of a guest whose number is at least this one: its own number, and the guest's.
pub fn guest_line(text: &[u8], least: u64) -> Option<(u32, u64)> {
    let mut lines = Lines::of(readable(text));
    for _ in 0..MOST_BYTES {
        let line = lines.take()?;
        match guest_in(line.words) {
            Some(guest) if guest >= least => return Some((line.number, guest)),
            _ => (),
        }
    }
    None
}

// The guest that a line opens.
fn guest_in(mut words: Words) -> Option<u64> {
    let first = words.word().ok()?;
    if first == b"lane".as_slice() {
        words.skip();
        words.skip();
        words.skip();
    }
    let command = words.word().ok()?;
    words.skip();
    let kind = words.word().ok()?;
    if command != b"open".as_slice() || kind != b"guest".as_slice() {
        return None;
    }
    words.any_number().ok()
}

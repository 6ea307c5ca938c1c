//! Bytes that are spelled by pairs of lower-case hexadecimal digits.

ghost use Rattle.std.specs.Prelude.{◌≡◌, ◌<◌, ◌≤◌, ◌+◌, ◌*◌, ◌&&◌, IfNone, IfSome, MatchOption, List, Some, drop, length, take, false, true, ℕ};
ghost use Rattle.session_model.specs.Reading.{hex_bytes, hex_value, is_hex_digit};
ghost use Rattle.script_words.specs.Midi.{midi_event};

use session_model::jack_types::{Cause, Event};

fn is_hex_digit(b: u8) -> bool
    ensures { result ≡ is_hex_digit b }
{
    (b >= b'0' && b <= b'9') || (b >= b'a' && b <= b'f')
}

fn hex_value(b: u8) -> u8
    requires { is_hex_digit b ≡ true }
    ensures value { result ≡ hex_value b }
    ensures small { result < 16 }
{
    if b <= b'9' { b - b'0' } else { b - 87 }
}

/// The byte that two digits spell.
fn byte_of(high: u8, low: u8) -> Option<u8>
    ensures { MatchOption result ((is_hex_digit high && is_hex_digit low) ≡ false) (λ b. ((is_hex_digit high && is_hex_digit low) ≡ true) × (b ≡ hex_value high * 16 + hex_value low)) }
{
    if is_hex_digit(high) && is_hex_digit(low) {
        return Some(hex_value(high) * 16 + hex_value(low));
    }
    None
}

fn behind_pair(digits: &[u8]) -> &[u8]
    requires { 2 ≤ length digits.now }
    ensures { result.now ≡ drop 2 digits.now }
{
    &digits[2..]
}

/// Writes the bytes that the word spells to the front of the buffer, and answers how many they are.
/// `None` where the word spells no bytes, or more than the buffer takes.
pub fn spelled(word: &[u8], buffer: &mut [u8]) -> Option<usize>
    ensures none { IfNone result ((bytes : List ℕ) → hex_bytes word.now ≡ Some bytes → length buffer.old < length bytes) }
    ensures some { IfSome result (λ n. (hex_bytes word.now ≡ Some (take n buffer.new)) × (n ≤ length buffer.new)) }
    ensures size { length buffer.new ≡ length buffer.old }
{
    let mut len = 0;
    let mut rest = word;
    'pairs: while rest.len() >= 2 {
        let byte = byte_of(rest[0], rest[1])?;
        if len == buffer.len() {
            return None;
        }
        buffer[len] = byte;
        len += 1;
        rest = behind_pair(rest);
    }
    if rest.is_empty() {
        return Some(len);
    }
    None
}

/// The event that the word spells: 1 to 16 bytes, the first of them 128 or more.
pub fn event_of(word: &[u8]) -> Result<Event, Cause>
    ensures { result ≡ midi_event word.now }
{
    let mut buffer = [0; 16];
    let Some(len) = spelled(word, &mut buffer) else {
        return Err(Cause::Number);
    };
    let bytes = &buffer[..len];
    if bytes.is_empty() {
        return Err(Cause::Number);
    }
    if bytes[0] < 128 {
        return Err(Cause::Choice(u64::from(bytes[0])));
    }
    Ok(Event::new(0, bytes))
}

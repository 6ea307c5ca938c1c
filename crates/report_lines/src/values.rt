//! The first line and the last, and those of meters and logged events.

ghost use Rattle.std.specs.Prelude.{◌≡◌, ◌<◌, ◌≤◌, ◌+◌, ◌*◌, ◌++◌, ◌∷◌, [], codes, flat_map, length};
ghost use Rattle.jack_host.specs.Bytes.{Puts};
ghost use Rattle.jack_host.specs.Causes.{HasCause};
ghost use Rattle.jack_types.specs.Events.{IsEvent};
ghost use Rattle.session_model.specs.Reports.{event_line, hex_byte, hex_digit, line, meter_line};

use crate::lines::{Line, add_number, add_word, begun, end_line};
use jack_host::{Failed, Sink};
use jack_types::{ClientName, Logged};

/// Puts the first line.
pub fn put_title<K: Sink>(out: &mut K) -> Result<(), Failed>
    ensures puts { Puts (K.content out.old) (K.content out.new) result (line (codes "report" ∷ codes "1" ∷ [])) }
    ensures cause { HasCause (K.faults out.old) (K.faults out.new) result }
{
    out.put(b"report 1\n")
}

/// Puts the last line.
pub fn put_end<K: Sink>(out: &mut K) -> Result<(), Failed>
    ensures puts { Puts (K.content out.old) (K.content out.new) result (line (codes "end" ∷ [])) }
    ensures cause { HasCause (K.faults out.old) (K.faults out.new) result }
{
    out.put(b"end\n")
}

// The line of a meter.
fn line_of_meter(client: &ClientName, peak: u32) -> Line
    ensures { result.bytes ≡ meter_line (record { client = client.now; peak = peak }) }
{
    let mut line = begun("meter");
    add_word(&mut line, client.text());
    add_number(&mut line, u64::from(peak));
    end_line(&mut line);
    line
}

/// Puts the line of a meter with its peak.
pub fn put_meter<K: Sink>(out: &mut K, client: &ClientName, peak: u32) -> Result<(), Failed>
    ensures puts { Puts (K.content out.old) (K.content out.new) result (meter_line (record { client = client.now; peak = peak })) }
    ensures cause { HasCause (K.faults out.old) (K.faults out.new) result }
{
    out.put(line_of_meter(client, peak).as_str().as_bytes())
}

// The text of a hexadecimal digit.
fn hex_text(digit: u8) -> &'static str
    requires { digit < 16 }
    ensures { result.now ≡ hex_digit digit ∷ [] }
{
    let place = usize::from(digit);
    &"0123456789abcdef"[place..place + 1]
}

// Appends a byte as two hexadecimal digits.
fn add_byte(line: &mut Line, byte: u8)
    requires { length line.old.bytes + 2 ≤ 160 }
    ensures bytes { line.new.bytes ≡ line.old.bytes ++ hex_byte byte }
    ensures longer { length line.new.bytes ≡ length line.old.bytes + 2 }
{
    line.push_str(hex_text(byte / 16));
    line.push_str(hex_text(byte % 16));
}

// Appends bytes, each as two hexadecimal digits.
fn add_bytes(line: &mut Line, bytes: &[u8])
    requires { length line.old.bytes + 2 * length bytes.now ≤ 160 }
    ensures bytes { line.new.bytes ≡ line.old.bytes ++ flat_map hex_byte bytes.now }
    ensures longer { length line.new.bytes ≡ length line.old.bytes + 2 * length bytes.now }
{
    for byte in bytes {
        add_byte(line, *byte);
    }
}

// The line of an event that a client logged.
fn line_of_event(client: &ClientName, logged: &Logged) -> Line
    requires { IsEvent logged.now.event }
    ensures { result.bytes ≡ event_line (record { client = client.now; logged = logged.now }) }
{
    let mut line = begun("midi");
    add_word(&mut line, client.text());
    add_number(&mut line, u64::from(logged.cycle));
    add_number(&mut line, u64::from(logged.event.offset));
    line.push_str(" ");
    add_bytes(&mut line, logged.event.as_slice());
    end_line(&mut line);
    line
}

/// Puts the line of an event that a client logged: its cycle, its frame in it, and its bytes in hexadecimal digits.
pub fn put_event<K: Sink>(out: &mut K, client: &ClientName, logged: &Logged) -> Result<(), Failed>
    requires { IsEvent logged.now.event }
    ensures puts { Puts (K.content out.old) (K.content out.new) result (event_line (record { client = client.now; logged = logged.now })) }
    ensures cause { HasCause (K.faults out.old) (K.faults out.new) result }
{
    out.put(line_of_event(client, logged).as_str().as_bytes())
}

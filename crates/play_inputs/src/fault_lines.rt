//! The line that tells of a fault.

ghost use Rattle.std.specs.Prelude.{◌≡◌, ◌+◌, ◌≤◌, ◌⊎◌, ◌++◌, [], IfNone, IfSome, None, Some, decimal, length};
ghost use Rattle.play_inputs.specs.Answers.{HasLine};
ghost use Rattle.play_inputs.specs.FaultLines.{cause_name, fault_line, field_name, PutsFault, wave_name};

use crate::{Difference, Status};
use arrayvec::ArrayString;
use itoa::Buffer;
use jack_host::Sink;
use jack_types::{Cause, Field, ScriptFault, WaveFault};

/// A line, with room for the longest.
type Line = ArrayString<96>;

// Appends a number.
fn add_number(line: &mut Line, number: u64)
    requires { length line.old.bytes + 20 ≤ 96 }
    ensures bytes { line.new.bytes ≡ line.old.bytes ++ decimal number }
    ensures short { length line.new.bytes ≤ length line.old.bytes + 20 }
{
    line.push_str(Buffer::new().format(number));
}

// The name of a field of a format.
fn name_of_field(field: Field) -> &'static str
    ensures name { result.now ≡ field_name field }
    ensures short { length result.now ≤ 8 }
{
    match field {
        Field::Size => "Size",
        Field::Tag => "Tag",
        Field::Channels => "Channels",
        Field::Rate => "Rate",
        Field::Bits => "Bits",
        Field::Align => "Align",
        Field::Extended => "Extended",
        Field::Extra => "Extra",
        Field::Guid => "Guid",
    }
}

// The name of a WAVE fault, without what it carries.
fn name_of_wave(fault: WaveFault) -> &'static str
    ensures name { result.now ≡ wave_name fault }
    ensures short { length result.now ≤ 13 }
{
    match fault {
        WaveFault::NotRiff => "NotRiff",
        WaveFault::NotWave => "NotWave",
        WaveFault::NoFormat => "NoFormat",
        WaveFault::BadFormat(_, _) => "BadFormat",
        WaveFault::NoData => "NoData",
        WaveFault::Ends(_) => "Ends",
        WaveFault::Read => "Read",
        WaveFault::TooManyChunks => "TooManyChunks",
    }
}

// The name of a script fault's cause, without what it carries.
fn name_of_cause(cause: Cause) -> &'static str
    ensures name { result.now ≡ cause_name cause }
    ensures short { length result.now ≤ 7 }
{
    match cause {
        Cause::Header => "Header",
        Cause::Unknown => "Unknown",
        Cause::Words => "Words",
        Cause::Number => "Number",
        Cause::Range { .. } => "Range",
        Cause::Name(_) => "Name",
        Cause::Choice(_) => "Choice",
        Cause::Lane { .. } => "Lane",
        Cause::TooMany { .. } => "TooMany",
        Cause::TooLong => "TooLong",
        Cause::Memory => "Memory",
    }
}

// The line of a WAVE fault.
fn line_of_wave(fault: WaveFault) -> Line
    ensures { Some result.bytes ≡ fault_line (Status.BadWave fault) }
{
    let mut line = Line::new();
    line.push_str("fault 4 wave ");
    line.push_str(name_of_wave(fault));
    match fault {
        WaveFault::BadFormat(field, value) => {
            line.push_str(" ");
            line.push_str(name_of_field(field));
            line.push_str(" ");
            add_number(&mut line, u64::from(value));
        }
        WaveFault::Ends(place) => {
            line.push_str(" ");
            add_number(&mut line, place);
        }
        _ => (),
    }
    line.push_str("\n");
    line
}

// The line of a script fault.
fn line_of_script(fault: ScriptFault) -> Line
    ensures { Some result.bytes ≡ fault_line (Status.BadScript fault) }
{
    let mut line = Line::new();
    line.push_str("fault 5 script ");
    add_number(&mut line, u64::from(fault.line));
    line.push_str(" ");
    line.push_str(name_of_cause(fault.cause));
    line.push_str("\n");
    line
}

// The line of a difference.
fn line_of_difference(difference: Difference) -> Line
    ensures { Some result.bytes ≡ fault_line (Status.Differs difference) }
{
    let mut line = Line::new();
    line.push_str("fault 7 differs ");
    line.push_str(difference.what.name());
    line.push_str(" ");
    add_number(&mut line, u64::from(difference.script));
    line.push_str(" ");
    add_number(&mut line, u64::from(difference.given));
    line.push_str("\n");
    line
}

// The line of a status, where it has one.
fn line_of(status: Status) -> Option<Line>
    ensures some { IfSome result (λ line. Some line.bytes ≡ fault_line status) }
    ensures none { IfNone result (fault_line status ≡ None) }
{
    match status {
        Status::Words => Some(text_of("fault 2 words\n")),
        Status::ReadFault => Some(text_of("fault 3 read\n")),
        Status::BadWave(fault) => Some(line_of_wave(fault)),
        Status::BadScript(fault) => Some(line_of_script(fault)),
        Status::Differs(difference) => Some(line_of_difference(difference)),
        Status::Ok | Status::NoMemory | Status::WriteFault | Status::Wrong(..) => None,
    }
}

fn text_of(text: &str) -> Line
    requires { length text.now ≤ 96 }
    ensures { result.bytes ≡ text.now }
{
    let mut line = Line::new();
    line.push_str(text);
    line
}

/// Puts out the line of a status, as far as that goes.
pub fn put_fault<K: Sink>(out: &mut K, status: Status)
    ensures { PutsFault (K.content out.old) (K.content out.new) (K.faults out.old) (K.faults out.new) status }
{
    if let Some(line) = line_of(status) {
        let _ = out.put(line.as_str().as_bytes());
    }
}

/// Puts out the line of a fault, where the status has one: of `NoMemory` and `WriteFault` nothing is put.
pub fn put_line<K: Sink>(out: &mut K, status: Status)
    ensures line { HasLine status →
        PutsFault (K.content out.old) (K.content out.new) (K.faults out.old) (K.faults out.new) status }
    ensures silent { (status ≡ Status.NoMemory) ⊎ (status ≡ Status.WriteFault) → out.new ≡ out.old }
    ensures later { K.faults out.old ≤ K.faults out.new }
{
    match status {
        Status::NoMemory | Status::WriteFault => (),
        _ => put_fault(out, status),
    }
}

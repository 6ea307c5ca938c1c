//! The line that tells why no graph is put out.

ghost use Rattle.std.specs.Prelude.{◌≡◌, ◌+◌, ◌≤◌, ◌++◌, IfNone, IfSome, None, Some, decimal, length};
ghost use Rattle.session_graph.specs.Faults.{PutsFault, cause_name, fault_line};

use crate::faults::GraphFault;
use arrayvec::ArrayString;
use check_sights::name_of_part;
use itoa::Buffer;
use jack_host::Sink;
use jack_types::{Cause, Row, ScriptFault};

/// A line, with room for the longest.
type Line = ArrayString<64>;

fn text_of(text: &str) -> Line
    requires { length text.now ≤ 64 }
    ensures { result.bytes ≡ text.now }
{
    let mut line = Line::new();
    line.push_str(text);
    line
}

// Appends a number.
fn add_number(line: &mut Line, number: u32)
    requires { length line.old.bytes + 20 ≤ 64 }
    ensures bytes { line.new.bytes ≡ line.old.bytes ++ decimal number }
    ensures short { length line.new.bytes ≤ length line.old.bytes + 20 }
{
    line.push_str(Buffer::new().format(u64::from(number)));
}

fn name_of_cause(cause: Cause) -> &'static str
    ensures name { result.now ≡ cause_name cause }
    ensures short { length result.now ≤ 7 }
{
    match cause {
        Cause::Header => "Header",
        Cause::Unknown => "Unknown",
        Cause::Words => "Words",
        Cause::Number => "Number",
        Cause::Range { .. } => "Range",
        Cause::Name(_) => "Name",
        Cause::Choice(_) => "Choice",
        Cause::Lane { .. } => "Lane",
        Cause::TooMany { .. } => "TooMany",
        Cause::TooLong => "TooLong",
        Cause::Memory => "Memory",
    }
}

fn line_of_script(fault: ScriptFault) -> Line
    ensures { Some result.bytes ≡ fault_line (GraphFault.BadScript fault) }
{
    let mut line = Line::new();
    line.push_str("fault 5 script ");
    add_number(&mut line, fault.line);
    line.push_str(" ");
    line.push_str(name_of_cause(fault.cause));
    line.push_str("\n");
    line
}

fn line_of_row(row: Row) -> Line
    ensures { Some result.bytes ≡ fault_line (GraphFault.Wrong row) }
{
    let mut line = Line::new();
    line.push_str("check wrong ");
    line.push_str(name_of_part(row.what));
    line.push_str(" ");
    add_number(&mut line, row.number);
    line.push_str("\n");
    line
}

fn line_of(fault: GraphFault) -> Option<Line>
    ensures some { IfSome result (λ line. Some line.bytes ≡ fault_line fault) }
    ensures none { IfNone result (fault_line fault ≡ None) }
{
    match fault {
        GraphFault::Words => Some(text_of("fault 2 words\n")),
        GraphFault::ReadFault => Some(text_of("fault 3 read\n")),
        GraphFault::BadScript(fault) => Some(line_of_script(fault)),
        GraphFault::Wrong(row) => Some(line_of_row(row)),
        GraphFault::NoMemory | GraphFault::WriteFault => None,
    }
}

/// Puts out the line of a fault, where it has one, as far as that goes.
pub(crate) fn put_fault<K: Sink>(out: &mut K, fault: GraphFault)
    ensures line { PutsFault (K.content out.old) (K.content out.new) (K.faults out.old) (K.faults out.new) fault }
    ensures later { K.faults out.old ≤ K.faults out.new }
{
    if let Some(line) = line_of(fault) {
        let _ = out.put(line.as_str().as_bytes());
    }
}

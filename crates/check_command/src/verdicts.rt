//! The line of a verdict.

ghost use Rattle.std.specs.Prelude.{◌≡◌, ◌+◌, ◌≤◌, ◌⊎◌, ◌++◌, ℕ, decimal, length, take};
ghost use Rattle.jack_host.specs.Bytes.{Gains};
ghost use Rattle.jack_host.specs.Causes.{Rose};
ghost use Rattle.check_command.specs.Answers.{PutsVerdict};
ghost use Rattle.check_command.specs.Lines.{place_text, wrong_line};
ghost use Rattle.check_command.specs.Verdicts.{line_of, status_of};

use arrayvec::ArrayString;
use check_sights::name_of_part;
use itoa::Buffer;
use jack_host::Sink;
use jack_types::{Part, Row};
use play_inputs::Status;
use session_check::Verdict;

/// A line, with room for the longest.
type Line = ArrayString<64>;

// Appends a number.
fn add_number(line: &mut Line, number: u64)
    requires { length line.old.bytes + 20 ≤ 64 }
    ensures bytes { line.new.bytes ≡ line.old.bytes ++ decimal number }
    ensures short { length line.new.bytes ≤ length line.old.bytes + 20 }
{
    line.push_str(Buffer::new().format(number));
}

// Appends the place of a wrong byte, where the part is a file.
fn add_place(line: &mut Line, part: Part, place: u64)
    requires { length line.old.bytes + 21 ≤ 64 }
    ensures bytes { line.new.bytes ≡ line.old.bytes ++ place_text part place }
    ensures short { length line.new.bytes ≤ length line.old.bytes + 21 }
{
    match part {
        Part::Record | Part::Playback => {
            line.push_str(" ");
            add_number(line, place);
        }
        _ => (),
    }
}

// The line of a wrong part.
fn line_of_row(row: Row) -> Line
    ensures { result.bytes ≡ wrong_line row }
{
    let mut line = Line::new();
    line.push_str("check wrong ");
    line.push_str(name_of_part(row.what));
    line.push_str(" ");
    add_number(&mut line, u64::from(row.number));
    add_place(&mut line, row.what, row.place);
    line.push_str("\n");
    line
}

fn line_of_verdict(verdict: Verdict) -> Line
    ensures { result.bytes ≡ line_of verdict }
{
    match verdict {
        Verdict::Explained => {
            let mut line = Line::new();
            line.push_str("check ok\n");
            line
        }
        Verdict::Wrong(row, _) => line_of_row(row),
    }
}

fn status_of_verdict(verdict: Verdict) -> Status
    ensures { result ≡ status_of verdict }
{
    match verdict {
        Verdict::Explained => Status::Ok,
        Verdict::Wrong(row, sight) => Status::Wrong(row, sight),
    }
}

/// Puts out the line of a verdict, and answers its status, or that it could not be put whole.
pub(crate) fn put_verdict<K: Sink>(out: &mut K, verdict: Verdict) -> Status
    ensures status { ((result ≡ status_of verdict) × (K.faults out.new ≡ K.faults out.old))
        ⊎ ((result ≡ Status.WriteFault) × Rose (K.faults out.old) (K.faults out.new)) }
    ensures puts { PutsVerdict (K.content out.old) (K.content out.new) result }
    ensures cut { result ≡ Status.WriteFault →
        (k : ℕ) × Gains (K.content out.old) (K.content out.new) (take k (line_of verdict)) }
    ensures later { K.faults out.old ≤ K.faults out.new }
{
    let line = line_of_verdict(verdict);
    match out.put(line.as_str().as_bytes()) {
        Ok(()) => status_of_verdict(verdict),
        Err(_) => Status::WriteFault,
    }
}

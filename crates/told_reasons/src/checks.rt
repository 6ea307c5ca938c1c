//! A report that a check finds wrong.

ghost use Rattle.std.specs.Prelude.{IfOk};
ghost use Rattle.reason_text.specs.Reasons.{IsReason};

use crate::filling::fill;
use crate::graphs::show_line;
use crate::lines::{has_line, is_whole, nth_line, readable};
use check_sights::{Number as What, Sight, name_of_part};
use jack_types::{Part, Reply, Row};
use reason_text::Piece::{Number, Shown, Text};
use reason_text::Reason;
use std::alloc::{AllocError, Global};

/// Why a line of a report is not right, what was expected there, and the line below. `text` is the report's, as far as it can
/// be read again.
pub fn of_check(
    alloc: Global,
    report: &str,
    text: &[u8],
    row: Row,
    sight: Sight,
) -> Result<Reason, AllocError>
    ensures { IfOk result IsReason }
{
    let text = readable(text);
    let line = line_of(text, row);
    let mut reason = Reason::new(alloc)?;
    fill(
        &mut reason,
        place(row.what, line),
        &[
            Shown(report.as_bytes()),
            Number(u64::from(line)),
            Text(name_of_part(row.what)),
            Number(u64::from(row.number)),
        ],
    )?;
    say_sight(&mut reason, text, row, sight)?;
    show_line(&mut reason, text, line)?;
    reason.end_line()?;
    Ok(reason)
}

// Where a part stands: in the report `{0}`, in its line `{1}`, the part `{2}` of the number `{3}`.
fn place(part: Part, line: u32) -> &'static str {
    match (part, line) {
        (Part::Report, 0) => "{0}: ",
        (Part::Report, _) => "{0}:{1}: ",
        (_, 0) => "{0}: {2} {3}: ",
        _ => "{0}:{1}: {2} {3}: ",
    }
}

// The number of the line that a row is of, or 0 where the report has none.
fn line_of(text: &[u8], row: Row) -> u32 {
    match row.what {
        Part::Report if is_wave(text) => 0,
        Part::Report => row.number,
        // Calls stand behind the report's first line.
        Part::Call => row.number.saturating_add(1),
        _ => nth_line(text, name_of_part(row.what).as_bytes(), row.number).unwrap_or(0),
    }
}

fn say_sight(reason: &mut Reason, text: &[u8], row: Row, sight: Sight) -> Result<(), AllocError> {
    match sight {
        _ if row.what == Part::Report => reason.say(wrong_line(text, row.number)),
        Sight::Reply { wanted } => say_reply(reason, wanted),
        Sight::Number {
            what,
            wanted,
            found,
        } => say_number(reason, what, wanted, found),
        Sight::Missing if row.what == Part::Call => {
            reason.say("the script's next call does not stand here; is it another script's report?")
        }
        Sight::Missing => reason.say("its line is missing"),
        Sight::Extra => reason.say("nothing in the session asks for this line"),
        _ => reason.say(wrong_otherwise(row.what)),
    }
}

// Why a line is none of a report.
fn wrong_line(text: &[u8], number: u32) -> &'static str {
    if is_wave(text) {
        return "a WAVE file, and no report";
    }
    if number <= 1 {
        return "a report begins with the line \"report 1\"";
    }
    if is_whole(text) && !has_line(text, number) {
        return "the report breaks off before its line \"end\"";
    }
    "no line of this script's report, in this place"
}

fn is_wave(text: &[u8]) -> bool {
    match text {
        [b'R', b'I', b'F', b'F', ..] => true,
        _ => false,
    }
}

// What is wrong where no more is known than the place.
fn wrong_otherwise(part: Part) -> &'static str {
    match part {
        Part::Call => "no call that the script makes next, or another reply",
        Part::Cycle => "another transport, or a number that can't be",
        Part::Midi => "an event of other bytes is expected",
        Part::Overrun => "no block can have been lost so",
        Part::Underrun => "no block can have been missed so",
        _ => "another line is expected",
    }
}

fn say_reply(reason: &mut Reason, wanted: Reply) -> Result<(), AllocError> {
    match wanted {
        Reply::Accepted(number) => fill(
            reason,
            "\"ok {0}\" is expected",
            &[Number(u64::from(number))],
        ),
        Reply::Refused(refusal) => fill(
            reason,
            "\"refused {0} {1}\" is expected",
            &[Number(u64::from(refusal.number())), Text(refusal.name())],
        ),
        Reply::Latency(range) => fill(
            reason,
            "\"latency {0} {1}\" is expected",
            &[Number(u64::from(range.min)), Number(u64::from(range.max))],
        ),
    }
}

fn say_number(reason: &mut Reason, what: What, wanted: u64, found: u64) -> Result<(), AllocError> {
    let sentence = match what {
        // The number of changes is below the least, or above the most.
        What::Graph if found < wanted => "its graph has at least change {1}, and {2} stands there",
        What::Graph => "its graph has at most change {1}, and {2} stands there",
        What::State => "the state is {3}, and {4} stands there",
        _ => "{0} is {1}, and {2} stands there",
    };
    fill(
        reason,
        sentence,
        &[
            Text(name_of_number(what)),
            Number(wanted),
            Number(found),
            Text(name_of_state(wanted)),
            Text(name_of_state(found)),
        ],
    )
}

fn name_of_state(state: u64) -> &'static str {
    match state {
        0 => "stopped",
        1 => "rolling",
        _ => "starting",
    }
}

fn name_of_number(what: What) -> &'static str {
    match what {
        What::Graph => "the number of changes",
        What::State => "the state",
        What::Frame => "the frame",
        What::Bar => "the bar",
        What::Beat => "the beat",
        What::Tick => "the tick",
        What::Peak => "the peak",
        What::Cycle => "the cycle",
        What::Offset => "the offset",
        What::Blocks => "the number of blocks",
        What::Sent => "the number of blocks sent",
        What::Taken => "the number of blocks taken",
    }
}

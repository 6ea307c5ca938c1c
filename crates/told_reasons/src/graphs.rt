//! A report that does not tell which graph a cycle used.

ghost use Rattle.std.specs.Prelude.{IfOk};
ghost use Rattle.reason_text.specs.Reasons.{IsReason};

use crate::filling::fill;
use crate::lines::{line_at, readable};
use jack_types::{Part, Row};
use reason_text::Piece::{Number, Shown};
use reason_text::Reason;
use std::alloc::{AllocError, Global};

/// Why a line of a report, a call or a cycle is wrong, and the line's text below. `text` is the report's, as far as it can be read
/// again.
pub fn of_wrong(alloc: Global, report: &str, text: &[u8], row: Row) -> Result<Reason, AllocError>
    ensures { IfOk result IsReason }
{
    let (sentence, line) = match row.what {
        // Calls stand behind the report's first line.
        Part::Call => (
            "{0}:{2}: no call that the script makes next, or another reply",
            row.number.saturating_add(1),
        ),
        Part::Cycle => ("{0}: cycle {1} has more changes than were accepted", 0),
        _ => (
            "{0}:{2}: no line of this script's report, in this place",
            row.number,
        ),
    };
    let mut reason = Reason::new(alloc)?;
    fill(
        &mut reason,
        sentence,
        &[
            Shown(report.as_bytes()),
            Number(u64::from(row.number)),
            Number(u64::from(line)),
        ],
    )?;
    show_line(&mut reason, text, line)?;
    reason.end_line()?;
    Ok(reason)
}

/// The text of a line below, where it has one. A line of the number 0 has none.
pub fn show_line(reason: &mut Reason, text: &[u8], line: u32) -> Result<(), AllocError> {
    if line == 0 {
        return Ok(());
    }
    let shown = line_at(readable(text), line);
    if shown.is_empty() {
        return Ok(());
    }
    reason.show_below(shown)
}

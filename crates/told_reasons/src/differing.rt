//! A script, and what it is played with, that differ.

ghost use Rattle.std.specs.Prelude.{IfOk};
ghost use Rattle.reason_text.specs.Reasons.{IsReason};

use crate::filling::{fill, line_of};
use crate::lines::guest_line;
use reason_text::Piece::{Counted, Number, Path, Shown, Text};
use reason_text::Reason;
use std::alloc::{AllocError, Global};

/// A script opens a client of a guest that is not handed in. `text` is the script's, as far as it can be read again.
pub fn of_guests(
    alloc: Global,
    script: &str,
    text: &[u8],
    needed: u32,
    given: u32,
) -> Result<Reason, AllocError>
    ensures { IfOk result IsReason }
{
    let (sentence, line, guest) = match guest_line(text, u64::from(given)) {
        Some((line, guest)) => ("{0}:{1}: guest {2}: only ", line, guest),
        None => (
            "{0}: guest {2}: only ",
            0,
            u64::from(needed.saturating_sub(1)),
        ),
    };
    let mut reason = Reason::new(alloc)?;
    fill(
        &mut reason,
        sentence,
        &[
            Shown(script.as_bytes()),
            Number(u64::from(line)),
            Number(guest),
        ],
    )?;
    say_below(&mut reason, given)?;
    reason.say(" are handed in")?;
    reason.end_line()?;
    Ok(reason)
}

// The numbers below one, as a list of words.
fn say_below(reason: &mut Reason, end: u32) -> Result<(), AllocError> {
    for number in 0..end {
        let before = if number == 0 {
            ""
        } else if number + 1 == end {
            " and "
        } else {
            ", "
        };
        reason.tell(&[Text(before), Number(u64::from(number))])?;
    }
    Ok(())
}

/// The script has another number of recorders than files are named for.
pub fn of_records(alloc: Global, script: u32, given: u32) -> Result<Reason, AllocError>
    ensures { IfOk result IsReason }
{
    line_of(
        alloc,
        "the script has {0}, --record was given {1}",
        &[
            Counted(u64::from(script), "recorder", "recorders"),
            Counted(u64::from(given), "time", "times"),
        ],
    )
}

/// The script has another number of disk files than are named.
pub fn of_disks(alloc: Global, script: u32, given: u32) -> Result<Reason, AllocError>
    ensures { IfOk result IsReason }
{
    line_of(
        alloc,
        "the script has {0}, --disk was given {1}",
        &[
            Counted(u64::from(script), "disk file", "disk files"),
            Counted(u64::from(given), "time", "times"),
        ],
    )
}

/// The script has another rate than a file that it is played with, in frames a second.
pub fn of_rate(alloc: Global, name: &str, script: u32, given: u32) -> Result<Reason, AllocError>
    ensures { IfOk result IsReason }
{
    line_of(
        alloc,
        "the script has rate {0}, {1} has {2}: sox {3} -r {0} new.wav",
        &[
            Number(u64::from(script)),
            Shown(name.as_bytes()),
            Number(u64::from(given)),
            Path(name),
        ],
    )
}

/// The script has another number of channels than its capture.
pub fn of_channels(alloc: Global, name: &str, script: u32, given: u32) -> Result<Reason, AllocError>
    ensures { IfOk result IsReason }
{
    of_line(
        alloc,
        "the script has capture {0}, {1} has {2}: sox {3} -c {0} new.wav",
        name,
        script,
        given,
    )
}

/// A `disk` line of the script has another number of channels than its file.
pub fn of_disk_channels(
    alloc: Global,
    name: &str,
    script: u32,
    given: u32,
) -> Result<Reason, AllocError>
    ensures { IfOk result IsReason }
{
    of_line(
        alloc,
        "the script has disk {0}, {1} has {2}: sox {3} -c {0} new.wav",
        name,
        script,
        given,
    )
}

// A line of the script, and its file, have other numbers of channels.
fn of_line<'a>(
    alloc: Global,
    sentence: &'static str,
    name: &'a str,
    script: u32,
    given: u32,
) -> Result<Reason, AllocError>
    ensures { IfOk result IsReason }
{
    line_of(
        alloc,
        sentence,
        &[
            Number(u64::from(script)),
            Shown(name.as_bytes()),
            Counted(u64::from(given), "channel", "channels"),
            Path(name),
        ],
    )
}

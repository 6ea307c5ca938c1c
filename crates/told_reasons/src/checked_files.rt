//! A file that a check finds wrong.

ghost use Rattle.std.specs.Prelude.{IfOk};
ghost use Rattle.reason_text.specs.Reasons.{IsReason};

use crate::filling::{fill, line_of};
use crate::formats::{HEADER, Made, made_in};
use crate::times::Time;
use check_sights::Sight;
use jack_types::Format;
use reason_text::Piece::{Counted, Number, Shown, Signed, Text};
use reason_text::Reason;
use std::alloc::{AllocError, Global};

// What a header has up to a place.
const FIELDS: [(u64, &str); 13] = [
    (4, "the mark RIFF in its header"),
    (8, "the size of the file in its header"),
    (12, "the mark WAVE in its header"),
    (16, "the mark fmt in its header"),
    (20, "the size of the format in its header"),
    (22, "the tag of the format in its header"),
    (24, "the channels in its header"),
    (28, "the rate in its header"),
    (32, "the bytes of a second in its header"),
    (34, "the bytes of a frame in its header"),
    (36, "the bits of a sample in its header"),
    (40, "the mark data in its header"),
    (44, "the size of the samples in its header"),
];

/// Why a file is not the one that a report explains: its first wrong place, what was expected and what stands there. `front` is
/// its first bytes, as far as they can be read again, and `wanted` what the script asks for.
pub fn of_checked_file(
    alloc: Global,
    name: &str,
    front: &[u8],
    wanted: Option<Made>,
    place: u64,
    sight: Sight,
) -> Result<Reason, AllocError>
    ensures { IfOk result IsReason }
{
    let made = made_in(front);
    let mut reason = Reason::new(alloc)?;
    fill(&mut reason, "{0}: ", &[Shown(name.as_bytes())])?;
    match sight {
        Sight::Byte {
            wanted: byte,
            found,
        } => {
            say_byte(&mut reason, place, byte, found)?;
            say_header(&mut reason, made, wanted)?;
        }
        Sight::Sample {
            cycle,
            frame,
            channel,
            wanted,
            found,
        } => {
            say_place(&mut reason, place, cycle, frame)?;
            say_channel(&mut reason, place, channel, made)?;
            fill(
                &mut reason,
                ": {0} is expected, {1} stands there",
                &[Signed(i64::from(wanted)), Signed(i64::from(found))],
            )?;
        }
        _ => say_length(&mut reason, place, sight, made)?,
    }
    reason.end_line()?;
    Ok(reason)
}

/// Another file has what was expected of this one.
pub fn of_exchange<'a>(alloc: Global, name: &'a str, other: &'a str) -> Result<Reason, AllocError>
    ensures { IfOk result IsReason }
{
    line_of(
        alloc,
        "{0} has the header that {1} should have; are the two exchanged?",
        &[Shown(other.as_bytes()), Shown(name.as_bytes())],
    )
}

fn say_byte(reason: &mut Reason, place: u64, wanted: u8, found: u8) -> Result<(), AllocError> {
    fill(
        reason,
        "byte {0}, {1}: {2} is expected, {3} stands there",
        &[
            Number(place),
            Text(name_of_field(place)),
            Number(u64::from(wanted)),
            Number(u64::from(found)),
        ],
    )
}

fn name_of_field(place: u64) -> &'static str {
    for (end, name) in FIELDS {
        if place < end {
            return name;
        }
    }
    "the pad behind its samples"
}

// What the header says, where that is not what the script asks for.
fn say_header(
    reason: &mut Reason,
    found: Option<Made>,
    wanted: Option<Made>,
) -> Result<(), AllocError> {
    let (Some(found), Some(wanted)) = (found, wanted) else {
        return Ok(());
    };
    let (sentence, given, asked) = difference(found, wanted);
    fill(
        reason,
        sentence,
        &[
            Number(given),
            Number(asked),
            Counted(given, "channel", "channels"),
            Counted(given, "frame", "frames"),
        ],
    )
}

// What two files differ in first, and the number of each.
fn difference(found: Made, wanted: Made) -> (&'static str, u64, u64) {
    let (given, asked) = (found.format, wanted.format);
    if given.channels != asked.channels {
        return (
            "; it has {2}, where the script has {1}",
            u64::from(given.channels),
            u64::from(asked.channels),
        );
    }
    if given.rate != asked.rate {
        return (
            "; it has rate {0}, where the script has {1}",
            u64::from(given.rate),
            u64::from(asked.rate),
        );
    }
    if given.bits != asked.bits {
        return (
            "; it has {0} bits a sample, where the script has {1}",
            u64::from(given.bits),
            u64::from(asked.bits),
        );
    }
    match (found.frames, wanted.frames) {
        (Some(given), Some(asked)) if given != asked => {
            ("; it has {3}, where the script has {1}", given, asked)
        }
        _ => ("", 0, 0),
    }
}

fn say_place(reason: &mut Reason, byte: u64, cycle: u32, frame: u32) -> Result<(), AllocError> {
    fill(
        reason,
        "byte {0}: cycle {1}, frame {2}",
        &[
            Number(byte),
            Number(u64::from(cycle)),
            Number(u64::from(frame)),
        ],
    )
}

// Which frame and which channel of the file a byte is of, and at which second the frame stands.
fn say_channel(
    reason: &mut Reason,
    byte: u64,
    channel: u16,
    made: Option<Made>,
) -> Result<(), AllocError> {
    let number = Number(u64::from(channel).saturating_add(1));
    let made = match made {
        Some(made) if made.format.rate > 0 => made,
        _ => return fill(reason, ", channel {0}", &[number]),
    };
    let frame = frames_before(byte, made.format);
    let time = Time::of(frame, u64::from(made.format.rate));
    let sentence = match (made.format.channels, channel) {
        (1, _) => " (frame {1} of the file, second {2}{3}{4})",
        (2, 0) => " (frame {1} of the file, second {2}{3}{4}), left channel",
        (2, 1) => " (frame {1} of the file, second {2}{3}{4}), right channel",
        _ => " (frame {1} of the file, second {2}{3}{4}), channel {0}",
    };
    fill(
        reason,
        sentence,
        &[
            number,
            Number(frame),
            Number(time.seconds()),
            Text(time.point()),
            Number(time.thousandths()),
        ],
    )
}

// How many frames stand before a byte of a file.
fn frames_before(byte: u64, format: Format) -> u64 {
    let width = u64::from(format.channels).saturating_mul(u64::from(format.bits / 8));
    if width == 0 {
        return 0;
    }
    byte.saturating_sub(HEADER as u64) / width
}

// A file that ends early, or goes on.
fn say_length(
    reason: &mut Reason,
    place: u64,
    sight: Sight,
    made: Option<Made>,
) -> Result<(), AllocError> {
    let (frames, before) = match made {
        Some(made) => (made.frames, frames_before(place, made.format)),
        None => (None, 0),
    };
    let sentence = match (sight, frames) {
        (Sight::Short, _) if place == 0 => "the file is empty",
        (Sight::Short, _) if place < HEADER as u64 => {
            "the file ends after {1}, within its header"
        }
        (Sight::Short, Some(_)) => "it ends behind {2} of {3}",
        (Sight::Short, None) => "it ends behind {1}, and more are expected",
        (Sight::Long, Some(_)) => "it goes on behind the {3} that are expected",
        (Sight::Long, None) => "it goes on behind the {1} that are expected",
        _ => "byte {0}: another one is expected",
    };
    fill(
        reason,
        sentence,
        &[
            Number(place),
            Counted(place, "byte", "bytes"),
            Number(before),
            Counted(frames.unwrap_or(0), "frame", "frames"),
        ],
    )
}

//! Blocks of recorders that were lost, and underruns of disks.

ghost use Rattle.std.specs.Prelude.{IfOk};
ghost use Rattle.reason_text.specs.Reasons.{IsReason};

use crate::filling::line_of;
use crate::lines::{line_at, nth_line, readable, word_at};
use crate::times::time_of;
use lost_blocks::Stream;
use reason_text::Piece::{Counted, Number, Shown, Text};
use reason_text::Reason;
use std::alloc::{AllocError, Global};

/// How many blocks of a recorder's file were lost, and the first cycle that lost one. `script` is the script's text.
pub fn of_lost_blocks(
    alloc: Global,
    file: &str,
    script: &[u8],
    stream: Stream,
) -> Result<Reason, AllocError>
    ensures { IfOk result IsReason }
{
    let sentence = if stream.missed == 1 {
        "{0}: {1} of {2} was lost, in cycle {3} (second {4}{5}{6}); the file is shifted from there on"
    } else {
        "{0}: {1} of {2} were lost, the first in cycle {3} (second {4}{5}{6}); the file is shifted from there on"
    };
    let all = stream.blocks.saturating_add(stream.missed);
    of_missed(alloc, sentence, file, script, all, stream)
}

/// How many underruns a disk had beside the blocks that were played of its file, and the first of these cycles. `script` is the
/// script's text.
pub fn of_underruns(
    alloc: Global,
    file: &str,
    script: &[u8],
    stream: Stream,
) -> Result<Reason, AllocError>
    ensures { IfOk result IsReason }
{
    let sentence = if stream.missed == 1 {
        "{0}: {1} underrun beside {2} played, in cycle {3} (second {4}{5}{6}); it is silent, and the track is late from there on"
    } else {
        "{0}: {1} underruns beside {2} played, the first in cycle {3} (second {4}{5}{6}); each is silent, and the track is late from there on"
    };
    of_missed(alloc, sentence, file, script, stream.blocks, stream)
}

// A sentence on a file that missed blocks, and on so many of its blocks.
fn of_missed(
    alloc: Global,
    sentence: &str,
    file: &str,
    script: &[u8],
    blocks: u64,
    stream: Stream,
) -> Result<Reason, AllocError>
    ensures { IfOk result IsReason }
{
    let time = time_of(script, stream.first);
    line_of(
        alloc,
        sentence,
        &[
            Shown(file.as_bytes()),
            Number(stream.missed),
            Counted(blocks, "block", "blocks"),
            Number(stream.first),
            Number(time.seconds()),
            Text(time.point()),
            Number(time.thousandths()),
        ],
    )
}

/// How the script loses no block.
pub fn of_rings(alloc: Global, script: &[u8]) -> Result<Reason, AllocError>
    ensures { IfOk result IsReason }
{
    Reason::line(alloc, &[Text(without_loss(readable(script)))])
}

/// How the script has no underrun.
pub fn of_fills(alloc: Global, script: &[u8]) -> Result<Reason, AllocError>
    ensures { IfOk result IsReason }
{
    Reason::line(alloc, &[Text(without_underrun(readable(script)))])
}

// In serial mode a block is lost only where nothing leaves the ring.
fn without_loss(script: &[u8]) -> &'static str {
    if is_serial(script) {
        return "\"drain 1\" loses no block, nor does a \"freewheel\" segment";
    }
    if has_longest_ring(script) {
        return "a \"freewheel\" segment loses no block";
    }
    "\"ring 64\" holds more blocks, and a \"freewheel\" segment loses none"
}

// In serial mode an underrun comes only where nothing is read ahead.
fn without_underrun(script: &[u8]) -> &'static str {
    if is_serial(script) {
        return "\"fill 1\" has no underrun, nor has a \"freewheel\" segment";
    }
    if has_longest_ring(script) {
        return "\"mode serial\" with \"fill 1\" has no underrun, nor has a \"freewheel\" segment";
    }
    "\"ring 64\" makes underruns rarer; \"mode serial\" with \"fill 1\" has none, nor has a \"freewheel\" segment"
}

fn is_serial(script: &[u8]) -> bool {
    header_word(script, b"mode".as_slice()) == b"serial".as_slice()
}

fn has_longest_ring(script: &[u8]) -> bool {
    header_word(script, b"ring".as_slice()) == b"64".as_slice()
}

// The word behind the name of a line of the header, or none.
fn header_word<'a>(script: &'a [u8], name: &[u8]) -> &'a [u8] {
    match nth_line(script, name, 1) {
        Some(number) => word_at(line_at(script, number), 1),
        None => &script[..0],
    }
}

//! What stands at the first wrong place of a file. It is for people: no clause rests on it.

ghost use Rattle.std.specs.Prelude.{◌≡◌, true};
ghost use Rattle.session_model.specs.WaveFiles.{IsFormat, is_width};

use check_sights::Sight;
use jack_types::Format;

/// A sample that is the first to differ: its cycle, how many samples of that cycle stand before it, and the numbers that were
/// expected and found, as the file stores them.
#[derive(Clone, Copy)]
pub struct Seen {
    cycle: u32,
    before: usize,
    wanted: i32,
    found: i32,
}

// The number that a file stores in these bytes: at 8 bits without a sign, else with one.
fn stored(bytes: &[u8]) -> i32 {
    match bytes {
        [a] => i32::from(*a),
        [a, b] => i32::from(i16::from_le_bytes([*a, *b])),
        [a, b, c] => i32::from_le_bytes([0, *a, *b, *c]) >> 8,
        [a, b, c, d] => i32::from_le_bytes([*a, *b, *c, *d]),
        _ => 0,
    }
}

// The sample that begins at this byte, if all its bytes are there.
fn sample_at(bytes: &[u8], begin: usize, width: usize) -> Option<i32> {
    let end = begin.checked_add(width)?;
    let sample = bytes.get(begin..end)?;
    Some(stored(sample))
}

// The sample of a piece in which a byte differs, if one does and the file does not end within the sample. The piece is of this
// cycle, behind so many of its samples.
pub fn seen_at(
    bits: u16,
    cycle: u32,
    before: usize,
    place: Option<usize>,
    piece: &[u8],
    read: &[u8],
) -> Option<Seen>
    requires { is_width bits ≡ true }
{
    let place = place?;
    let width = usize::from(bits / 8);
    let begin = place - place % width;
    let wanted = sample_at(piece, begin, width)?;
    let found = sample_at(read, begin, width)?;
    Some(Seen {
        cycle,
        before: before.saturating_add(place / width),
        wanted,
        found,
    })
}

// What is seen at a byte of the header that differs.
pub fn header_sight(place: usize, header: &[u8], front: &[u8]) -> Sight {
    match (header.get(place), front.get(place)) {
        (Some(wanted), Some(found)) => Sight::Byte {
            wanted: *wanted,
            found: *found,
        },
        _ => Sight::Short,
    }
}

// What is seen at the first sample that differs, or where the file ends before it.
pub fn sample_sight(seen: Option<Seen>, format: Format) -> Sight
    requires { IsFormat format }
{
    let channels = usize::from(format.channels);
    match seen {
        Some(seen) => Sight::Sample {
            cycle: seen.cycle,
            frame: u32::try_from(seen.before / channels).unwrap_or(u32::MAX),
            channel: (seen.before % channels) as u16,
            wanted: seen.wanted,
            found: seen.found,
        },
        None => Sight::Short,
    }
}

// What is seen where all samples are as expected, and the pad or the end is not. A pad byte that is wrong is not 0.
pub fn end_sight(place: u64, end: u64, pad: u8) -> Sight {
    if place >= end {
        return Sight::Long;
    }
    if pad == 0 {
        return Sight::Short;
    }
    Sight::Byte {
        wanted: 0,
        found: pad,
    }
}

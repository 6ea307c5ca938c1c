//! Files that are compared with what is computed: a byte at a read, of an odd number of bytes, and where a read fails.

ghost use Rattle.std.specs.Prelude.{◌≡◌, ◌*◌, ◌≤◌, length, true};
ghost use Rattle.session_model.specs.Samples.{width};
ghost use Rattle.session_model.specs.WaveFiles.{is_width};

use crate::sources::{NONE, slow_source, source_of};
use check_sights::Sight;
use file_compare::Compare;
use jack_host::{ReadFailed, Source};
use jack_types::Format;
use std::alloc::Global;
use std::process::Abort;

// Five frames: 1 to 5 on the left, 11 to 15 on the right.
const FIVE: &[u8; 64] =
    b"RIFF8\0\0\0WAVEfmt \x10\0\0\0\x01\0\x02\0\x80\xbb\0\0\0\xee\x02\0\x04\0\x10\0data\x14\0\0\0\x01\0\x0b\0\x02\0\x0c\0\x03\0\x0d\0\x04\0\x0e\0\x05\0\x0f\0";

const SAMPLES: [i32; 10] = [
    0x1_0000, 0xb_0000, 0x2_0000, 0xc_0000, 0x3_0000, 0xd_0000, 0x4_0000, 0xe_0000, 0x5_0000,
    0xf_0000,
];

// Three samples of 8 bits, and the pad byte.
const ODD: &[u8; 48] =
    b"RIFF\x28\0\0\0WAVEfmt \x10\0\0\0\x01\0\x01\0\x80\xbb\0\0\x80\xbb\0\0\x01\0\x08\0data\x03\0\0\0\x81\x82\x83\0";

const THREE: [i32; 3] = [0x100_0000, 0x200_0000, 0x300_0000];

/// The first wrong place, and what is seen there.
type Wrong = Option<(u64, Sight)>;

/// Compares a file with samples of this form, of cycle 1 and of cycle 2.
fn compared<S: Source>(
    source: S,
    channels: u16,
    bits: u16,
    first: &[i32],
    second: &[i32],
) -> Result<Wrong, ReadFailed>
    requires least { 1 ≤ channels }
    requires most { channels ≤ 8 }
    requires bits { is_width bits ≡ true }
    requires first { length first.now * width bits ≤ 3000 }
    requires second { length second.now * width bits ≤ 3000 }
{
    let mut compare = Compare::of(source);
    compare.begin()?;
    compare.put(bits, first, 1)?;
    compare.put(bits, second, 2)?;
    let found = compare.end(Format {
        rate: 48_000,
        channels,
        bits,
    })?;
    Ok(found.map(|place| (place, compare.sight())))
}

/// What is wrong with a source for two frames of cycle 1 and three of cycle 2.
fn stereo<S: Source>(source: S) -> Result<Wrong, ReadFailed> {
    compared(source, 2, 16, &SAMPLES[..4], &SAMPLES[4..])
}

/// Compares these bytes, one at a read.
fn slowly(rt: &impl Abort, alloc: Global, bytes: &[u8], expected: Wrong) {
    let found = stereo(slow_source(rt, alloc, bytes));
    assert!(rt; found == Ok(expected));
}

#[test]
fn a_byte_a_read_is_the_same(rt: HostRuntime) {
    let alloc = rt.alloc();
    slowly(&rt, alloc, FIVE, None);
    for cut in 0..64usize {
        slowly(&rt, alloc, &FIVE[..cut], Some((cut as u64, Sight::Short)));
    }
    for place in 0..44usize {
        let mut bytes = *FIVE;
        bytes[place] ^= 1;
        let byte = Sight::Byte {
            wanted: FIVE[place],
            found: bytes[place],
        };
        slowly(&rt, alloc, &bytes, Some((place as u64, byte)));
    }
}

fn sample(cycle: u32, frame: u32, channel: u16, wanted: i32, found: i32) -> Sight {
    Sight::Sample {
        cycle,
        frame,
        channel,
        wanted,
        found,
    }
}

#[test]
fn a_sample_a_byte_a_read_is_the_same(rt: HostRuntime) {
    for (place, value, sight) in [
        (44usize, 0, sample(1, 0, 0, 1, 0)),
        (45, 0x80, sample(1, 0, 0, 1, -32767)),
        (46, 10, sample(1, 0, 1, 11, 10)),
        (50, 13, sample(1, 1, 1, 12, 13)),
        (52, 0xfc, sample(2, 0, 0, 3, 252)),
        (57, 1, sample(2, 1, 0, 4, 260)),
        (63, 0xff, sample(2, 2, 1, 15, -241)),
    ] {
        assert!(rt; place < 64);
        let mut bytes = *FIVE;
        bytes[place] = value;
        slowly(&rt, rt.alloc(), &bytes, Some((place as u64, sight)));
    }
}

#[test]
fn a_read_that_failed_is_told(rt: HostRuntime) {
    for refused in 1..5u32 {
        let found = stereo(source_of(&rt, rt.alloc(), FIVE, refused));
        assert!(rt; found == Err(ReadFailed));
    }
}

/// What is wrong with these bytes for three samples of 8 bits.
fn odd(rt: &impl Abort, alloc: Global, bytes: &[u8], expected: Wrong) {
    let found = compared(source_of(rt, alloc, bytes, NONE), 1, 8, &THREE, &[]);
    assert!(rt; found == Ok(expected));
}

#[test]
fn a_pad_byte_counts(rt: HostRuntime) {
    let alloc = rt.alloc();
    odd(&rt, alloc, ODD, None);
    odd(&rt, alloc, &ODD[..47], Some((47, Sight::Short)));
    let mut bytes = *ODD;
    bytes[47] = 1;
    let byte = Sight::Byte {
        wanted: 0,
        found: 1,
    };
    odd(&rt, alloc, &bytes, Some((47, byte)));
}

//! What is printed of a rehearsal that was played.

ghost use Rattle.std.specs.Prelude.{◌≡◌, ◌+◌, ◌*◌, ◌<◌, ◌≤◌, ◌^◌, ◌%◌, ◌++◌, ◌+ℤ◌, IfOk, count_by, decimal, length, map, max, nat_abs};
ghost use Rattle.jack_types.specs.declared.replies.Entry.{Entry as EntryValue};
ghost use Rattle.rehearsal_model.specs.Rehearsals.{greatest, is_refused, summary_text};
ghost use Rattle.rehearsals.specs.Summaries.{IsRehearsal, IsTold, IsWithin, summary_of, units_behind};
ghost use Rattle.session_model.specs.Grammar.{int_text};
ghost use Rattle.session_model.specs.Samples.{down, samples_of, total};

use arrayvec::ArrayString;
use itoa::Buffer;
use jack_types::{Entry, Memory, Reply};
use rehearsal_laws::playback::rehearsal_is_played;
use samples::from_bytes;
use std::alloc::{AllocError, Global};

const CALLS: u64 = 263;

/// The bytes of the header of the playback's file.
const HEADER: usize = 44;

/// The six lines, with room for the longest numbers.
pub type Summary = ArrayString<256>;

// How many calls were refused.
fn refused_in(history: &[Entry]) -> usize
    ensures { result ≡ count_by (λ (entry : EntryValue). is_refused entry.reply) history.now }
{
    let mut count = 0;
    for entry in history {
        if let Reply::Refused(_) = entry.reply {
            count += 1;
        }
    }
    count
}

// The number of 16 bits that a sample is stored as.
fn unit_of(sample: i32) -> i32
    ensures value { result ≡ down 16 sample }
    ensures short { IsWithin result (2 ^ 15) }
{
    sample >> 16
}

// The greater of a magnitude and a number's.
fn peak_with(peak: u32, unit: i32) -> u32
    ensures { result ≡ max peak (nat_abs unit) }
{
    unit.unsigned_abs().max(peak)
}

// A sum and a number more.
fn sum_with(sum: i64, unit: i32) -> i64
    requires sum { IsWithin sum (2 ^ 62) }
    requires unit { IsWithin unit (2 ^ 15) }
    ensures { result ≡ sum +ℤ unit }
{
    sum + i64::from(unit)
}

// The greatest magnitude, in the file's units.
fn peak_of(samples: &[i32]) -> u32
    ensures { result ≡ greatest (map (down 16) samples.now) }
{
    let mut peak = 0;
    for sample in samples {
        peak = peak_with(peak, unit_of(*sample));
    }
    peak
}

// The sum, in the file's units.
fn sum_of(samples: &[i32]) -> i64
    requires { length samples.now < 2 ^ 40 }
    ensures { result ≡ total (map (down 16) samples.now) }
{
    let mut sum = 0;
    for sample in samples {
        sum = sum_with(sum, unit_of(*sample));
    }
    sum
}

// The samples of bytes of 16 bits.
fn samples_of(alloc: Global, bytes: &[u8]) -> Result<Vec<i32>, AllocError>
    requires { length bytes.now % 2 ≡ 0 }
    ensures { IfOk result (λ samples. samples.items ≡ samples_of 16 bytes.now) }
{
    let mut samples = vec![in alloc; 0i32; bytes.len() / 2]?;
    from_bytes(16, bytes, &mut samples);
    Ok(samples)
}

fn put_number(lines: &mut Summary, n: u64)
    requires { length lines.old.bytes + 20 ≤ 256 }
    ensures bytes { lines.new.bytes ≡ lines.old.bytes ++ decimal n }
    ensures short { length lines.new.bytes ≤ length lines.old.bytes + 20 }
{
    lines.push_str(Buffer::new().format(n));
}

fn put_signed(lines: &mut Summary, n: i64)
    requires { length lines.old.bytes + 20 ≤ 256 }
    ensures bytes { lines.new.bytes ≡ lines.old.bytes ++ int_text n }
    ensures short { length lines.new.bytes ≤ length lines.old.bytes + 20 }
{
    lines.push_str(Buffer::new().format(n));
}

// The lines of these numbers.
fn lines_of(number: u32, refused: usize, peak: u32, sum: i64) -> Summary
    ensures { result.bytes ≡ summary_of number refused peak sum }
{
    let refused = refused as u64;
    let mut lines = Summary::new();
    lines.push_str("rehearse ");
    put_number(&mut lines, u64::from(number));
    lines.push_str("\ncalls 263 accepted ");
    put_number(&mut lines, CALLS.saturating_sub(refused));
    lines.push_str(" refused ");
    put_number(&mut lines, refused);
    lines.push_str("\ncycles 10000 frames 640000\nplayback 2560044 peak ");
    put_number(&mut lines, u64::from(peak));
    lines.push_str(" sum ");
    put_signed(&mut lines, sum);
    lines.push_str("\nrecord 1280044 blocks 10000 overruns 0\nend\n");
    lines
}

// The lines of a history, and of a file whose header is followed by samples of 16 bits.
pub(crate) fn told(
    alloc: Global,
    number: u32,
    history: &[Entry],
    playback: &[u8],
) -> Result<Summary, Memory>
    requires long { 44 ≤ length playback.now }
    requires even { length playback.now % 2 ≡ 0 }
    requires few { length playback.now < 2 ^ 32 }
    ensures { IfOk result (λ lines. IsTold number history.now (units_behind playback.now) lines.bytes) }
{
    let Ok(samples) = samples_of(alloc, &playback[HEADER..]) else {
        return Err(Memory);
    };
    Ok(lines_of(
        number,
        refused_in(history),
        peak_of(&samples),
        sum_of(&samples),
    ))
}

/// The six lines of a rehearsal, from its history and the bytes of its playback's file.
///
/// It takes memory for the file's samples, and answers `Err` where there is none.
pub fn summary(
    alloc: Global,
    number: u32,
    history: &[Entry],
    playback: &[u8],
) -> Result<Summary, Memory>
    requires { IsRehearsal number history.now playback.now }
    ensures { IfOk result (λ lines. lines.bytes ≡ summary_text number) }
{
    rehearsal_is_played();
    told(alloc, number, history, playback)
}

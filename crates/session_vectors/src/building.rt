//! WAVE files, hosts and guests.

ghost use Rattle.std.specs.Prelude.{◌≡◌, IfOk};
ghost use Rattle.host_memory.specs.MemoryHost.{host_lent};
ghost use Rattle.guests.specs.Guests.{IsPlayable};

use guests::AnyGuest;
use host_memory::MemoryHost;
use jack_types::{Format, Score};
use std::alloc::Global;
use std::test::Fail;

/// 48,000 frames a second of one channel, in 16 bits.
pub const MONO: Format = Format {
    rate: 48000,
    channels: 1,
    bits: 16,
};

// How many bytes a sample has, at most 4.
fn size_of_sample(format: Format) -> u16 {
    (format.bits / 8).min(4)
}

fn add_u16(bytes: &mut Vec<u8>, number: u16) -> Result<(), Fail> {
    bytes.extend_from_slice(&number.to_le_bytes())?;
    Ok(())
}

fn add_u32(bytes: &mut Vec<u8>, number: u32) -> Result<(), Fail> {
    bytes.extend_from_slice(&number.to_le_bytes())?;
    Ok(())
}

// The header of a file with these two fields of sizes.
fn add_header(bytes: &mut Vec<u8>, format: Format, whole: u32, data: u32) -> Result<(), Fail> {
    let align = format.channels.saturating_mul(size_of_sample(format));
    bytes.extend_from_slice(b"RIFF")?;
    add_u32(bytes, whole)?;
    bytes.extend_from_slice(b"WAVEfmt ")?;
    add_u32(bytes, 16)?;
    add_u16(bytes, 1)?;
    add_u16(bytes, format.channels)?;
    add_u32(bytes, format.rate)?;
    add_u32(bytes, format.rate.saturating_mul(u32::from(align)))?;
    add_u16(bytes, align)?;
    add_u16(bytes, format.bits)?;
    bytes.extend_from_slice(b"data")?;
    add_u32(bytes, data)
}

fn add_samples(bytes: &mut Vec<u8>, format: Format, samples: &[i32]) -> Result<(), Fail> {
    let size = usize::from(size_of_sample(format)).min(4);
    for sample in samples {
        bytes.extend_from_slice(&sample.to_le_bytes()[..size])?;
    }
    Ok(())
}

/// A whole file of these samples. They are in the file's units, frame by frame.
pub fn wave(alloc: Global, format: Format, samples: &[i32]) -> Result<Vec<u8>, Fail> {
    let count = u32::try_from(samples.len()).unwrap_or(u32::MAX);
    let data = count.saturating_mul(u32::from(size_of_sample(format)));
    let mut bytes = Vec::new(alloc);
    add_header(&mut bytes, format, data.saturating_add(36), data)?;
    add_samples(&mut bytes, format, samples)?;
    Ok(bytes)
}

/// A file of these samples that was not finished.
pub fn unfinished_wave(alloc: Global, format: Format, samples: &[i32]) -> Result<Vec<u8>, Fail> {
    let mut bytes = Vec::new(alloc);
    add_header(&mut bytes, format, u32::MAX, u32::MAX)?;
    add_samples(&mut bytes, format, samples)?;
    Ok(bytes)
}

/// The pieces of a text, one behind the other.
pub fn text(alloc: Global, pieces: &[&str]) -> Result<String, Fail> {
    let mut text = String::new(alloc);
    for piece in pieces {
        text.push_str(piece)?;
    }
    Ok(text)
}

/// Adds a file, where there is none of this name.
pub fn add_file(host: &mut MemoryHost, name: &str, bytes: &[u8]) -> Result<(), Fail>
    ensures { host_lent host.new ≡ host_lent host.old }
{
    if host.file(name).is_none() {
        host.add(name, bytes).map_err(|_| "out of memory")?;
    }
    Ok(())
}

/// A host with the script `s` and the capture `c`.
pub fn host_with(alloc: Global, script: &[u8], capture: &[u8]) -> Result<MemoryHost, Fail>
    ensures { IfOk result (λ host. host_lent host ≡ 0) }
{
    let mut host = MemoryHost::new(alloc);
    add_file(&mut host, "s", script)?;
    add_file(&mut host, "c", capture)?;
    Ok(host)
}

fn add_guest(alloc: Global, guests: &mut Vec<AnyGuest>, score: Score) -> Result<(), Fail>
    requires { IsPlayable score }
{
    let guest = AnyGuest::new(alloc, score).map_err(|_| "out of memory")?;
    guests.push(guest)?;
    Ok(())
}

/// One guest, which fails in its third call.
pub fn failing_guest(alloc: Global) -> Result<Vec<AnyGuest>, Fail> {
    let mut guests = Vec::new(alloc);
    add_guest(alloc, &mut guests, Score::FailsAfter { calls: 2 })?;
    Ok(guests)
}

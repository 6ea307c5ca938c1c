ghost use Rattle.std.specs.Prelude.{◌≡◌, ◌≢◌, ◌⊎◌, ◌+◌, ◌-◌, ◌%◌, ◌^◌, ◌<◌, ◌≤◌, Err, IfErr, IfNone, IfOk, IfSome, IsTrue, None, Ok, OnErr, OnOk, Some, codes, drop, false, length, take, true};
ghost use Rattle.std.specs.Io.KnownBytes.{Consumes};
ghost use Rattle.std.specs.Str.{bytes_eq};
ghost use Rattle.jack_host.specs.Causes.{Rose};
ghost use Rattle.samples.specs.session_model.specs.WaveFiles.{cut_format_fault, format_of};
ghost use Rattle.samples.specs.session_model.specs.WaveOpening.{ended as ended_fault, opened, step};
ghost use Rattle.wave_pcm.specs.Readings.{IsReadable};
ghost use Rattle.wave_pcm.specs.Openings.{Begins, Opens};
ghost use Rattle.wave_pcm.specs.Steps.{Drops, IsReadableNext, met, taken};

use crate::formats::{read_format, u32_at};
use crate::input::{fill, skip};
use jack_host::Source;
use samples::jack_types::{Format, WaveFault};

// How many chunks may stand before the data.
const MOST_CHUNKS: u64 = 4096;

/// What stands behind a chunk's head: the data, or a chunk that was read over with so many bytes in all.
#[derive(Clone, Copy)]
pub enum Next {
    Data(Format, u32),
    Chunk(Option<Format>, u64),
}

/// Reads up to the first byte of the data, and gives the format and the data's size.
pub fn read_header<S: Source>(source: &mut S) -> Result<(Format, u32), WaveFault>
    ensures opens { IfOk result (λ told. Opens (S.left source.old) (S.left source.new) told.0 told.1) }
    ensures fails { IfErr result (λ fault. fault ≢ WaveFault.Read → IfSome (S.left source.old) (λ bytes. opened bytes ≡ Err fault)) }
    ensures readable { IfOk result (λ told. IsReadable told.0 × (told.1 < 2 ^ 32)) }
    ensures later { S.faults source.old ≤ S.faults source.new }
    ensures kept { OnOk result (S.faults source.new ≡ S.faults source.old) }
    ensures failed { IfErr result (λ fault. fault ≡ WaveFault.Read → Rose (S.faults source.old) (S.faults source.new)) }
{
    read_riff(source)?;
    let mut found = None;
    let mut read = 12u64;
    let mut passed = 0u64;
    'chunks: while passed < MOST_CHUNKS {
        match read_chunk(source, read, found) {
            Ok(Next::Data(format, size)) => return Ok((format, size)),
            Ok(Next::Chunk(now, total)) => {
                found = now;
                read += total;
                passed += 1;
            }
            Err(fault) => return Err(fault),
        }
    }
    Err(WaveFault::TooManyChunks)
}

// Reads the first 12 bytes: `RIFF`, a size, `WAVE`.
fn read_riff<S: Source>(source: &mut S) -> Result<(), WaveFault>
    ensures begins { OnOk result (Begins (S.left source.old) (S.left source.new)) }
    ensures fails { IfErr result (λ fault. fault ≢ WaveFault.Read → IfSome (S.left source.old) (λ bytes. opened bytes ≡ Err fault)) }
    ensures later { S.faults source.old ≤ S.faults source.new }
    ensures kept { OnOk result (S.faults source.new ≡ S.faults source.old) }
    ensures failed { IfErr result (λ fault. fault ≡ WaveFault.Read → Rose (S.faults source.old) (S.faults source.new)) }
{
    let mut head = [0u8; 12];
    let count = match fill(source, &mut head) {
        Ok(count) => count,
        Err(_) => return Err(WaveFault::Read),
    };
    if count < 4 {
        return Err(WaveFault::Ends(count as u64));
    }
    if !is_riff(&head) {
        return Err(WaveFault::NotRiff);
    }
    if count < 12 {
        return Err(WaveFault::Ends(count as u64));
    }
    if !is_wave(&head) {
        return Err(WaveFault::NotWave);
    }
    Ok(())
}

fn is_riff(head: &[u8; 12]) -> bool
    ensures { result ≡ bytes_eq (take 4 head.now) (codes "RIFF") }
{
    &head[..4] == b"RIFF".as_slice()
}

fn is_wave(head: &[u8; 12]) -> bool
    ensures { result ≡ bytes_eq (drop 8 head.now) (codes "WAVE") }
{
    &head[8..] == b"WAVE".as_slice()
}

// What it is where the chunks end.
fn ended(found: Option<Format>) -> WaveFault
    ensures { result ≡ ended_fault found }
{
    match found {
        None => WaveFault::NoFormat,
        Some(_) => WaveFault::NoData,
    }
}

// Reads a chunk's head: its id and its size. `None` is the input's end.
fn read_head<S: Source>(source: &mut S) -> Result<Option<[u8; 8]>, WaveFault>
    ensures whole { IfOk result (λ told. IfSome told (λ head. (length head ≡ 8) × Consumes (S.left source.old) (S.left source.new) head)) }
    ensures short { IfOk result (λ told. IfNone told (IfSome (S.left source.old) (λ bytes. length bytes < 8))) }
    ensures fault { IfErr result (λ fault. fault ≡ WaveFault.Read) }
    ensures later { S.faults source.old ≤ S.faults source.new }
    ensures kept { OnOk result (S.faults source.new ≡ S.faults source.old) }
    ensures failed { OnErr result (Rose (S.faults source.old) (S.faults source.new)) }
{
    let mut head = [0u8; 8];
    match fill(source, &mut head) {
        Ok(8) => Ok(Some(head)),
        Ok(_) => Ok(None),
        Err(_) => Err(WaveFault::Read),
    }
}

fn is_data(head: &[u8; 8]) -> bool
    ensures { result ≡ bytes_eq (take 4 head.now) (codes "data") }
{
    &head[..4] == b"data".as_slice()
}

fn is_format(head: &[u8; 8]) -> bool
    ensures { result ≡ bytes_eq (take 4 head.now) (codes "fmt ") }
{
    &head[..4] == b"fmt ".as_slice()
}

// Whether it is a `fmt ` chunk and the first one.
fn is_first_format(found: Option<Format>, head: &[u8; 8]) -> bool
    ensures first { IsTrue result → (found ≡ None) × (bytes_eq (take 4 head.now) (codes "fmt ") ≡ true) }
    ensures other { result ≡ false → IfNone found (bytes_eq (take 4 head.now) (codes "fmt ") ≡ false) }
{
    match found {
        None => is_format(head),
        Some(_) => false,
    }
}

// Reads one chunk, where so many bytes were read before it, or no more than the head of the data.
fn read_chunk<S: Source>(
    source: &mut S,
    read: u64,
    found: Option<Format>,
) -> Result<Next, WaveFault>
    requires room { read ≤ 2 ^ 59 }
    requires found { IfSome found IsReadable }
    ensures step { result ≢ Err WaveFault.Read → IfSome (S.left source.old) (λ bytes. step (read + length bytes) found bytes ≡ met result bytes) }
    ensures taken { IfOk result (λ next. Drops (S.left source.old) (S.left source.new) (taken next)) }
    ensures small { IfOk result (λ next. taken next ≤ 2 ^ 33) }
    ensures readable { IfOk result IsReadableNext }
    ensures later { S.faults source.old ≤ S.faults source.new }
    ensures kept { OnOk result (S.faults source.new ≡ S.faults source.old) }
    ensures failed { IfErr result (λ fault. fault ≡ WaveFault.Read → Rose (S.faults source.old) (S.faults source.new)) }
{
    let Some(head) = read_head(source)? else {
        return Err(ended(found));
    };
    let size = u32_at(&head, 4);
    if is_data(&head) {
        return at_data(found, size);
    }
    if is_first_format(found, &head) {
        return read_first_format(source, read + 8, size);
    }
    pass(source, found, size, 0)
}

// The data of this size, if a format stands before it.
fn at_data(found: Option<Format>, size: u32) -> Result<Next, WaveFault>
    ensures data { IfSome found (λ format. result ≡ Ok (Next.Data format size)) }
    ensures none { IfNone found (result ≡ Err WaveFault.NoFormat) }
{
    match found {
        None => Err(WaveFault::NoFormat),
        Some(format) => Ok(Next::Data(format, size)),
    }
}

// Reads the first `fmt ` from its content on, where so many bytes were read before that.
fn read_first_format<S: Source>(source: &mut S, read: u64, size: u32) -> Result<Next, WaveFault>
    requires { read ≤ 2 ^ 60 }
    ensures chunk { IfOk result (λ next. IfSome (S.left source.old) (λ content. (cut_format_fault (read + length content) size content ≡ None) × (size + size % 2 ≤ length content) × (next ≡ Next.Chunk (Some (format_of content)) (8 + size + size % 2)))) }
    ensures taken { IfOk result (λ next. (taken next ≡ 8 + size + size % 2) × Drops (S.left source.old) (S.left source.new) (size + size % 2)) }
    ensures ends { IfErr result (λ fault. fault ≢ WaveFault.Read → IfSome (S.left source.old) (λ content. (cut_format_fault (read + length content) size content ≡ Some fault)
        ⊎ ((cut_format_fault (read + length content) size content ≡ None) × (fault ≡ WaveFault.NoData) × (length content < size + size % 2)))) }
    ensures readable { IfOk result IsReadableNext }
    ensures later { S.faults source.old ≤ S.faults source.new }
    ensures kept { OnOk result (S.faults source.new ≡ S.faults source.old) }
    ensures failed { IfErr result (λ fault. fault ≡ WaveFault.Read → Rose (S.faults source.old) (S.faults source.new)) }
{
    let (format, done) = read_format(source, size, read)?;
    pass(source, Some(format), size, done)
}

// Reads over the rest of a chunk of this size and its pad, of which so many bytes were read behind its head.
fn pass<S: Source>(
    source: &mut S,
    found: Option<Format>,
    size: u32,
    done: u64,
) -> Result<Next, WaveFault>
    requires { done ≤ size }
    ensures chunk { IfOk result (λ next. next ≡ Next.Chunk found (8 + size + size % 2)) }
    ensures taken { OnOk result (Drops (S.left source.old) (S.left source.new) (size + size % 2 - done)) }
    ensures ends { IfErr result (λ fault. fault ≢ WaveFault.Read → (fault ≡ ended_fault found) × IfSome (S.left source.old) (λ told. length told < size + size % 2 - done)) }
    ensures later { S.faults source.old ≤ S.faults source.new }
    ensures kept { OnOk result (S.faults source.new ≡ S.faults source.old) }
    ensures failed { IfErr result (λ fault. fault ≡ WaveFault.Read → Rose (S.faults source.old) (S.faults source.new)) }
{
    let padded = u64::from(size) + u64::from(size % 2);
    match skip(source, padded - done) {
        Ok(true) => Ok(Next::Chunk(found, 8 + u64::from(size) + u64::from(size % 2))),
        Ok(false) => Err(ended(found)),
        Err(_) => Err(WaveFault::Read),
    }
}

ghost use Rattle.std.specs.Prelude.{◌≡◌, ◌≢◌, ◌+◌, ◌-◌, ◌*◌, ◌^◌, ◌<◌, ◌≤◌, ◌==◌, ◌&&◌, ◌||◌, Some, None, IfErr, IfOk, IfSome, OnOk, length, nat_le, nat_lt, slice_range, take, true};
ghost use Rattle.std.specs.Io.KnownBytes.{Consumes};
ghost use Rattle.std.specs.Str.{bytes_eq};
ghost use Rattle.jack_host.specs.Causes.{Rose};
ghost use Rattle.samples.specs.session_model.specs.Samples.{width};
ghost use Rattle.samples.specs.session_model.specs.WaveFiles.{cut_format_fault, failed_test, format_of, is_width, needed, pcm_guid, test_fault, u16_at as u16_number, u32_at as u32_number};
ghost use Rattle.wave_pcm.specs.Readings.{IsReadable};
ghost use Rattle.wave_pcm.specs.Contents.{extended_test, IsTestedBy};
ghost use Rattle.wave_pcm.specs.Steps.{Drops};

use crate::input::fill;
use jack_host::Source;
use samples::jack_types::{Field, Format, WaveFault};

const EXTENDED: u16 = 0xfffe;

const PCM_GUID: [u8; 16] = [
    0x01, 0x00, 0x00, 0x00, 0x00, 0x00, 0x10, 0x00, 0x80, 0x00, 0x00, 0xaa, 0x00, 0x38, 0x9b, 0x71,
];

// The number in two bytes at a place.
pub fn u16_at(bytes: &[u8], at: usize) -> u16
    requires { at + 2 ≤ length bytes.now }
    ensures { result ≡ u16_number bytes.now at }
{
    u16::from_le_bytes([bytes[at], bytes[at + 1]])
}

// The number in four bytes at a place.
pub fn u32_at(bytes: &[u8], at: usize) -> u32
    requires { at + 4 ≤ length bytes.now }
    ensures { result ≡ u32_number bytes.now at }
{
    u32::from_le_bytes([bytes[at], bytes[at + 1], bytes[at + 2], bytes[at + 3]])
}

fn is_tag(tag: u16) -> bool
    ensures { result ≡ (tag == 1 || tag == 0xfffe) }
{
    tag == 1 || tag == EXTENDED
}

fn are_channels(channels: u16) -> bool
    ensures { result ≡ (nat_le 1 channels && nat_le channels 16) }
{
    channels >= 1 && channels <= 16
}

fn is_bits(bits: u16) -> bool
    ensures { result ≡ is_width bits }
{
    bits == 8 || bits == 16 || bits == 24 || bits == 32
}

fn is_align(align: u16, channels: u16, bits: u16) -> bool
    ensures { result ≡ (align == channels * width bits) }
{
    u32::from(align) == u32::from(channels) * u32::from(bits / 8)
}

fn is_pcm(content: &[u8; 40]) -> bool
    ensures { result ≡ bytes_eq (slice_range content.now 24 40) pcm_guid }
{
    &content[24..40] == PCM_GUID.as_slice()
}

// The first of the tests behind that of the size that fails, where all that they look at was read.
fn first_fault(size: u32, content: &[u8; 40]) -> Option<WaveFault>
    requires { 16 ≤ size }
    ensures { result ≡ test_fault (failed_test size content.now) }
{
    let tag = u16_at(content, 0);
    if !is_tag(tag) {
        return Some(WaveFault::BadFormat(Field::Tag, u32::from(tag)));
    }
    let channels = u16_at(content, 2);
    if !are_channels(channels) {
        return Some(WaveFault::BadFormat(Field::Channels, u32::from(channels)));
    }
    let rate = u32_at(content, 4);
    if rate < 1 {
        return Some(WaveFault::BadFormat(Field::Rate, rate));
    }
    let bits = u16_at(content, 14);
    if !is_bits(bits) {
        return Some(WaveFault::BadFormat(Field::Bits, u32::from(bits)));
    }
    let align = u16_at(content, 12);
    if !is_align(align, channels, bits) {
        return Some(WaveFault::BadFormat(Field::Align, u32::from(align)));
    }
    if tag == EXTENDED {
        return extended_fault(size, content);
    }
    None
}

// The first test of an extended format that fails.
fn extended_fault(size: u32, content: &[u8; 40]) -> Option<WaveFault>
    ensures { result ≡ test_fault (extended_test size content.now) }
{
    if size < 40 {
        return Some(WaveFault::BadFormat(Field::Extended, size));
    }
    let extra = u16_at(content, 16);
    if extra < 22 {
        return Some(WaveFault::BadFormat(Field::Extra, u32::from(extra)));
    }
    if !is_pcm(content) {
        return Some(WaveFault::BadFormat(Field::Guid, u32_at(content, 24)));
    }
    None
}

/// Reads and tests the content of a `fmt ` chunk of this size, where so many bytes were read before it.
///
/// It takes the first 16 bytes, or 40 of an extended format that has as many, and says which.
pub fn read_format<S: Source>(
    source: &mut S,
    size: u32,
    read: u64,
) -> Result<(Format, u64), WaveFault>
    requires { read ≤ 2 ^ 60 }
    ensures passes { IfOk result (λ told. IfSome (S.left source.old) (λ content. (cut_format_fault (read + length content) size content ≡ None) × (told.0 ≡ format_of content))) }
    ensures taken { IfOk result (λ told. (told.1 ≤ size) × Drops (S.left source.old) (S.left source.new) told.1) }
    ensures fails { IfErr result (λ fault. fault ≢ WaveFault.Read → IfSome (S.left source.old) (λ content. cut_format_fault (read + length content) size content ≡ Some fault)) }
    ensures readable { IfOk result (λ told. IsReadable told.0) }
    ensures later { S.faults source.old ≤ S.faults source.new }
    ensures kept { OnOk result (S.faults source.new ≡ S.faults source.old) }
    ensures failed { IfErr result (λ fault. fault ≡ WaveFault.Read → Rose (S.faults source.old) (S.faults source.new)) }
{
    if size < 16 {
        return Err(WaveFault::BadFormat(Field::Size, size));
    }
    let mut content = [0u8; 40];
    let taken = read_content(source, &mut content, size, read)?;
    match first_fault(size, &content) {
        Some(fault) => Err(fault),
        None => Ok((format_in(&content), taken)),
    }
}

// The format that passed its tests.
fn format_in(content: &[u8; 40]) -> Format
    ensures { result ≡ format_of content.now }
{
    Format {
        rate: u32_at(content, 4),
        channels: u16_at(content, 2),
        bits: u16_at(content, 14),
    }
}

// Whether 40 bytes of a content are looked at, and not 16.
fn is_long(size: u32, tag: u16) -> bool
    ensures { result ≡ (tag == 0xfffe && nat_le 40 size) }
{
    tag == EXTENDED && size >= 40
}

// Reads as much of a content as its tests need, and says how much.
fn read_content<S: Source>(
    source: &mut S,
    content: &mut [u8; 40],
    size: u32,
    read: u64,
) -> Result<u64, WaveFault>
    requires room { read ≤ 2 ^ 60 }
    requires size { 16 ≤ size }
    ensures taken { IfOk result (λ n. (n ≤ size) × Drops (S.left source.old) (S.left source.new) n) }
    ensures content { OnOk result (IfSome (S.left source.old) (λ told. IsTestedBy size told content.new)) }
    ensures fails { IfErr result (λ fault. fault ≢ WaveFault.Read → IfSome (S.left source.old) (λ told. (nat_lt (length told) (needed size told) ≡ true) × (fault ≡ WaveFault.Ends (read + length told)))) }
    ensures later { S.faults source.old ≤ S.faults source.new }
    ensures kept { OnOk result (S.faults source.new ≡ S.faults source.old) }
    ensures failed { IfErr result (λ fault. fault ≡ WaveFault.Read → Rose (S.faults source.old) (S.faults source.new)) }
{
    read_part(source, content, 0, 16, read)?;
    if !is_long(size, u16_at(content, 0)) {
        return Ok(16);
    }
    match read_part(source, content, 16, 40, read + 16) {
        Ok(()) => Ok(40),
        Err(fault) => Err(fault),
    }
}

// Reads one part of a content, all of it.
fn read_part<S: Source>(
    source: &mut S,
    content: &mut [u8; 40],
    from: usize,
    to: usize,
    read: u64,
) -> Result<(), WaveFault>
    requires order { from ≤ to }
    requires bound { to ≤ 40 }
    requires room { read ≤ 2 ^ 61 }
    ensures front { take from content.new ≡ take from content.old }
    ensures bytes { OnOk result (Consumes (S.left source.old) (S.left source.new) (slice_range content.new from to)) }
    ensures fails { IfErr result (λ fault. fault ≢ WaveFault.Read → IfSome (S.left source.old) (λ told. (length told < to - from) × (fault ≡ WaveFault.Ends (read + length told)))) }
    ensures later { S.faults source.old ≤ S.faults source.new }
    ensures kept { OnOk result (S.faults source.new ≡ S.faults source.old) }
    ensures failed { IfErr result (λ fault. fault ≡ WaveFault.Read → Rose (S.faults source.old) (S.faults source.new)) }
{
    let count = match fill(source, &mut content[from..to]) {
        Ok(count) => count,
        Err(_) => return Err(WaveFault::Read),
    };
    if count < to - from {
        return Err(WaveFault::Ends(read + count as u64));
    }
    Ok(())
}

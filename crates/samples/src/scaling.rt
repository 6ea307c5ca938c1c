ghost use Rattle.std.specs.Prelude.{◌≡◌, ◌+◌, ◌*◌, ◌<◌, ◌≤◌, ℕ, [], ◌∷◌, length, slice_index, take, true};
ghost use Rattle.wave_laws.specs.session_model.specs.Samples.{bytes_of, down, sample, samples_of, stored, storing, up, width};
ghost use Rattle.wave_laws.specs.session_model.specs.WaveFiles.{is_width};

use crate::kernels::{
    eight_8, eight_16, four_24, four_32, four_to_24, four_to_32, read_all, sixteen_to_8,
    sixteen_to_16,
};

/// Reads samples from a file's bytes.
///
/// The bytes are little-endian numbers of `bits` bits, at 8 bits unsigned and else signed, one
/// sample after another. Full scale at every width becomes full scale in 32 bits.
pub fn from_bytes(bits: u16, bytes: &[u8], out: &mut [i32])
    requires bits { is_width bits ≡ true }
    requires lengths { length bytes.now ≡ length out.old * width bits }
    ensures { out.new ≡ samples_of bits bytes.now }
{
    match bits {
        8 => from_8(bytes, out),
        16 => from_16(bytes, out),
        24 => from_24(bytes, out),
        _ => from_32(bytes, out),
    }
}

/// Writes samples as a file's bytes, the reverse of [`from_bytes`] but for the bits that the width
/// leaves out: these are cut off towards minus infinity.
pub fn to_bytes(bits: u16, samples: &[i32], out: &mut [u8])
    requires bits { is_width bits ≡ true }
    requires lengths { length out.old ≡ length samples.now * width bits }
    ensures { out.new ≡ bytes_of bits samples.now }
{
    match bits {
        8 => to_8(samples, out),
        16 => to_16(samples, out),
        24 => to_24(samples, out),
        _ => to_32(samples, out),
    }
}

fn sample_8(a: u8) -> i32
    ensures { result ≡ up 8 (stored 8 (a ∷ [])) }
{
    (i32::from(a) - 128) * 0x100_0000
}

fn sample_16(a: u8, b: u8) -> i32
    ensures { result ≡ up 16 (stored 16 (a ∷ b ∷ [])) }
{
    i32::from_le_bytes([0, 0, a, b])
}

fn sample_24(a: u8, b: u8, c: u8) -> i32
    ensures { result ≡ up 24 (stored 24 (a ∷ b ∷ c ∷ [])) }
{
    i32::from_le_bytes([0, a, b, c])
}

fn sample_32(a: u8, b: u8, c: u8, d: u8) -> i32
    ensures { result ≡ up 32 (stored 32 (a ∷ b ∷ c ∷ d ∷ [])) }
{
    i32::from_le_bytes([a, b, c, d])
}

// Reads the samples from `start` on, one at a time.
pub(crate) fn from_8_plain(bytes: &[u8], out: &mut [i32], start: usize)
    requires lengths { length bytes.now ≡ length out.old }
    requires start { start ≤ length out.old }
    requires front { (k : ℕ) → k < start → sample out.old k ≡ up 8 (stored 8 (slice_index bytes.now k ∷ [])) }
    ensures { out.new ≡ samples_of 8 bytes.now }
{
    for i in start..out.len() {
        out[i] = sample_8(bytes[i]);
    }
}

fn from_8(bytes: &[u8], out: &mut [i32])
    requires { length bytes.now ≡ length out.old }
    ensures { out.new ≡ samples_of 8 bytes.now }
{
    let blocks = out.len() / 8;
    for block in 0..blocks {
        eight_8(bytes, out, 8 * block);
    }
    from_8_plain(bytes, out, 8 * blocks);
}

// Reads the samples from `start` on, one at a time.
pub(crate) fn from_16_plain(bytes: &[u8], out: &mut [i32], start: usize)
    requires lengths { length bytes.now ≡ length out.old * 2 }
    requires start { start ≤ length out.old }
    requires front { (k : ℕ) → k < start → sample out.old k ≡ up 16 (stored 16 (slice_index bytes.now (2 * k) ∷ slice_index bytes.now (2 * k + 1) ∷ [])) }
    ensures { out.new ≡ samples_of 16 bytes.now }
{
    for i in start..out.len() {
        out[i] = sample_16(bytes[2 * i], bytes[2 * i + 1]);
    }
}

fn from_16(bytes: &[u8], out: &mut [i32])
    requires { length bytes.now ≡ length out.old * 2 }
    ensures { out.new ≡ samples_of 16 bytes.now }
{
    let blocks = out.len() / 8;
    for block in 0..blocks {
        eight_16(bytes, out, 8 * block);
    }
    from_16_plain(bytes, out, 8 * blocks);
}

// Reads the samples from `start` on, one at a time.
pub(crate) fn from_24_plain(bytes: &[u8], out: &mut [i32], start: usize)
    requires lengths { length bytes.now ≡ length out.old * 3 }
    requires start { start ≤ length out.old }
    requires front { (k : ℕ) → k < start → sample out.old k ≡ up 24 (stored 24 (slice_index bytes.now (3 * k) ∷ slice_index bytes.now (3 * k + 1) ∷ slice_index bytes.now (3 * k + 2) ∷ [])) }
    ensures { out.new ≡ samples_of 24 bytes.now }
{
    for i in start..out.len() {
        out[i] = sample_24(bytes[3 * i], bytes[3 * i + 1], bytes[3 * i + 2]);
    }
}

fn from_24(bytes: &[u8], out: &mut [i32])
    requires { length bytes.now ≡ length out.old * 3 }
    ensures { out.new ≡ samples_of 24 bytes.now }
{
    let blocks = out.len().saturating_sub(2) / 4;
    for block in 0..blocks {
        four_24(bytes, out, 4 * block);
    }
    from_24_plain(bytes, out, 4 * blocks);
}

// Reads the samples from `start` on, one at a time.
pub(crate) fn from_32_plain(bytes: &[u8], out: &mut [i32], start: usize)
    requires lengths { length bytes.now ≡ length out.old * 4 }
    requires start { start ≤ length out.old }
    requires front { (k : ℕ) → k < start → sample out.old k ≡ up 32 (stored 32 (slice_index bytes.now (4 * k) ∷ slice_index bytes.now (4 * k + 1) ∷ slice_index bytes.now (4 * k + 2) ∷ slice_index bytes.now (4 * k + 3) ∷ [])) }
    ensures { out.new ≡ samples_of 32 bytes.now }
{
    for i in start..out.len() {
        out[i] = sample_32(
            bytes[4 * i],
            bytes[4 * i + 1],
            bytes[4 * i + 2],
            bytes[4 * i + 3],
        );
    }
}

fn from_32(bytes: &[u8], out: &mut [i32])
    requires { length bytes.now ≡ length out.old * 4 }
    ensures { out.new ≡ samples_of 32 bytes.now }
{
    let blocks = out.len() / 4;
    for block in 0..blocks {
        four_32(bytes, out, 4 * block);
    }
    from_32_plain(bytes, out, 4 * blocks);
}

fn bytes_8(sample: i32) -> u8
    ensures { result ∷ [] ≡ storing 8 (down 8 sample) }
{
    let [_, _, _, top] = sample.to_le_bytes();
    top ^ 0x80
}

fn bytes_16(sample: i32) -> [u8; 2]
    ensures { result ≡ storing 16 (down 16 sample) }
{
    let [_, _, a, b] = sample.to_le_bytes();
    [a, b]
}

fn bytes_24(sample: i32) -> [u8; 3]
    ensures { result ≡ storing 24 (down 24 sample) }
{
    let [_, a, b, c] = sample.to_le_bytes();
    [a, b, c]
}

fn bytes_32(sample: i32) -> [u8; 4]
    ensures { result ≡ storing 32 (down 32 sample) }
{
    sample.to_le_bytes()
}

// Writes the samples from `start` on, one at a time.
pub(crate) fn to_8_plain(samples: &[i32], out: &mut [u8], start: usize)
    requires lengths { length out.old ≡ length samples.now }
    requires start { start ≤ length samples.now }
    requires front { take start out.old ≡ bytes_of 8 (take start samples.now) }
    ensures { out.new ≡ bytes_of 8 samples.now }
{
    for i in start..samples.len() {
        out[i] = bytes_8(samples[i]);
    }
}

fn to_8(samples: &[i32], out: &mut [u8])
    requires { length out.old ≡ length samples.now }
    ensures { out.new ≡ bytes_of 8 samples.now }
{
    read_all(samples);
    let blocks = samples.len() / 16;
    for block in 0..blocks {
        sixteen_to_8(samples, out, 16 * block);
    }
    to_8_plain(samples, out, 16 * blocks);
}

// Writes the samples from `start` on, one at a time.
pub(crate) fn to_16_plain(samples: &[i32], out: &mut [u8], start: usize)
    requires lengths { length out.old ≡ length samples.now * 2 }
    requires start { start ≤ length samples.now }
    requires front { take (2 * start) out.old ≡ bytes_of 16 (take start samples.now) }
    ensures { out.new ≡ bytes_of 16 samples.now }
{
    for i in start..samples.len() {
        let [a, b] = bytes_16(samples[i]);
        out[2 * i] = a;
        out[2 * i + 1] = b;
    }
}

fn to_16(samples: &[i32], out: &mut [u8])
    requires { length out.old ≡ length samples.now * 2 }
    ensures { out.new ≡ bytes_of 16 samples.now }
{
    read_all(samples);
    let blocks = samples.len() / 16;
    for block in 0..blocks {
        sixteen_to_16(samples, out, 16 * block);
    }
    to_16_plain(samples, out, 16 * blocks);
}

// Writes the samples from `start` on, one at a time.
pub(crate) fn to_24_plain(samples: &[i32], out: &mut [u8], start: usize)
    requires lengths { length out.old ≡ length samples.now * 3 }
    requires start { start ≤ length samples.now }
    requires front { take (3 * start) out.old ≡ bytes_of 24 (take start samples.now) }
    ensures { out.new ≡ bytes_of 24 samples.now }
{
    for i in start..samples.len() {
        let [a, b, c] = bytes_24(samples[i]);
        out[3 * i] = a;
        out[3 * i + 1] = b;
        out[3 * i + 2] = c;
    }
}

fn to_24(samples: &[i32], out: &mut [u8])
    requires { length out.old ≡ length samples.now * 3 }
    ensures { out.new ≡ bytes_of 24 samples.now }
{
    read_all(samples);
    let blocks = samples.len().saturating_sub(2) / 4;
    for block in 0..blocks {
        four_to_24(samples, out, 4 * block);
    }
    to_24_plain(samples, out, 4 * blocks);
}

// Writes the samples from `start` on, one at a time.
pub(crate) fn to_32_plain(samples: &[i32], out: &mut [u8], start: usize)
    requires lengths { length out.old ≡ length samples.now * 4 }
    requires start { start ≤ length samples.now }
    requires front { take (4 * start) out.old ≡ bytes_of 32 (take start samples.now) }
    ensures { out.new ≡ bytes_of 32 samples.now }
{
    for i in start..samples.len() {
        let [a, b, c, d] = bytes_32(samples[i]);
        out[4 * i] = a;
        out[4 * i + 1] = b;
        out[4 * i + 2] = c;
        out[4 * i + 3] = d;
    }
}

fn to_32(samples: &[i32], out: &mut [u8])
    requires { length out.old ≡ length samples.now * 4 }
    ensures { out.new ≡ bytes_of 32 samples.now }
{
    read_all(samples);
    let blocks = samples.len() / 4;
    for block in 0..blocks {
        four_to_32(samples, out, 4 * block);
    }
    to_32_plain(samples, out, 4 * blocks);
}

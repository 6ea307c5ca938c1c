// Blocks of samples on vectors.
ghost use Rattle.std.specs.Prelude.{◌≡◌, ◌+◌, ◌*◌, ◌<◌, ◌≤◌, ℕ, [], ◌∷◌, length, map, slice_index, take};
ghost use Rattle.std.specs.Int.{w32, w64};
ghost use Rattle.std.specs.Int.RustNames.{FitsSigned};
ghost use Rattle.wave_laws.specs.session_model.specs.Samples.{bytes_of, clamp, sample, stored, up};

use std::simd::prelude::*;

// Reads eight samples more, of 16 bits.
pub(crate) fn eight_16(bytes: &[u8], out: &mut [i32], place: usize)
    requires there { 2 * place + 16 ≤ length bytes.now }
    requires room { place + 8 ≤ length out.old }
    requires front { (k : ℕ) → k < place → sample out.old k ≡ up 16 (stored 16 (slice_index bytes.now (2 * k) ∷ slice_index bytes.now (2 * k + 1) ∷ [])) }
    ensures { (k : ℕ) → k < place + 8 → sample out.new k ≡ up 16 (stored 16 (slice_index bytes.now (2 * k) ∷ slice_index bytes.now (2 * k + 1) ∷ [])) }
{
    let lanes = u8x16::from_slice(&bytes[2 * place..]);
    let spread = lanes.shuffle(
        u8x16::splat(0),
        [
            16, 16, 0, 1, 16, 16, 2, 3, 16, 16, 4, 5, 16, 16, 6, 7, 16, 16, 8, 9, 16, 16, 10, 11,
            16, 16, 12, 13, 16, 16, 14, 15,
        ],
    );
    i32x8::from_le_bytes(spread).copy_to_slice(&mut out[place..]);
}

// Reads four samples more, of 24 bits: sixteen bytes are loaded, twelve of them are taken.
pub(crate) fn four_24(bytes: &[u8], out: &mut [i32], place: usize)
    requires there { 3 * place + 16 ≤ length bytes.now }
    requires room { place + 4 ≤ length out.old }
    requires front { (k : ℕ) → k < place → sample out.old k ≡ up 24 (stored 24 (slice_index bytes.now (3 * k) ∷ slice_index bytes.now (3 * k + 1) ∷ slice_index bytes.now (3 * k + 2) ∷ [])) }
    ensures { (k : ℕ) → k < place + 4 → sample out.new k ≡ up 24 (stored 24 (slice_index bytes.now (3 * k) ∷ slice_index bytes.now (3 * k + 1) ∷ slice_index bytes.now (3 * k + 2) ∷ [])) }
{
    let lanes = u8x16::from_slice(&bytes[3 * place..]);
    let spread = lanes.shuffle(
        u8x16::splat(0),
        [16, 0, 1, 2, 16, 3, 4, 5, 16, 6, 7, 8, 16, 9, 10, 11],
    );
    i32x4::from_le_bytes(spread).copy_to_slice(&mut out[place..]);
}

// Reads four samples more, of 32 bits.
pub(crate) fn four_32(bytes: &[u8], out: &mut [i32], place: usize)
    requires there { 4 * place + 16 ≤ length bytes.now }
    requires room { place + 4 ≤ length out.old }
    requires front { (k : ℕ) → k < place → sample out.old k ≡ up 32 (stored 32 (slice_index bytes.now (4 * k) ∷ slice_index bytes.now (4 * k + 1) ∷ slice_index bytes.now (4 * k + 2) ∷ slice_index bytes.now (4 * k + 3) ∷ [])) }
    ensures { (k : ℕ) → k < place + 4 → sample out.new k ≡ up 32 (stored 32 (slice_index bytes.now (4 * k) ∷ slice_index bytes.now (4 * k + 1) ∷ slice_index bytes.now (4 * k + 2) ∷ slice_index bytes.now (4 * k + 3) ∷ [])) }
{
    let lanes = u8x16::from_slice(&bytes[4 * place..]);
    i32x4::from_le_bytes(lanes).copy_to_slice(&mut out[place..]);
}

// Reads eight samples more, of 8 bits: a byte, less 128, is the top byte of a sample.
pub(crate) fn eight_8(bytes: &[u8], out: &mut [i32], place: usize)
    requires there { place + 8 ≤ length bytes.now }
    requires room { place + 8 ≤ length out.old }
    requires front { (k : ℕ) → k < place → sample out.old k ≡ up 8 (stored 8 (slice_index bytes.now k ∷ [])) }
    ensures { (k : ℕ) → k < place + 8 → sample out.new k ≡ up 8 (stored 8 (slice_index bytes.now k ∷ [])) }
{
    let lanes = u8x8::from_slice(&bytes[place..]) ^ u8x8::splat(0x80);
    let spread = lanes.shuffle(
        u8x8::splat(0),
        [
            8, 8, 8, 0, 8, 8, 8, 1, 8, 8, 8, 2, 8, 8, 8, 3, 8, 8, 8, 4, 8, 8, 8, 5, 8, 8, 8, 6, 8,
            8, 8, 7,
        ],
    );
    i32x8::from_le_bytes(spread).copy_to_slice(&mut out[place..]);
}

// That a sample is a number of 32 bits is known where it is read.
fn read(samples: &[i32], i: usize)
    requires { i < length samples.now }
    ensures { FitsSigned w32 (sample samples.now i) }
{
    let _sample = samples[i];
}

// Tells the blocks, which read many samples at once, that each is a number of 32 bits. What is
// read is not used, so no code is left of this in the program.
pub(crate) fn read_all(samples: &[i32])
    ensures { (k : ℕ) → k < length samples.now → FitsSigned w32 (sample samples.now k) }
{
    for i in 0..samples.len() {
        read(samples, i);
    }
}

// Writes sixteen samples more, in 8 bits: the top byte of each, from -128 to 127, is counted from 0.
pub(crate) fn sixteen_to_8(samples: &[i32], out: &mut [u8], place: usize)
    requires there { place + 16 ≤ length samples.now }
    requires room { place + 16 ≤ length out.old }
    requires fits { (k : ℕ) → k < length samples.now → FitsSigned w32 (sample samples.now k) }
    requires front { take place out.old ≡ bytes_of 8 (take place samples.now) }
    ensures { take (place + 16) out.new ≡ bytes_of 8 (take (place + 16) samples.now) }
{
    let tops = i32x16::from_slice(&samples[place..]) >> i32x16::splat(24);
    let lowest = tops.to_le_bytes().swizzle([
        0, 4, 8, 12, 16, 20, 24, 28, 32, 36, 40, 44, 48, 52, 56, 60,
    ]);
    let bytes = lowest ^ u8x16::splat(0x80);
    bytes.copy_to_slice(&mut out[place..]);
}

// Writes sixteen samples more, in 16 bits.
pub(crate) fn sixteen_to_16(samples: &[i32], out: &mut [u8], place: usize)
    requires there { place + 16 ≤ length samples.now }
    requires room { 2 * place + 32 ≤ length out.old }
    requires fits { (k : ℕ) → k < length samples.now → FitsSigned w32 (sample samples.now k) }
    requires front { take (2 * place) out.old ≡ bytes_of 16 (take place samples.now) }
    ensures { take (2 * place + 32) out.new ≡ bytes_of 16 (take (place + 16) samples.now) }
{
    let tops = i32x16::from_slice(&samples[place..]) >> i32x16::splat(16);
    let lowest = tops.to_le_bytes().swizzle([
        0, 1, 4, 5, 8, 9, 12, 13, 16, 17, 20, 21, 24, 25, 28, 29, 32, 33, 36, 37, 40, 41, 44, 45,
        48, 49, 52, 53, 56, 57, 60, 61,
    ]);
    lowest.copy_to_slice(&mut out[2 * place..]);
}

// Writes four samples more, in 32 bits.
pub(crate) fn four_to_32(samples: &[i32], out: &mut [u8], place: usize)
    requires there { place + 4 ≤ length samples.now }
    requires room { 4 * place + 16 ≤ length out.old }
    requires fits { (k : ℕ) → k < length samples.now → FitsSigned w32 (sample samples.now k) }
    requires front { take (4 * place) out.old ≡ bytes_of 32 (take place samples.now) }
    ensures { take (4 * place + 16) out.new ≡ bytes_of 32 (take (place + 4) samples.now) }
{
    let lanes = i32x4::from_slice(&samples[place..]);
    lanes.to_le_bytes().copy_to_slice(&mut out[4 * place..]);
}

// Writes four samples more, in 24 bits: sixteen bytes are stored, and the last four of them are
// written over by what follows.
pub(crate) fn four_to_24(samples: &[i32], out: &mut [u8], place: usize)
    requires there { place + 4 ≤ length samples.now }
    requires room { 3 * place + 16 ≤ length out.old }
    requires fits { (k : ℕ) → k < length samples.now → FitsSigned w32 (sample samples.now k) }
    requires front { take (3 * place) out.old ≡ bytes_of 24 (take place samples.now) }
    ensures { take (3 * place + 12) out.new ≡ bytes_of 24 (take (place + 4) samples.now) }
{
    let bytes = i32x4::from_slice(&samples[place..]).to_le_bytes();
    let upper = bytes.swizzle([1, 2, 3, 5, 6, 7, 9, 10, 11, 13, 14, 15, 0, 0, 0, 0]);
    upper.copy_to_slice(&mut out[3 * place..]);
}

// That a sum is a number of 64 bits is known where it is read.
fn read_sum(sum: &[i64], i: usize)
    requires { i < length sum.now }
    ensures { FitsSigned w64 (sample sum.now i) }
{
    let _sum = sum[i];
}

// Tells the blocks of sums what `read_all` tells those of samples.
pub(crate) fn read_sums(sum: &[i64])
    ensures { (k : ℕ) → k < length sum.now → FitsSigned w64 (sample sum.now k) }
{
    for i in 0..sum.len() {
        read_sum(sum, i);
    }
}

// Clamps four sums more. A sum is a sample where its upper half is nothing but the sign of its lower half.
pub(crate) fn settle_four(sum: &[i64], out: &mut [i32], place: usize)
    requires there { place + 4 ≤ length sum.now }
    requires room { place + 4 ≤ length out.old }
    requires fits { (k : ℕ) → k < length sum.now → FitsSigned w64 (sample sum.now k) }
    requires front { take place out.old ≡ map clamp (take place sum.now) }
    ensures { take (place + 4) out.new ≡ map clamp (take (place + 4) sum.now) }
{
    let first = i32x4::from_le_bytes(i64x2::from_slice(&sum[place..]).to_le_bytes());
    let second = i32x4::from_le_bytes(i64x2::from_slice(&sum[place + 2..]).to_le_bytes());
    let lower = first.shuffle(second, [0, 2, 4, 6]);
    let upper = first.shuffle(second, [1, 3, 5, 7]);
    let ends = upper
        .simd_lt(i32x4::splat(0))
        .select(i32x4::splat(i32::MIN), i32x4::splat(i32::MAX));
    let is_sample = upper.simd_eq(lower >> i32x4::splat(31));
    let samples = is_sample.select(lower, ends);
    samples.copy_to_slice(&mut out[place..]);
}

//! What is played on one buffer.

ghost use Rattle.std.specs.Prelude.{◌≡◌, ℕ, ◌+◌, ◌*◌, ◌^◌, ◌<◌, ◌≤◌, ◌%◌, if◌then◌else◌, ◌*ℤ◌, ◌≤ℤ◌, pos, negsuc, length, map, nat_abs, nat_lt, neg_ℤ, max};
ghost use Rattle.std.specs.Int.{int_shr};
ghost use Rattle.client_kinds.specs.declared.sounds.TheConstants.{PIECE};
ghost use Rattle.port_mixer.specs.session_model.specs.Kinds.{peak_with, tone_sample};
ghost use Rattle.port_mixer.specs.session_model.specs.Samples.{below, clamp, sample, silence};
ghost use Rattle.port_mixer.specs.session_model.specs.Tempo.{begins_beat};

/// How many products of a gain are made before they are clamped.
const PIECE: usize = 64;

/// Silence.
pub(crate) fn fill_silence(part: &mut [i32])
    ensures { part.new ≡ silence (length part.old) }
{
    for i in 0..part.len() {
        part[i] = 0;
    }
}

/// A sample times a factor.
fn product(x: i32, factor: i32) -> i64
    ensures { result ≡ x *ℤ factor }
{
    i64::from(x) * i64::from(factor)
}

/// A product shifted right, rounded down.
fn shifted(product: i64, shift: u32) -> i64
    requires { shift ≤ 31 }
    ensures { result ≡ int_shr product shift }
{
    product >> shift
}

/// The samples times a factor, shifted right, and not clamped yet.
fn multiply(x: &[i32], factor: i32, shift: u32, products: &mut [i64])
    requires lengths { length x.now ≡ length products.old }
    requires shift { shift ≤ 31 }
    ensures { products.new ≡ map (λ x. int_shr (x *ℤ factor) shift) x.now }
{
    for i in 0..x.len() {
        products[i] = shifted(product(x[i], factor), shift);
    }
}

/// As many samples as there is room for products, times a factor, shifted right.
fn fill_piece(x: &[i32], factor: i32, shift: u32, part: &mut [i32])
    requires lengths { length x.now ≡ length part.old }
    requires few { length x.now ≤ PIECE }
    requires shift { shift ≤ 31 }
    ensures { part.new ≡ map (λ x. clamp (int_shr (x *ℤ factor) shift)) x.now }
{
    let mut room = [0; PIECE];
    let all = &mut room[..];
    let products = &mut all[..x.len()];
    multiply(x, factor, shift, products);
    port_mixer::samples::settle(products, part);
}

/// The samples times a factor, shifted right.
fn fill_gain(x: &[i32], factor: i32, shift: u32, part: &mut [i32])
    requires lengths { length x.now ≡ length part.old }
    requires shift { shift ≤ 31 }
    ensures { part.new ≡ map (λ x. clamp (int_shr (x *ℤ factor) shift)) x.now }
{
    let mut done = 0;
    while done < part.len() {
        let end = part.len().min(done + PIECE);
        fill_piece(&x[done..end], factor, shift, &mut part[done..end]);
        done = end;
    }
}

/// Whether a gain makes each sample smaller.
fn is_softer(factor: i32, shift: u32) -> bool
    requires { shift ≤ 31 }
    ensures { result ≡ nat_lt (nat_abs factor) (2 ^ shift) }
{
    factor.unsigned_abs() < 1 << shift
}

/// A sample by a gain that makes it smaller: a sample, with no clamp.
#[tactic(auto, using(crate::proofs::GainLemmas::softer_fits, crate::proofs::GainLemmas::softer_clamped))]
fn softened(x: i32, factor: i32, shift: u32) -> i32
    requires shift { shift ≤ 31 }
    requires softer { nat_abs factor < 2 ^ shift }
    ensures { result ≡ clamp (int_shr (x *ℤ factor) shift) }
{
    shifted(product(x, factor), shift) as i32
}

/// The samples by a gain that makes them smaller.
fn fill_softer(x: &[i32], factor: i32, shift: u32, part: &mut [i32])
    requires lengths { length x.now ≡ length part.old }
    requires shift { shift ≤ 31 }
    requires softer { nat_abs factor < 2 ^ shift }
    ensures { part.new ≡ map (λ x. clamp (int_shr (x *ℤ factor) shift)) x.now }
{
    for i in 0..x.len() {
        part[i] = softened(x[i], factor, shift);
    }
}

/// The samples by a gain, a factor and a shift right.
pub(crate) fn play_gain(x: &[i32], factor: i32, shift: u32, part: &mut [i32])
    requires lengths { length x.now ≡ length part.old }
    requires shift { shift ≤ 31 }
    ensures { part.new ≡ map (λ x. clamp (int_shr (x *ℤ factor) shift)) x.now }
{
    if is_softer(factor, shift) {
        fill_softer(x, factor, shift, part);
    } else {
        fill_gain(x, factor, shift, part);
    }
}

/// The opposite level.
fn opposite(level: i32) -> i32
    requires { negsuc 2147483646 ≤ℤ level }
    ensures { result ≡ neg_ℤ level }
{
    -level
}

/// A sample of a square wave, at a frame of its length.
#[tactic(auto, using(crate::proofs::FillLemmas::tone_low, crate::proofs::FillLemmas::tone_high))]
fn toned(half: u32, level: i32, n: u32) -> i32
    requires level { negsuc 2147483646 ≤ℤ level }
    requires frame { n < 2 * half }
    ensures { result ≡ tone_sample half level n }
{
    if n < half { level } else { opposite(level) }
}

/// A square wave, from a frame of its length on.
pub(crate) fn fill_tone(half: u32, level: i32, phase: u32, part: &mut [i32])
    requires half { half ≤ 65536 }
    requires level { negsuc 2147483646 ≤ℤ level }
    requires phase { phase < 2 * half }
    ensures { part.new ≡ map (λ i. tone_sample half level (phase + i)) (below (length part.old)) }
{
    let mut n = phase;
    for i in 0..part.len() {
        part[i] = toned(half, level, n);
        n = next_frame(half, n);
    }
}

/// The next frame of a square wave's length.
fn next_frame(half: u32, n: u32) -> u32
    requires half { half ≤ 65536 }
    requires frame { n < 2 * half }
    ensures { result ≡ (n + 1) % (2 * half) }
{
    if n + 1 == 2 * half { 0 } else { n + 1 }
}

/// Whether a beat begins at a frame.
fn begins(mbpm: u32, rate: u32, frame: u32) -> bool
    requires { 8000 ≤ rate }
    ensures { result ≡ begins_beat mbpm rate frame }
{
    if frame == 0 {
        return true;
    }
    let length = 60_000 * u64::from(rate);
    u64::from(frame - 1) * u64::from(mbpm) / length < u64::from(frame) * u64::from(mbpm) / length
}

/// The level at each frame that begins a beat.
#[tactic(auto, using(crate::proofs::FillLemmas::fill_more))]
pub(crate) fn fill_click(level: i32, mbpm: u32, rate: u32, frame: u32, part: &mut [i32])
    requires rate { 8000 ≤ rate }
    requires frames { frame + length part.old < 2 ^ 32 }
    ensures { part.new ≡ map (λ i. if begins_beat mbpm rate (frame + i) then level else pos 0) (below (length part.old)) }
{
    for i in 0..part.len() {
        part[i] = if begins(mbpm, rate, frame + i as u32) {
            level
        } else {
            0
        };
    }
}

/// A channel of an interleaved block.
#[tactic(auto, using(crate::proofs::FillLemmas::fill_more))]
pub(crate) fn fill_channel(block: &[i32], channels: usize, channel: usize, part: &mut [i32])
    requires channel { channel < channels }
    requires block { length part.old * channels ≤ length block.now }
    ensures { part.new ≡ map (λ i. sample block.now (i * channels + channel)) (below (length part.old)) }
{
    for i in 0..part.len() {
        part[i] = block[i * channels + channel];
    }
}

/// The greater of a peak and a sample's magnitude.
fn greater(peak: u32, x: i32) -> u32
    ensures { result ≡ max peak (nat_abs x) }
{
    peak.max(x.unsigned_abs())
}

/// The greatest magnitude of the samples, or the peak before where that is greater.
pub(crate) fn peak_behind(peak: u32, x: &[i32]) -> u32
    ensures { result ≡ peak_with peak x.now }
{
    let mut most = peak;
    for sample in x {
        most = greater(most, *sample);
    }
    most
}

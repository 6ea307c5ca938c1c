//! Mixes of no more than eight parts, each in one pass over the frames.

ghost use Rattle.std.specs.Prelude.{◌≡◌, ℕ, ◌<◌, ◌≤◌, ◌∷◌, [], length};
ghost use Rattle.activation.specs.session_model.specs.Samples.{clamp, mix, sample, total};

use crate::settling::{mixed_eight, mixed_five, mixed_four, mixed_seven, mixed_six, mixed_three};
use client_kinds::port_mixer::see_samples;

/// Copies a part of any length: what it lacks is silence, and what lies behind the last frame is left out.
fn copy_padded(out: &mut [i32], part: &[i32])
    ensures length { length out.new ≡ length out.old }
    ensures samples { (k : ℕ) → k < length out.old → sample out.new k ≡ sample part.now k }
{
    let whole = part.len().min(out.len());
    out[..whole].copy_from_slice(&part[..whole]);
    out[whole..].fill(0);
}

/// Copies the first samples of a part.
fn copy_first(out: &mut [i32], part: &[i32])
    requires { length out.old ≤ length part.now }
    ensures length { length out.new ≡ length out.old }
    ensures samples { (k : ℕ) → k < length out.old → sample out.new k ≡ sample part.now k }
{
    out.copy_from_slice(&part[..out.len()]);
}

/// Copies a part as [`copy_padded`] does, and fills nothing where it lacks no sample.
fn copy_any(out: &mut [i32], part: &[i32])
    ensures length { length out.new ≡ length out.old }
    ensures samples { (k : ℕ) → k < length out.old → sample out.new k ≡ sample part.now k }
{
    if out.len() <= part.len() {
        copy_first(out, part);
    } else {
        copy_padded(out, part);
    }
}

/// Copies a part of any length in the place of a mix of it alone: what it lacks is silence, and what lies behind the last
/// frame is not heard.
pub(crate) fn copy_part(out: &mut [i32], part: &[i32])
    ensures mixed { out.new ≡ mix (length out.old) (part.now ∷ []) }
    ensures samples { (k : ℕ) → k < length out.old → sample out.new k ≡ sample part.now k }
{
    see_samples(part);
    copy_any(out, part);
}

/// The sample of a part at a frame, silence behind its end.
#[tactic(auto, using(crate::proofs::PartLemmas::sample_past))]
fn sample_at(part: &[i32], place: usize) -> i32
    ensures { result ≡ sample part.now place }
{
    if place < part.len() { part[place] } else { 0 }
}

/// Two samples, added and clamped.
#[tactic(auto, using(crate::proofs::PartLemmas::silence_first))]
fn mixed_two(one: i32, two: i32) -> i32
    ensures { result ≡ clamp (total (one ∷ two ∷ [])) }
{
    one.saturating_add(two)
}

/// Silence is the mix of no part.
pub(crate) fn mix_none(out: &mut [i32])
    ensures { out.new ≡ mix (length out.old) [] }
{
    out.fill(0);
}

/// Mixes two parts of any length: what they lack is silence, and what lies behind the last frame is not heard.
pub(crate) fn mix_two(out: &mut [i32], one: &[i32], two: &[i32])
    ensures { out.new ≡ mix (length out.old) (one.now ∷ two.now ∷ []) }
{
    let whole = out.len().min(one.len()).min(two.len());
    for place in 0..whole {
        out[place] = mixed_two(one[place], two[place]);
    }
    for lacking in whole..out.len() {
        out[lacking] = mixed_two(sample_at(one, lacking), sample_at(two, lacking));
    }
}

/// As many frames as two parts have.
fn of_two(frames: usize, one: &[i32], two: &[i32]) -> usize
    ensures frames { result ≤ frames }
    ensures one { result ≤ length one.now }
    ensures two { result ≤ length two.now }
{
    frames.min(one.len()).min(two.len())
}

/// As many frames as three parts have.
fn of_three(frames: usize, one: &[i32], two: &[i32], three: &[i32]) -> usize
    ensures frames { result ≤ frames }
    ensures one { result ≤ length one.now }
    ensures two { result ≤ length two.now }
    ensures three { result ≤ length three.now }
{
    of_two(frames, one, two).min(three.len())
}

/// As many frames as four parts have.
fn of_four(frames: usize, one: &[i32], two: &[i32], three: &[i32], four: &[i32]) -> usize
    ensures frames { result ≤ frames }
    ensures one { result ≤ length one.now }
    ensures two { result ≤ length two.now }
    ensures three { result ≤ length three.now }
    ensures four { result ≤ length four.now }
{
    of_two(of_two(frames, one, two), three, four)
}

/// Mixes three parts of any length, as [`mix_two`] does two.
pub(crate) fn mix_three(out: &mut [i32], one: &[i32], two: &[i32], three: &[i32])
    ensures { out.new ≡ mix (length out.old) (one.now ∷ two.now ∷ three.now ∷ []) }
{
    let whole = of_three(out.len(), one, two, three);
    for place in 0..whole {
        out[place] = mixed_three(one[place], two[place], three[place]);
    }
    for lacking in whole..out.len() {
        out[lacking] = mixed_three(
            sample_at(one, lacking),
            sample_at(two, lacking),
            sample_at(three, lacking),
        );
    }
}

/// Mixes four parts of any length, as [`mix_two`] does two.
pub(crate) fn mix_four(out: &mut [i32], one: &[i32], two: &[i32], three: &[i32], four: &[i32])
    ensures { out.new ≡ mix (length out.old) (one.now ∷ two.now ∷ three.now ∷ four.now ∷ []) }
{
    let whole = of_four(out.len(), one, two, three, four);
    for place in 0..whole {
        out[place] = mixed_four(one[place], two[place], three[place], four[place]);
    }
    for lacking in whole..out.len() {
        out[lacking] = mixed_four(
            sample_at(one, lacking),
            sample_at(two, lacking),
            sample_at(three, lacking),
            sample_at(four, lacking),
        );
    }
}

/// Mixes five parts of any length, as [`mix_two`] does two.
pub(crate) fn mix_five(
    out: &mut [i32],
    one: &[i32],
    two: &[i32],
    three: &[i32],
    four: &[i32],
    five: &[i32],
)
    ensures { out.new ≡ mix (length out.old) (one.now ∷ two.now ∷ three.now ∷ four.now ∷ five.now ∷ []) }
{
    let half = of_four(out.len(), one, two, three, four);
    let whole = half.min(five.len());
    for place in 0..whole {
        out[place] = mixed_five(
            one[place],
            two[place],
            three[place],
            four[place],
            five[place],
        );
    }
    for lacking in whole..out.len() {
        out[lacking] = mixed_five(
            sample_at(one, lacking),
            sample_at(two, lacking),
            sample_at(three, lacking),
            sample_at(four, lacking),
            sample_at(five, lacking),
        );
    }
}

/// Mixes six parts of any length, as [`mix_two`] does two.
pub(crate) fn mix_six(
    out: &mut [i32],
    one: &[i32],
    two: &[i32],
    three: &[i32],
    four: &[i32],
    five: &[i32],
    six: &[i32],
)
    ensures { out.new ≡ mix (length out.old) (one.now ∷ two.now ∷ three.now ∷ four.now ∷ five.now ∷ six.now ∷ []) }
{
    let half = of_four(out.len(), one, two, three, four);
    let whole = of_two(half, five, six);
    for place in 0..whole {
        out[place] = mixed_six(
            one[place],
            two[place],
            three[place],
            four[place],
            five[place],
            six[place],
        );
    }
    for lacking in whole..out.len() {
        out[lacking] = mixed_six(
            sample_at(one, lacking),
            sample_at(two, lacking),
            sample_at(three, lacking),
            sample_at(four, lacking),
            sample_at(five, lacking),
            sample_at(six, lacking),
        );
    }
}

/// Mixes seven parts of any length, as [`mix_two`] does two.
pub(crate) fn mix_seven(
    out: &mut [i32],
    one: &[i32],
    two: &[i32],
    three: &[i32],
    four: &[i32],
    five: &[i32],
    six: &[i32],
    seven: &[i32],
)
    ensures { out.new ≡ mix (length out.old) (one.now ∷ two.now ∷ three.now ∷ four.now ∷ five.now ∷ six.now ∷ seven.now ∷ []) }
{
    let half = of_four(out.len(), one, two, three, four);
    let whole = of_three(half, five, six, seven);
    for place in 0..whole {
        out[place] = mixed_seven(
            one[place],
            two[place],
            three[place],
            four[place],
            five[place],
            six[place],
            seven[place],
        );
    }
    for lacking in whole..out.len() {
        out[lacking] = mixed_seven(
            sample_at(one, lacking),
            sample_at(two, lacking),
            sample_at(three, lacking),
            sample_at(four, lacking),
            sample_at(five, lacking),
            sample_at(six, lacking),
            sample_at(seven, lacking),
        );
    }
}

/// Mixes eight parts of any length, as [`mix_two`] does two.
pub(crate) fn mix_eight(
    out: &mut [i32],
    one: &[i32],
    two: &[i32],
    three: &[i32],
    four: &[i32],
    five: &[i32],
    six: &[i32],
    seven: &[i32],
    eight: &[i32],
)
    ensures { out.new ≡ mix (length out.old) (one.now ∷ two.now ∷ three.now ∷ four.now ∷ five.now ∷ six.now ∷ seven.now ∷ eight.now ∷ []) }
{
    let half = of_four(out.len(), one, two, three, four);
    let whole = of_four(half, five, six, seven, eight);
    for place in 0..whole {
        out[place] = mixed_eight(
            one[place],
            two[place],
            three[place],
            four[place],
            five[place],
            six[place],
            seven[place],
            eight[place],
        );
    }
    for lacking in whole..out.len() {
        out[lacking] = mixed_eight(
            sample_at(one, lacking),
            sample_at(two, lacking),
            sample_at(three, lacking),
            sample_at(four, lacking),
            sample_at(five, lacking),
            sample_at(six, lacking),
            sample_at(seven, lacking),
            sample_at(eight, lacking),
        );
    }
}

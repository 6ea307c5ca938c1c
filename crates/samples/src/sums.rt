ghost use Rattle.std.specs.Prelude.{◌≡◌, ◌<◌, ◌≤◌, ◌+ℤ◌, ℕ, length, map, take};
ghost use Rattle.wave_laws.specs.session_model.specs.Samples.{clamp, sample};
ghost use Rattle.samples.specs.Sums.{IsSmall};

use crate::kernels::{read_sums, settle_four};

/// The number nearest to `x` that a sample can be.
///
/// A mix adds all its parts first and is clamped once by this, so that parts which cancel do so
/// before the clamp.
pub fn clamp64(x: i64) -> i32
    ensures { result ≡ clamp x }
{
    x.clamp(i64::from(i32::MIN), i64::from(i32::MAX)) as i32
}

// The sum of a small number and a sample.
fn sum_of(x: i64, y: i32) -> i64
    requires { IsSmall x }
    ensures { result ≡ x +ℤ y }
{
    x + i64::from(y)
}

/// Makes the sums those of a part alone, a sample each.
pub fn set_to(sum: &mut [i64], part: &[i32])
    requires { length sum.old ≡ length part.now }
    ensures { sum.new ≡ part.now }
{
    for i in 0..part.len() {
        sum[i] = i64::from(part[i]);
    }
}

/// Adds the samples of a part to the sums, one to each.
pub fn add_into(sum: &mut [i64], part: &[i32])
    requires lengths { length sum.old ≡ length part.now }
    requires small { (k : ℕ) → k < length sum.old → IsSmall (sample sum.old k) }
    ensures { (k : ℕ) → sample sum.new k ≡ sample sum.old k +ℤ sample part.now k }
{
    for i in 0..part.len() {
        sum[i] = sum_of(sum[i], part[i]);
    }
}

// Clamps the sums from `start` on, one at a time.
pub(crate) fn settle_plain(sum: &[i64], out: &mut [i32], start: usize)
    requires lengths { length sum.now ≡ length out.old }
    requires start { start ≤ length sum.now }
    requires front { take start out.old ≡ map clamp (take start sum.now) }
    ensures { out.new ≡ map clamp sum.now }
{
    for i in start..sum.len() {
        out[i] = clamp64(sum[i]);
    }
}

/// Clamps each sum to a sample, once.
pub fn settle(sum: &[i64], out: &mut [i32])
    requires { length sum.now ≡ length out.old }
    ensures { out.new ≡ map clamp sum.now }
{
    read_sums(sum);
    let blocks = sum.len() / 4;
    for block in 0..blocks {
        settle_four(sum, out, 4 * block);
    }
    settle_plain(sum, out, 4 * blocks);
}

//! Sums of four parts at once.

ghost use Rattle.std.specs.Prelude.{◌≡◌, ℕ, ◌+◌, ◌<◌, ◌≤◌, ◌∷◌, [], pos, negsuc, ◌+ℤ◌, ◌≤ℤ◌, All, fold, length, take};
ghost use Rattle.session_laws.specs.session_model.specs.Samples.{sample, silence, total};
ghost use Rattle.samples.specs.Sums.{IsSmall};
ghost use Rattle.port_mixer.specs.Sums.{AreSamples, AreSumsOf, all_added};
ghost use Rattle.port_mixer.specs.Insides.{sums_in};

use crate::mixing::see_samples;

/// The sum of two samples.
fn sum_of_two(one: i32, two: i32) -> i64
    ensures sum { result ≡ one +ℤ two }
    ensures least { negsuc 4294967295 ≤ℤ result }
    ensures most { result ≤ℤ pos 4294967296 }
{
    i64::from(one) + i64::from(two)
}

/// The sum of four samples.
fn sum_of_four(one: i32, two: i32, three: i32, four: i32) -> i64
    ensures sum { result ≡ total (one ∷ two ∷ three ∷ four ∷ []) }
    ensures least { negsuc 8589934591 ≤ℤ result }
    ensures most { result ≤ℤ pos 8589934592 }
{
    sum_of_two(one, two) + sum_of_two(three, four)
}

/// The sum of a small number and four samples.
fn sum_with_four(x: i64, one: i32, two: i32, three: i32, four: i32) -> i64
    requires { IsSmall x }
    ensures { result ≡ fold ◌+ℤ◌ x (one ∷ two ∷ three ∷ four ∷ []) }
{
    x + sum_of_four(one, two, three, four)
}

/// Makes the sums those of four parts alone.
fn set_to_four(sums: &mut [i64], one: &[i32], two: &[i32], three: &[i32], four: &[i32])
    requires { All (λ part. length part ≡ length sums.old) (one.now ∷ two.now ∷ three.now ∷ four.now ∷ []) }
    ensures { sums.new ≡ all_added (silence (length sums.old)) (one.now ∷ two.now ∷ three.now ∷ four.now ∷ []) }
{
    for i in 0..sums.len() {
        sums[i] = sum_of_four(one[i], two[i], three[i], four[i]);
    }
}

/// Adds four parts to the sums.
fn add_four_into(sums: &mut [i64], one: &[i32], two: &[i32], three: &[i32], four: &[i32])
    requires lengths { All (λ part. length part ≡ length sums.old) (one.now ∷ two.now ∷ three.now ∷ four.now ∷ []) }
    requires small { (k : ℕ) → IsSmall (sample sums.old k) }
    ensures { sums.new ≡ all_added sums.old (one.now ∷ two.now ∷ three.now ∷ four.now ∷ []) }
{
    for i in 0..sums.len() {
        sums[i] = sum_with_four(sums[i], one[i], two[i], three[i], four[i]);
    }
}

/// Sees that the samples of four parts are numbers of 32 bits.
fn see_four(one: &[i32], two: &[i32], three: &[i32], four: &[i32])
    ensures { All AreSamples (one.now ∷ two.now ∷ three.now ∷ four.now ∷ []) }
{
    see_samples(one);
    see_samples(two);
    see_samples(three);
    see_samples(four);
}

/// Takes four parts into the first sums, in which there are so many parts.
pub(crate) fn take_four(
    sums: &mut [i64],
    parts: u32,
    frames: usize,
    one: &[i32],
    two: &[i32],
    three: &[i32],
    four: &[i32],
)
    requires within { frames ≤ length sums.old }
    requires frames { All (λ part. length part ≡ frames) (one.now ∷ two.now ∷ three.now ∷ four.now ∷ []) }
    requires few { parts ≤ 508 }
    requires sums { AreSumsOf parts (sums_in parts frames sums.old) }
    ensures added { take frames sums.new ≡ all_added (sums_in parts frames sums.old) (one.now ∷ two.now ∷ three.now ∷ four.now ∷ []) }
    ensures bound { AreSumsOf (parts + 4) (take frames sums.new) }
{
    see_four(one, two, three, four);
    let first = &mut sums[..frames];
    if parts == 0 {
        set_to_four(first, one, two, three, four);
    } else {
        add_four_into(first, one, two, three, four);
    }
}

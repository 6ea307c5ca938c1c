//! Sums of no more than eight samples in 32 bits, and their clamp.

ghost use Rattle.std.specs.Prelude.{◌≡◌, ◌≤◌, ◌≤ℤ◌, ◌+ℤ◌, ◌++◌, ◌∷◌, [], ℤ, List, length, pos, negsuc};
ghost use Rattle.std.specs.Int.{w32, int_shr, int_wrap};
ghost use Rattle.activation.specs.session_model.specs.Samples.{clamp, total};
ghost use Rattle.client_benches.specs.Sixteenths.{sixteenths};

/// A sum of eight samples is no more than 120 above sixteen times its samples' sixteenths.
const MOST_OVER: i32 = 7;

/// A sixteenth of a sample, rounded down.
fn sixteenth(x: i32) -> i32
    ensures is { result ≡ int_shr x 4 }
    ensures least { negsuc 134217727 ≤ℤ result }
    ensures most { result ≤ℤ pos 134217728 }
{
    x >> 4
}

/// A sum of no more than eight samples, clamped once: from what is left of it in 32 bits, and the sum of its samples'
/// sixteenths.
///
/// The sixteenths of the rest are from none to seven above the sixteenths of the samples where the sum is a sample. Elsewhere
/// they are far above them or below them.
fn settled(low: i32, high: i32) -> i32
    requires least { negsuc 1073741823 ≤ℤ high }
    requires most { high ≤ℤ pos 1073741824 }
    ensures { (xs : List ℤ) → length xs ≤ 8 → low ≡ int_wrap w32 (total xs) → high ≡ sixteenths xs → result ≡ clamp (total xs) }
{
    let over = sixteenth(low) - high;
    if over > MOST_OVER {
        i32::MIN
    } else if over < 0 {
        i32::MAX
    } else {
        low
    }
}

/// What is left of a sum in 32 bits, with one more sample.
fn rest_with(low: i32, x: i32) -> i32
    ensures { (xs : List ℤ) → low ≡ int_wrap w32 (total xs) → result ≡ int_wrap w32 (total (xs ++ x ∷ [])) }
{
    low.wrapping_add(x)
}

/// What is left of the sum of three samples in 32 bits.
fn rest_of_three(one: i32, two: i32, three: i32) -> i32
    ensures { result ≡ int_wrap w32 (total (one ∷ two ∷ three ∷ [])) }
{
    rest_with(rest_with(one, two), three)
}

/// What is left of the sum of four samples in 32 bits.
fn rest_of_four(one: i32, two: i32, three: i32, four: i32) -> i32
    ensures { result ≡ int_wrap w32 (total (one ∷ two ∷ three ∷ four ∷ [])) }
{
    rest_with(rest_of_three(one, two, three), four)
}

/// What is left of the sum of five samples in 32 bits.
fn rest_of_five(one: i32, two: i32, three: i32, four: i32, five: i32) -> i32
    ensures { result ≡ int_wrap w32 (total (one ∷ two ∷ three ∷ four ∷ five ∷ [])) }
{
    rest_with(rest_of_four(one, two, three, four), five)
}

/// What is left of the sum of six samples in 32 bits.
fn rest_of_six(one: i32, two: i32, three: i32, four: i32, five: i32, six: i32) -> i32
    ensures { result ≡ int_wrap w32 (total (one ∷ two ∷ three ∷ four ∷ five ∷ six ∷ [])) }
{
    rest_with(rest_of_five(one, two, three, four, five), six)
}

/// What is left of the sum of seven samples in 32 bits.
fn rest_of_seven(one: i32, two: i32, three: i32, four: i32, five: i32, six: i32, seven: i32) -> i32
    ensures { result ≡ int_wrap w32 (total (one ∷ two ∷ three ∷ four ∷ five ∷ six ∷ seven ∷ [])) }
{
    rest_with(rest_of_six(one, two, three, four, five, six), seven)
}

/// What is left of the sum of eight samples in 32 bits.
fn rest_of_eight(
    one: i32,
    two: i32,
    three: i32,
    four: i32,
    five: i32,
    six: i32,
    seven: i32,
    eight: i32,
) -> i32
    ensures { result ≡ int_wrap w32 (total (one ∷ two ∷ three ∷ four ∷ five ∷ six ∷ seven ∷ eight ∷ [])) }
{
    rest_with(
        rest_of_seven(one, two, three, four, five, six, seven),
        eight,
    )
}

/// The sum of two samples' sixteenths.
fn sixteenths_of_two(one: i32, two: i32) -> i32
    ensures is { result ≡ int_shr one 4 +ℤ int_shr two 4 }
    ensures least { negsuc 268435455 ≤ℤ result }
    ensures most { result ≤ℤ pos 268435456 }
{
    sixteenth(one) + sixteenth(two)
}

/// The sum of three samples' sixteenths.
fn sixteenths_of_three(one: i32, two: i32, three: i32) -> i32
    ensures is { result ≡ sixteenths (one ∷ two ∷ three ∷ []) }
    ensures least { negsuc 402653183 ≤ℤ result }
    ensures most { result ≤ℤ pos 402653184 }
{
    sixteenths_of_two(one, two) + sixteenth(three)
}

/// The sum of four samples' sixteenths.
fn sixteenths_of_four(one: i32, two: i32, three: i32, four: i32) -> i32
    ensures is { result ≡ sixteenths (one ∷ two ∷ three ∷ four ∷ []) }
    ensures least { negsuc 536870911 ≤ℤ result }
    ensures most { result ≤ℤ pos 536870912 }
{
    sixteenths_of_three(one, two, three) + sixteenth(four)
}

/// The sum of five samples' sixteenths.
fn sixteenths_of_five(one: i32, two: i32, three: i32, four: i32, five: i32) -> i32
    ensures is { result ≡ sixteenths (one ∷ two ∷ three ∷ four ∷ five ∷ []) }
    ensures least { negsuc 671088639 ≤ℤ result }
    ensures most { result ≤ℤ pos 671088640 }
{
    sixteenths_of_four(one, two, three, four) + sixteenth(five)
}

/// The sum of six samples' sixteenths.
fn sixteenths_of_six(one: i32, two: i32, three: i32, four: i32, five: i32, six: i32) -> i32
    ensures is { result ≡ sixteenths (one ∷ two ∷ three ∷ four ∷ five ∷ six ∷ []) }
    ensures least { negsuc 805306367 ≤ℤ result }
    ensures most { result ≤ℤ pos 805306368 }
{
    sixteenths_of_five(one, two, three, four, five) + sixteenth(six)
}

/// The sum of seven samples' sixteenths.
fn sixteenths_of_seven(
    one: i32,
    two: i32,
    three: i32,
    four: i32,
    five: i32,
    six: i32,
    seven: i32,
) -> i32
    ensures is { result ≡ sixteenths (one ∷ two ∷ three ∷ four ∷ five ∷ six ∷ seven ∷ []) }
    ensures least { negsuc 939524095 ≤ℤ result }
    ensures most { result ≤ℤ pos 939524096 }
{
    sixteenths_of_six(one, two, three, four, five, six) + sixteenth(seven)
}

/// The sum of eight samples' sixteenths.
fn sixteenths_of_eight(
    one: i32,
    two: i32,
    three: i32,
    four: i32,
    five: i32,
    six: i32,
    seven: i32,
    eight: i32,
) -> i32
    ensures is { result ≡ sixteenths (one ∷ two ∷ three ∷ four ∷ five ∷ six ∷ seven ∷ eight ∷ []) }
    ensures least { negsuc 1073741823 ≤ℤ result }
    ensures most { result ≤ℤ pos 1073741824 }
{
    sixteenths_of_seven(one, two, three, four, five, six, seven) + sixteenth(eight)
}

/// Three samples, added and clamped once.
pub(crate) fn mixed_three(one: i32, two: i32, three: i32) -> i32
    ensures { result ≡ clamp (total (one ∷ two ∷ three ∷ [])) }
{
    settled(
        rest_of_three(one, two, three),
        sixteenths_of_three(one, two, three),
    )
}

/// Four samples, added and clamped once.
pub(crate) fn mixed_four(one: i32, two: i32, three: i32, four: i32) -> i32
    ensures { result ≡ clamp (total (one ∷ two ∷ three ∷ four ∷ [])) }
{
    settled(
        rest_of_four(one, two, three, four),
        sixteenths_of_four(one, two, three, four),
    )
}

/// Five samples, added and clamped once.
pub(crate) fn mixed_five(one: i32, two: i32, three: i32, four: i32, five: i32) -> i32
    ensures { result ≡ clamp (total (one ∷ two ∷ three ∷ four ∷ five ∷ [])) }
{
    settled(
        rest_of_five(one, two, three, four, five),
        sixteenths_of_five(one, two, three, four, five),
    )
}

/// Six samples, added and clamped once.
pub(crate) fn mixed_six(one: i32, two: i32, three: i32, four: i32, five: i32, six: i32) -> i32
    ensures { result ≡ clamp (total (one ∷ two ∷ three ∷ four ∷ five ∷ six ∷ [])) }
{
    settled(
        rest_of_six(one, two, three, four, five, six),
        sixteenths_of_six(one, two, three, four, five, six),
    )
}

/// Seven samples, added and clamped once.
pub(crate) fn mixed_seven(
    one: i32,
    two: i32,
    three: i32,
    four: i32,
    five: i32,
    six: i32,
    seven: i32,
) -> i32
    ensures { result ≡ clamp (total (one ∷ two ∷ three ∷ four ∷ five ∷ six ∷ seven ∷ [])) }
{
    settled(
        rest_of_seven(one, two, three, four, five, six, seven),
        sixteenths_of_seven(one, two, three, four, five, six, seven),
    )
}

/// Eight samples, added and clamped once.
pub(crate) fn mixed_eight(
    one: i32,
    two: i32,
    three: i32,
    four: i32,
    five: i32,
    six: i32,
    seven: i32,
    eight: i32,
) -> i32
    ensures { result ≡ clamp (total (one ∷ two ∷ three ∷ four ∷ five ∷ six ∷ seven ∷ eight ∷ [])) }
{
    settled(
        rest_of_eight(one, two, three, four, five, six, seven, eight),
        sixteenths_of_eight(one, two, three, four, five, six, seven, eight),
    )
}

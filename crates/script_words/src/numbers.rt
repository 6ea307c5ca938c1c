//! The numbers that words spell.

ghost use Rattle.std.specs.Prelude.{◌≡◌, ◌<◌, ◌^◌, MatchOption, ◌==◌, false, true};
ghost use Rattle.session_model.specs.Grammar.{is_digit, is_number, number_value, periods};
ghost use Rattle.std.specs.List.{list_any};
ghost use Rattle.session_model.specs.Reading.{signed_value};

fn is_digit(b: u8) -> bool
    ensures { result ≡ is_digit b }
{
    b.is_ascii_digit()
}

/// The number that one to ten digits spell.
pub fn number_of(word: &[u8]) -> Option<u64>
    ensures { MatchOption result (is_number word.now ≡ false) (λ n. (is_number word.now ≡ true) × (number_value word.now ≡ n) × (n < 10 ^ 10)) }
{
    if word.is_empty() || word.len() > 10 {
        return None;
    }
    let mut n: u64 = 0;
    for b in word {
        if !is_digit(*b) {
            return None;
        }
        n = 10 * n + u64::from(*b - b'0');
    }
    Some(n)
}

/// The number that digits spell, or `-` and digits.
pub fn signed_of(word: &[u8]) -> Option<i64>
    ensures { result ≡ signed_value word.now }
{
    match word {
        [b'-', digits @ ..] => {
            let n = number_of(digits)?;
            Some(-(n as i64))
        }
        _ => {
            let n = number_of(word)?;
            Some(n as i64)
        }
    }
}

/// Whether a cycle may have so many frames.
pub fn is_period(n: u64) -> bool
    ensures { result ≡ list_any (λ p. p == n) periods }
{
    match n {
        4 | 8 | 16 | 32 | 64 | 128 | 256 | 512 | 1024 | 2048 | 4096 => true,
        _ => false,
    }
}

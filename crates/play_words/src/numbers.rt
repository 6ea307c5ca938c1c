//! The words of a rehearsal, read.

ghost use Rattle.std.specs.Prelude.{◌≡◌, ◌^◌, ◌<◌, ℕ, IfSome, IsNone, MatchOption, false, map, string_bytes, true};
ghost use Rattle.session_model.specs.Grammar.{is_number, number_value};
ghost use Rattle.play_words.specs.Rehearsals.{IsRehearse};

// The most digits of a number.
const MOST_DIGITS: usize = 10;

// The number that one to ten digits spell.
fn number_of(word: &[u8]) -> Option<u64>
    ensures { MatchOption result (is_number word.now ≡ false) (λ n. (is_number word.now ≡ true) × (number_value word.now ≡ n) × (n < 10 ^ 10)) }
{
    if word.is_empty() || word.len() > MOST_DIGITS {
        return None;
    }
    let mut n: u64 = 0;
    for b in word {
        if !b.is_ascii_digit() {
            return None;
        }
        n = 10 * n + u64::from(*b - b'0');
    }
    Some(n)
}

/// The number of a lawful rehearsal.
pub fn rehearsal_number(words: &[String]) -> Option<u32>
    ensures lawful { IfSome result (λ n. IsRehearse (map string_bytes words.now) n) }
    ensures unlawful { IsNone result → (n : ℕ) → ¬ IsRehearse (map string_bytes words.now) n }
{
    let [command, digits] = words else {
        return None;
    };
    if command.as_str() != "rehearse" {
        return None;
    }
    let Some(number) = number_of(digits.as_str().as_bytes()) else {
        return None;
    };
    if number > u64::from(u32::MAX) {
        return None;
    }
    Some(number as u32)
}

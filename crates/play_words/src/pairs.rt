//! Words that come in pairs, an option and a name.

ghost use Rattle.std.specs.Prelude.{◌≡◌, ◌<◌, ◌≤◌, [], ℕ, List, IfSome, IsNone, length, map, slice_index_or, string_bytes};
ghost use Rattle.play_words.specs.Pairs.{ArePairs, seconds, words_in_pairs};

// The words of four pairs.
const MOST_RECORDS: usize = 8;

const MOST_DISKS: usize = 8;

// How many words in front are pairs of this option.
fn words_in_pairs(option: &str, words: &[String]) -> usize
    ensures value { result ≡ words_in_pairs option.now (map string_bytes words.now) }
    ensures few { result ≤ length words.now }
{
    let mut found = 0;
    'pairs: while words.len() - found >= 2 {
        if words[found].as_str() != option {
            return found;
        }
        found += 2;
    }
    found
}

/// The name of a pair.
pub(crate) fn name_at(words: &[String], i: usize) -> &str
    requires { i < length (seconds (map string_bytes words.now)) }
    ensures { result.now ≡ slice_index_or (seconds (map string_bytes words.now)) i [] }
{
    words[2 * i + 1].as_str()
}

/// The pairs of the recorders, and those of the disks.
pub(crate) fn split_pairs(words: &[String]) -> Option<(&[String], &[String])>
    ensures pairs { IfSome result (λ parts. ArePairs (map string_bytes words.now) (seconds (map string_bytes parts.0.now)) (seconds (map string_bytes parts.1.now))) }
    ensures few { IfSome result (λ parts. (length parts.0.now ≤ 8) × (length parts.1.now ≤ 8)) }
    ensures none { IsNone result → (records disks : List (List ℕ)) → ¬ ArePairs (map string_bytes words.now) records disks }
{
    let (records, disks) = words.split_at(words_in_pairs("--record", words));
    if words_in_pairs("--disk", disks) != disks.len() {
        return None;
    }
    if records.len() > MOST_RECORDS {
        return None;
    }
    if disks.len() > MOST_DISKS {
        return None;
    }
    Some((records, disks))
}

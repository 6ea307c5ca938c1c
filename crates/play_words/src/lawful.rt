//! What is asked of the names of a play and of a check.

ghost use Rattle.std.specs.Prelude.{◌↔◌, IsTrue};
ghost use Rattle.play_words.specs.Lawful.{AreLawful, IsNoneFrom};
ghost use Rattle.play_words.specs.Words.{IsName, names_of};

use crate::words::Names;

/// A word that may name a file.
pub(crate) fn is_name(word: &str) -> bool
    ensures { IsTrue result ↔ IsName word.now }
{
    match word.as_bytes().first() {
        Some(first) => *first != b'-',
        None => false,
    }
}

/// Whether no name from a place on is equal to this one.
pub(crate) fn is_none_from(names: &Names<'_>, first: usize, name: &str) -> bool
    ensures { IsTrue result ↔ IsNoneFrom (names_of names.now) first name.now }
{
    for other in first..names.count() {
        if names.name(other) == name {
            return false;
        }
    }
    true
}

/// Whether each name may name a file, and no two are equal.
pub(crate) fn are_lawful(names: &Names<'_>) -> bool
    ensures { IsTrue result ↔ AreLawful (names_of names.now) }
{
    for place in 0..names.count() {
        let name = names.name(place);
        if !is_name(name) {
            return false;
        }
        if !is_none_from(names, place + 1, name) {
            return false;
        }
    }
    true
}

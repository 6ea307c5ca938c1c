//! The word that may be meant.

ghost use Rattle.std.specs.Prelude.{◌≤◌};

use script_words::Words;
use std::alloc::{AllocError, Global};
use strsim::generic_damerau_levenshtein;

// No word that may be meant is longer, and no longer one is compared.
const MOST_COMPARED: usize = 32;

/// The first word of a form.
pub fn name_of(form: &str) -> &[u8] {
    match Words::of(form.as_bytes()).word() {
        Ok(name) => name,
        Err(_) => form.as_bytes(),
    }
}

// How many edits are few, for a word of so many bytes.
fn few_edits(len: usize) -> usize
    ensures { result ≤ 2 }
{
    match len {
        0..3 => 0,
        3..6 => 1,
        _ => 2,
    }
}

/// The name out of those that the forms begin with that a word is likest to, where few edits lead from one to the other.
pub fn nearest<'a>(
    alloc: Global,
    word: &[u8],
    forms: &[&'a str],
) -> Result<Option<&'a [u8]>, AllocError> {
    if word.len() > MOST_COMPARED {
        return Ok(None);
    }
    let mut found = None;
    let mut least = few_edits(word.len()) + 1;
    for form in forms {
        let name = name_of(form);
        let edits = generic_damerau_levenshtein(alloc, word, name)?;
        if edits < least {
            least = edits;
            found = Some(name);
        }
    }
    Ok(found)
}

//! Options that are no words of a command, and that `main` takes out of them.

ghost use Rattle.std.specs.Prelude.{◌<◌, IfSome, length};

// Whether the word behind this one is a path, whatever it is.
fn needs_path(word: &str) -> bool {
    word == "--record" || word == "--disk"
}

// Where an option of a play stands.
fn place_of(words: &[String], option: &str) -> Option<usize>
    ensures { IfSome result (λ place. place < length words.now) }
{
    for place in 1..words.len() {
        if words[0].as_str() == "play"
            && words[place].as_str() == option
            && !needs_path(words[place - 1].as_str())
        {
            return Some(place);
        }
    }
    None
}

/// Takes an option out of the words of a play, and answers whether it was there.
pub(crate) fn take_option(words: &mut Vec<String>, option: &str) -> bool {
    let mut taken = false;
    for _ in 0..words.len() {
        let Some(place) = place_of(words, option) else {
            break;
        };
        words.remove(place);
        taken = true;
    }
    taken
}

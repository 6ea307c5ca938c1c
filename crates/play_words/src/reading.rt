//! The words of a play, read.

ghost use Rattle.std.specs.Prelude.{IfSome, IsNone, map, string_bytes};
ghost use Rattle.play_words.specs.Pairs.{IsFormed};
ghost use Rattle.play_words.specs.Words.{IsPlay, Play};

use crate::lawful::are_lawful;
use crate::pairs::split_pairs;
use crate::words::Names;

// The names in words that have the form of a play, whatever they are.
fn names_in(words: &[String]) -> Option<Names<'_>>
    ensures formed { IfSome result (λ names. IsFormed (map string_bytes words.now) names) }
    ensures unformed { IsNone result → (play : Play) → ¬ IsFormed (map string_bytes words.now) play }
{
    let [command, script, capture, playback, pairs @ ..] = words else {
        return None;
    };
    if command.as_str() != "play" {
        return None;
    }
    let Some((records, disks)) = split_pairs(pairs) else {
        return None;
    };
    Some(Names {
        script: script.as_str(),
        capture: capture.as_str(),
        playback: playback.as_str(),
        records,
        disks,
    })
}

/// The names of a lawful play.
pub fn play_names(words: &[String]) -> Option<Names<'_>>
    ensures lawful { IfSome result (λ names. IsPlay (map string_bytes words.now) names) }
    ensures unlawful { IsNone result → (play : Play) → ¬ IsPlay (map string_bytes words.now) play }
{
    let Some(names) = names_in(words) else {
        return None;
    };
    if !are_lawful(&names) {
        return None;
    }
    Some(names)
}

//! The words of a check, read.

ghost use Rattle.std.specs.Prelude.{◌∷◌, ◌↔◌, IfSome, IsNone, IsTrue, map, string_bytes};
ghost use Rattle.play_words.specs.Checks.{Check, IsCheck};
ghost use Rattle.play_words.specs.Lawful.{AreLawful};
ghost use Rattle.play_words.specs.Pairs.{IsCheckFormed};
ghost use Rattle.play_words.specs.Words.{names_of};

use crate::lawful::{are_lawful, is_name, is_none_from};
use crate::pairs::split_pairs;
use crate::words::Names;
use std::marker::Model;

/// The names of a check: those of the play that is checked, whose playback and records are there, and that of its report.
/// Contracts see the `Check`.
#[derive(Drop)]
pub struct CheckNames<'a> {
    pub play: Names<'a>,
    pub report: &'a str,
}

impl<'a> Model for CheckNames<'a> {
    ghost use Rattle.play_words.specs.Checks.{Check};

    ghost Value = { Check };

    ghost view = { λ n. record { play = n.play; report = n.report.now } };
}

// The names in words that have the form of a check, whatever they are.
fn names_in(words: &[String]) -> Option<CheckNames<'_>>
    ensures formed { IfSome result (λ names. IsCheckFormed (map string_bytes words.now) names) }
    ensures unformed { IsNone result → (check : Check) → ¬ IsCheckFormed (map string_bytes words.now) check }
{
    let [command, script, capture, report, playback, pairs @ ..] = words else {
        return None;
    };
    if command.as_str() != "check" {
        return None;
    }
    let Some((records, disks)) = split_pairs(pairs) else {
        return None;
    };
    let play = Names {
        script: script.as_str(),
        capture: capture.as_str(),
        playback: playback.as_str(),
        records,
        disks,
    };
    Some(CheckNames {
        play,
        report: report.as_str(),
    })
}

// Whether each name may name a file, and no two are equal.
fn are_all_lawful(names: &CheckNames<'_>) -> bool
    ensures { IsTrue result ↔ AreLawful (names.now.report ∷ names_of names.now.play) }
{
    if !is_name(names.report) {
        return false;
    }
    if !is_none_from(&names.play, 0, names.report) {
        return false;
    }
    are_lawful(&names.play)
}

/// The names of a lawful check.
pub fn check_names(words: &[String]) -> Option<CheckNames<'_>>
    ensures lawful { IfSome result (λ names. IsCheck (map string_bytes words.now) names) }
    ensures unlawful { IsNone result → (check : Check) → ¬ IsCheck (map string_bytes words.now) check }
{
    let Some(names) = names_in(words) else {
        return None;
    };
    if !are_all_lawful(&names) {
        return None;
    }
    Some(names)
}

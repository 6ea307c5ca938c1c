//! The words of the command.

ghost use Rattle.std.specs.Prelude.{◌≡◌, ◌^◌, ◌<◌, ◌≤◌, ◌↔◌, ℕ, Bool, IfSome, IsNone, IsTrue, MatchOption, false, map, string_bytes, true};
ghost use Rattle.play_words.specs.Words.{IsName};
ghost use Rattle.session_model.specs.Grammar.{IsNumeral, is_number, number_value};
ghost use Rattle.session_graph.specs.Askings.{Asking, IsGraph, dot_words};

use std::marker::Model;

// The most digits of a number.
const MOST_DIGITS: usize = 10;

/// What the words name. Contracts see the `Asking`.
#[derive(Drop)]
pub struct Asked<'a> {
    pub script: &'a str,
    pub report: &'a str,
    /// Counted from 1.
    pub cycle: u32,
    /// Whether the text is for graphviz.
    pub dot: bool,
}

impl<'a> Model for Asked<'a> {
    ghost use Rattle.session_graph.specs.Askings.{Asking};

    ghost Value = { Asking };

    ghost view = { λ asked. record {
      script = asked.script.now;
      report = asked.report.now;
      cycle = asked.cycle;
      dot = asked.dot;
    } };
}

// A word that may name a file.
fn is_name(word: &str) -> bool
    ensures { IsTrue result ↔ IsName word.now }
{
    match word.as_bytes().first() {
        Some(first) => *first != b'-',
        None => false,
    }
}

// The number that one to ten digits spell.
fn number_of(word: &[u8]) -> Option<u64>
    ensures { MatchOption result (is_number word.now ≡ false) (λ n. (is_number word.now ≡ true) × (number_value word.now ≡ n) × (n < 10 ^ 10)) }
{
    if word.is_empty() || word.len() > MOST_DIGITS {
        return None;
    }
    let mut n: u64 = 0;
    for b in word {
        if !b.is_ascii_digit() {
            return None;
        }
        n = 10 * n + u64::from(*b - b'0');
    }
    Some(n)
}

// The number of a cycle that a word writes.
fn cycle_of(word: &str) -> Option<u32>
    ensures some { IfSome result (λ cycle. IsNumeral word.now cycle × (1 ≤ cycle)) }
    ensures none { IsNone result → (cycle : ℕ) → IsNumeral word.now cycle → 1 ≤ cycle → ¬ (cycle < 2 ^ 32) }
{
    let Some(number) = number_of(word.as_bytes()) else {
        return None;
    };
    if number == 0 || number > u64::from(u32::MAX) {
        return None;
    }
    Some(number as u32)
}

// Whether no word is left, or one that asks for graphviz.
fn dot_of(rest: &[String]) -> Option<bool>
    ensures some { IfSome result (λ dot. map string_bytes rest.now ≡ dot_words dot) }
    ensures none { IsNone result → (dot : Bool) → ¬ (map string_bytes rest.now ≡ dot_words dot) }
{
    match rest {
        [] => Some(false),
        [option] if option.as_str() == "--dot" => Some(true),
        _ => None,
    }
}

/// Reads `graph SCRIPT REPORT CYCLE [--dot]`. The names differ, are not empty and do not begin with `-`.
pub(crate) fn read_words(words: &[String]) -> Option<Asked<'_>>
    ensures lawful { IfSome result (λ asked. IsGraph (map string_bytes words.now) asked) }
    ensures unlawful { IsNone result → (asking : Asking) → ¬ IsGraph (map string_bytes words.now) asking }
{
    let [command, script, report, cycle, rest @ ..] = words else {
        return None;
    };
    if command.as_str() != "graph" {
        return None;
    }
    let script = script.as_str();
    let report = report.as_str();
    if !is_name(script) || !is_name(report) || script == report {
        return None;
    }
    let cycle = cycle_of(cycle.as_str())?;
    let dot = dot_of(rest)?;
    Some(Asked {
        script,
        report,
        cycle,
        dot,
    })
}

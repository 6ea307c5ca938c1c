//! Tests of reasons: their text, and what is told of calls, guests and lines.
#![tactic(auto)]

#[cfg(test)]
mod checks;
#[cfg(test)]
mod reasons;
#[cfg(test)]
mod texts;

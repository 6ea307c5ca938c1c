//! A guest of a maker's own: a tremolo. With it comes the type by which a program hands in guests of two types.
#![tactic(auto)]

mod hearing;
mod one_of;
#[cfg(test)]
mod tests;
mod tremolos;

pub use one_of::{OneOf, with_one};
pub use tremolos::Tremolo;

//! Guests of two types as one.

ghost use Rattle.std.specs.Prelude.{◌≡◌, ◌++◌, ◌∷◌, [], IfOk, map};
ghost use Rattle.guest_example.specs.declared.one_of.OneOf.TheVariants.{First, Second};

use client_kinds::{Guest, Shape};
use jack_types::Moment;
use std::alloc::{AllocError, Global};

/// A guest of one of two types, so that a program keeps guests of both in one list. It plays as the
/// one that it is.
#[derive(Drop)]
pub enum OneOf<A: Guest, B: Guest> {
    First(A),
    Second(B),
}

impl<A: Guest, B: Guest> Guest for OneOf<A, B> {
    ghost use Rattle.guest_example.specs.OneOfs.{of_one, score_of_one, sound_of_one};

    ghost score = { score_of_one A.score B.score };

    ghost sound = { sound_of_one A.sound B.sound };

    ghost numbers = { of_one A.numbers B.numbers };

    ghost told = { of_one A.told B.told };

    fn process(&mut self, moment: &Moment, ports: Shape, input: &[i32], output: &mut [i32]) -> i32 {
        match self {
            OneOf::First(guest) => guest.process(moment, ports, input, output),
            OneOf::Second(guest) => guest.process(moment, ports, input, output),
        }
    }

    fn work(&self, ports: Shape) -> u32 {
        match self {
            OneOf::First(guest) => guest.work(ports),
            OneOf::Second(guest) => guest.work(ports),
        }
    }

    fn reset(&mut self) {
        match self {
            OneOf::First(guest) => guest.reset(),
            OneOf::Second(guest) => guest.reset(),
        }
    }
}

/// The guests of a list, and one of another type behind them.
pub fn with_one<A: Guest, B: Guest>(
    alloc: Global,
    guests: Vec<A>,
    one: B,
) -> Result<Vec<OneOf<A, B>>, AllocError>
    ensures { IfOk result (λ all. all.items ≡ map (λ guest. First guest) guests.items ++ Second one ∷ []) }
{
    let mut all = firsts(alloc, guests)?;
    all.push(OneOf::Second(one))?;
    Ok(all)
}

/// The guests of a list, each as one of two types.
fn firsts<A: Guest, B: Guest>(alloc: Global, guests: Vec<A>) -> Result<Vec<OneOf<A, B>>, AllocError>
    ensures { IfOk result (λ all. all.items ≡ map (λ guest. First guest) guests.items) }
{
    guests
        .into_iter()
        .map(|guest| OneOf::First(guest))
        .collect(alloc)
}

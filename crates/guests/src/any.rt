//! Any one of the guests.

use crate::echo::EchoGuest;
use crate::fail::FailGuest;
use crate::fir::FirGuest;
use crate::hold::HoldGuest;
use client_kinds::{Guest, Shape};
use jack_types::{Memory, Moment, Score};
use std::alloc::Global;

/// Any one of the guests, so that a program keeps guests of all scores as one type.
#[derive(Drop)]
pub enum AnyGuest {
    Echo(EchoGuest),
    Fir(FirGuest),
    Hold(HoldGuest),
    Fail(FailGuest),
}

impl AnyGuest {
    ghost use Rattle.std.specs.Prelude.{◌≡◌, IfOk};
    ghost use Rattle.guests.specs.Any.{any_numbers, any_score};
    ghost use Rattle.guests.specs.Guests.{IsPlayable};
    ghost use Rattle.guests.specs.Sounds.{first_of, numbers_of};

    /// The guest of a score in its first memory.
    pub fn new(alloc: Global, score: Score) -> Result<AnyGuest, Memory>
        requires { IsPlayable score }
        ensures score { IfOk result (λ guest. any_score guest ≡ numbers_of score) }
        ensures numbers { IfOk result (λ guest. any_numbers guest ≡ first_of score) }
    {
        match score {
            Score::Echo { .. } => match EchoGuest::new(alloc, score) {
                Ok(guest) => Ok(AnyGuest::Echo(guest)),
                Err(_) => Err(Memory),
            },
            Score::Fir { .. } => match FirGuest::new(alloc, score) {
                Ok(guest) => Ok(AnyGuest::Fir(guest)),
                Err(_) => Err(Memory),
            },
            Score::Hold => match HoldGuest::new(alloc, score) {
                Ok(guest) => Ok(AnyGuest::Hold(guest)),
                Err(_) => Err(Memory),
            },
            Score::FailsAfter { .. } => match FailGuest::new(alloc, score) {
                Ok(guest) => Ok(AnyGuest::Fail(guest)),
                Err(_) => Err(Memory),
            },
        }
    }
}

impl Guest for AnyGuest {
    ghost use Rattle.std.specs.Prelude.{None};
    ghost use Rattle.guests.specs.Any.{any_numbers, any_score};
    ghost use Rattle.guests.specs.Sounds.{sound_by};

    ghost score = { any_score };

    ghost sound = { sound_by };

    ghost numbers = { any_numbers };

    ghost told = { λ _. None };

    fn process(&mut self, moment: &Moment, ports: Shape, input: &[i32], output: &mut [i32]) -> i32 {
        match self {
            AnyGuest::Echo(guest) => guest.process(moment, ports, input, output),
            AnyGuest::Fir(guest) => guest.process(moment, ports, input, output),
            AnyGuest::Hold(guest) => guest.process(moment, ports, input, output),
            AnyGuest::Fail(guest) => guest.process(moment, ports, input, output),
        }
    }

    fn reset(&mut self) {
        match self {
            AnyGuest::Echo(guest) => guest.reset(),
            AnyGuest::Fir(guest) => guest.reset(),
            AnyGuest::Hold(guest) => guest.reset(),
            AnyGuest::Fail(guest) => guest.reset(),
        }
    }
}

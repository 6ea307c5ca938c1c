//! A guest that fails after so many calls.

ghost use Rattle.std.specs.Prelude.{◌≡◌, ◌+◌, ◌==◌, ◌≤◌, ◌<◌, ◌^◌, if◌then◌else◌, length, min, pos, take};
ghost use Rattle.guests.specs.Turns.{heard};

use crate::hearing::{first_input, sample_at};
use client_kinds::{Guest, Shape, repeat_first};
use jack_types::{Memory, Moment, Score};
use std::alloc::Global;
use std::marker::Model;

/// Plays what it hears, and answers 1 in the call behind the calls of its score.
#[derive(Drop)]
pub struct FailGuest {
    calls: u32,
    made: u64,
}

impl Model for FailGuest {
    ghost use Rattle.std.specs.Prelude.{[], ◌∷◌, ◌+◌, ◌≤◌, pos};
    ghost use Rattle.jack_types.specs.declared.kinds.Score.TheVariants.{FailsAfter};
    ghost use Rattle.client_kinds.specs.Seats.{Playing};
    ghost use Rattle.guests.specs.Sounds.{numbers_of};

    ghost Value = { Playing };

    ghost view = { λ guest. record { score = numbers_of (FailsAfter guest.calls); numbers = pos guest.made ∷ [] } };

    ghost invariant = { λ guest. guest.made ≤ guest.calls + 1 };
}

impl FailGuest {
    ghost use Rattle.std.specs.Prelude.{◌≡◌, IfOk};
    ghost use Rattle.guests.specs.Guests.{IsFailing};
    ghost use Rattle.guests.specs.Sounds.{first_of, numbers_of};

    /// The guest of a score in its first memory.
    pub fn new(_alloc: Global, score: Score) -> Result<FailGuest, Memory>
        requires { IsFailing score }
        ensures { IfOk result (λ guest. guest ≡ record { score = numbers_of score; numbers = first_of score }) }
    {
        match score {
            Score::FailsAfter { calls } => Ok(FailGuest { calls, made: 0 }),
            _ => unreachable!(),
        }
    }
}

/// Plays the samples.
#[tactic(auto, using(crate::proofs::HearingLemmas::fill_more))]
fn copy_into(x: &[i32], part: &mut [i32])
    ensures { part.new ≡ heard (length part.old) x.now }
{
    for i in 0..part.len() {
        part[i] = sample_at(x, i);
    }
}

/// Plays the samples on the first output, if there is one.
fn copy(period: usize, x: &[i32], output: &mut [i32])
    ensures length { length output.new ≡ length output.old }
    ensures played { period ≤ length output.old → take period output.new ≡ heard period x.now }
{
    let played = period.min(output.len());
    copy_into(x, &mut output[..played]);
}

/// One call more, up to the one behind the calls of a score.
fn counted(calls: u32, made: u64) -> u64
    requires { made ≤ calls + 1 }
    ensures { result ≡ min (made + 1) (calls + 1) }
{
    (made + 1).min(u64::from(calls) + 1)
}

/// What is answered behind so many calls.
fn answer(calls: u32, made: u64) -> i32
    ensures { result ≡ pos (if made == calls then 1 else 0) }
{
    if made == u64::from(calls) { 1 } else { 0 }
}

impl Guest for FailGuest {
    ghost use Rattle.std.specs.Prelude.{None};
    ghost use Rattle.guests.specs.Sounds.{sound_by};

    ghost score = { λ guest. guest.score };

    ghost sound = { sound_by };

    ghost numbers = { λ guest. guest.numbers };

    ghost told = { λ _. None };

    fn process(
        &mut self,
        _moment: &Moment,
        ports: Shape,
        input: &[i32],
        output: &mut [i32],
    ) -> i32 {
        copy(ports.period as usize, first_input(ports, input), output);
        repeat_first(ports, output);
        let answer = answer(self.calls, self.made);
        self.made = counted(self.calls, self.made);
        answer
    }

    fn reset(&mut self) {
        self.made = 0;
    }
}

//! A guest that plays its last sample of the cycle before.

ghost use Rattle.std.specs.Prelude.{◌≡◌, ◌≤◌, length, replicate, take};

use crate::hearing::{first_input, sample_at};
use client_kinds::{Guest, Shape, repeat_first};
use jack_types::{Memory, Moment, Score};
use std::alloc::Global;
use std::marker::Model;

/// Plays in each cycle the last sample that it heard in the cycle before.
#[derive(Drop)]
pub struct HoldGuest {
    last: i32,
}

impl Model for HoldGuest {
    ghost use Rattle.std.specs.Prelude.{[], ◌∷◌};
    ghost use Rattle.jack_types.specs.declared.kinds.Score.TheVariants.{Hold};
    ghost use Rattle.client_kinds.specs.Seats.{Playing};
    ghost use Rattle.guests.specs.Sounds.{numbers_of};

    ghost Value = { Playing };

    ghost view = { λ guest. record { score = numbers_of Hold; numbers = guest.last ∷ [] } };
}

impl HoldGuest {
    ghost use Rattle.std.specs.Prelude.{◌≡◌, IfOk};
    ghost use Rattle.guests.specs.Guests.{IsHold};
    ghost use Rattle.guests.specs.Sounds.{first_of, numbers_of};

    /// The guest of a score in its first memory.
    pub fn new(_alloc: Global, score: Score) -> Result<HoldGuest, Memory>
        requires { IsHold score }
        ensures { IfOk result (λ guest. guest ≡ record { score = numbers_of score; numbers = first_of score }) }
    {
        match score {
            Score::Hold => Ok(HoldGuest { last: 0 }),
            _ => unreachable!(),
        }
    }
}

/// Plays one sample at each frame of the first output, if there is one.
fn hold(period: usize, y: i32, output: &mut [i32])
    ensures length { length output.new ≡ length output.old }
    ensures played { period ≤ length output.old → take period output.new ≡ replicate period y }
{
    let played = period.min(output.len());
    output[..played].fill(y);
}

impl Guest for HoldGuest {
    ghost use Rattle.std.specs.Prelude.{None};
    ghost use Rattle.guests.specs.Sounds.{sound_by};

    ghost score = { λ guest. guest.score };

    ghost sound = { sound_by };

    ghost numbers = { λ guest. guest.numbers };

    ghost told = { λ _. None };

    fn process(
        &mut self,
        _moment: &Moment,
        ports: Shape,
        input: &[i32],
        output: &mut [i32],
    ) -> i32 {
        let x = first_input(ports, input);
        let period = ports.period as usize;
        hold(period, self.last, output);
        repeat_first(ports, output);
        if period > 0 {
            self.last = sample_at(x, period - 1);
        }
        0
    }

    fn reset(&mut self) {
        self.last = 0;
    }
}

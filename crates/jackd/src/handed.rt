//! The guests that the program hands in.

ghost use Rattle.std.specs.Prelude.{◌≡◌, ◌++◌, ◌∷◌, [], IfOk, OnOk, map};
ghost use Rattle.guests.specs.Any.{any_score};
ghost use Rattle.guests.specs.Guests.{IsPlayable};
ghost use Rattle.guests.specs.Sounds.{numbers_of, sound_by};
ghost use Rattle.jackd.specs.Handed.{handed_in};

use guests::AnyGuest;
use jack_types::{Memory, Score, Taps};
use std::alloc::Global;

// Guest 1 sums its last three samples, the middle one twice, and takes a fourth of that.
const TAPS: [i32; 3] = [1, 2, 1];

// A guest more.
fn add(alloc: Global, guests: &mut Vec<AnyGuest>, score: Score) -> Result<(), Memory>
    requires { IsPlayable score }
    ensures { OnOk result (map any_score guests.new.items ≡ map any_score guests.old.items ++ numbers_of score ∷ []) }
{
    let guest = AnyGuest::new(alloc, score)?;
    match guests.push(guest) {
        Ok(()) => Ok(()),
        Err(_) => Err(Memory),
    }
}

/// Guest 0 is an echo of a tenth of a second at 48,000 frames a second, guest 1 a filter, and guest 2 holds a sample.
pub(crate) fn hand_in(alloc: Global) -> Result<Vec<AnyGuest>, Memory>
    ensures { IfOk result (λ guests. map sound_by (map any_score guests.items) ≡ handed_in) }
{
    let mut guests = Vec::new(alloc);
    let echo = Score::Echo {
        frames: 4800,
        gain: 1,
        shift: 1,
    };
    add(alloc, &mut guests, echo)?;
    let Some(taps) = Taps::read(&TAPS) else {
        unreachable!()
    };
    add(alloc, &mut guests, Score::Fir { taps, shift: 2 })?;
    add(alloc, &mut guests, Score::Hold)?;
    Ok(guests)
}

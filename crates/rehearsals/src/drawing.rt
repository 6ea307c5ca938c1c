//! Numbers that are drawn.

ghost use Rattle.std.specs.Prelude.{◌≡◌, ◌<◌};
ghost use Rattle.rehearsal_model.specs.Rehearsals.{draw, generator};

use rand_core::utils::NextWord;
use rand_pcg::Pcg32;

/// The generator of a rehearsal.
pub(crate) fn generator(number: u32) -> Pcg32
    ensures { result ≡ generator number }
{
    Pcg32::new(u64::from(number), 1)
}

/// The next word modulo `m`.
pub(crate) fn draw(rng: &mut Pcg32, m: u32) -> u32
    requires { 0 < m }
    ensures value { result ≡ (draw m rng.old).0 }
    ensures next { rng.new ≡ (draw m rng.old).1 }
    ensures below { result < m }
{
    rng.next_word() % m
}

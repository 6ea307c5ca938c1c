//! The driver of a session's cycles.

use client_kinds::Guest;
use cycle_works::Works;
use jack_host::{Source, Store};
use jack_types::Format;
use playback_mix::Playback;
use std::marker::Model;
use wave_write::WaveOut;

/// The driver of a session's cycles: it takes plans, lets their clients play, and keeps the lists that the report prints.
///
/// Contracts see a `Gear`, its parts, and by `driver_of` the driver that they make, in the words of the definitions.
#[derive(Drop)]
pub struct Driver<S: Source, W: Store, G: Guest> {
    pub(crate) works: Works<S, G>,
    pub(crate) mix: Playback,
    pub(crate) format: Format,
    pub(crate) playback: Option<WaveOut<W>>,
}

impl<S: Source, W: Store, G: Guest> Model for Driver<S, W, G> {
    ghost use Rattle.cycle_works.specs.Gears.{Gear};

    ghost Value = { Gear };

    ghost use Rattle.cycle_driver.specs.Insides.{IsWhole, seen_of};

    ghost view = { seen_of };

    ghost invariant = { IsWhole G.sound };
}

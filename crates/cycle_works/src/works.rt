//! The works of a driver's cycles.

use crate::parts::Parts;
use client_kinds::Guest;
use jack_host::Source;
use midi_stage::session_script::Script;
use proof_notes::Log;
use std::marker::Model;

/// The works of a driver's cycles: they take plans, let their clients play, keep what the report prints, and mix what the
/// playback gets. Which file is written with that, if any, is their owner's.
///
/// Contracts see a `Gear` without a playback. All memory is taken in `new`.
#[derive(Drop)]
pub struct Works<S: Source, G: Guest> {
    // Only proofs read the script.
    pub(crate) script: Log<(), Script>,
    pub(crate) parts: Parts<S, G>,
    pub(crate) failed: bool,
}

impl<S: Source, G: Guest> Model for Works<S, G> {
    ghost use Rattle.cycle_laws.specs.Gears.{Gear};

    ghost Value = { Gear };

    ghost use Rattle.cycle_works.specs.Insides.{IsWhole, seen_of};

    ghost view = { seen_of };

    ghost invariant = { IsWhole G.sound };
}

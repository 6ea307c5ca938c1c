//! The parts of a session.

use crate::works::SessionWorks;
use client_kinds::Guest;
use jack_host::{Source, Store};
use std::marker::Model;

/// The works of a session, the playback's store where it came back, and how many stores were attached.
///
/// Contracts see its `Parts`, and by `session_of` the session that they make, in the words of its laws.
#[derive(Drop)]
pub struct SessionParts<S: Source, W: Store, G: Guest> {
    pub works: SessionWorks<S, W, G>,
    pub playback: Option<W>,
    pub attached: usize,
}

impl<S: Source, W: Store, G: Guest> Model for SessionParts<S, W, G> {
    ghost use Rattle.std.specs.Option.{option_map};
    ghost use Rattle.session_works.specs.Parts.{Parts};

    ghost Value = { Parts };

    ghost view = { λ p. record { desk = p.works.desk; gear = p.works.driver; recorders = p.works.recorders.items; players = p.works.readers.items; playback = option_map (λ w. record { name = W.name w; bytes = W.content w; faults = W.faults w }) p.playback; attached = p.attached } };
}

//! A session.

use client_kinds::Guest;
use jack_host::{Source, Store};
use script_segments::Segment;
use session_ends::{RingLimits, SessionParts};
use session_threads::Lanes;
use std::marker::Model;

/// A session: its desk makes the calls of a script, its driver runs the cycles, its recorders keep what they hear, and its
/// readers read the files of its disks. In serial mode all of them work on the caller's thread, one after the other; in threads
/// mode they work at once.
///
/// Contracts see its `Parts`, and by `session_of` the session that they make, in the words of its laws.
#[derive(Drop)]
pub struct Session<S: Source, W: Store, G: Guest> {
    pub(crate) segments: Vec<Segment>,
    pub(crate) limits: RingLimits,
    pub(crate) lanes: Lanes,
    pub(crate) is_serial: bool,
    pub(crate) parts: SessionParts<S, W, G>,
}

impl<S: Source, W: Store, G: Guest> Model for Session<S, W, G> {
    ghost use Rattle.std.specs.Prelude.{◌≡◌, is_none};
    ghost use Rattle.script_segments.specs.Segments.{segments as the_segments};
    ghost use Rattle.session_ends.specs.Seen.{Parts};

    ghost Value = { Parts };

    ghost view = { λ s. s.parts };

    ghost invariant = { λ s. (s.segments.items ≡ the_segments s.parts.gear.script) × (s.limits.ring ≡ s.parts.gear.script.header.ring) × (s.limits.drain ≡ s.parts.gear.script.header.drain) × (s.limits.fill ≡ s.parts.gear.script.header.fill) × (s.is_serial ≡ is_none s.parts.gear.script.header.threads) };
}

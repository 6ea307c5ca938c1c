//! What the inputs of a client are mixed from.

ghost use Rattle.std.specs.Prelude.{◌≡◌, ◌≤◌, All, IsSome, length};
ghost use Rattle.activation.specs.Values.{values_of};
ghost use Rattle.activation.specs.session_model.specs.Benches.{audio_part, signal_at};
ghost use Rattle.client_benches.specs.Wires.{filled_with, part_in, source_part};

use crate::known::Room;
use crate::values::Rooms;

/// Where a connection's samples come from: from a room of the bench's own; from the incoming link of this
/// place among all that come in, there from the connection of this place; or from where the wire of this
/// place among all wires has them, so that no room is filled with the same samples twice. All count from 0.
#[derive(Drop)]
pub enum Source {
    Kept(Room),
    Carried { link: u32, connection: u32 },
    Like { place: u32 },
}

/// A connection into an input. Inputs are counted from 0.
#[derive(Drop)]
pub struct Wire {
    pub input: u16,
    pub source: Source,
}

impl Source {
    /// What it gives by itself, where the incoming links give these values.
    fn part<'a>(&'a self, given: &'a [Option<Rooms>]) -> &'a [i32]
        requires { All IsSome given.now }
        ensures { result.now ≡ audio_part (values_of given.now) (source_part self.now) }
    {
        match self {
            Source::Kept(room) => room.samples(),
            Source::Carried { link, connection } => {
                carried(given, *link as usize, *connection as usize)
            }
            Source::Like { .. } => &[],
        }
    }
}

impl Wire {
    /// What it brings among these wires, where the incoming links give these values.
    pub(crate) fn part<'a>(&'a self, wires: &'a [Wire], given: &'a [Option<Rooms>]) -> &'a [i32]
        requires { All IsSome given.now }
        ensures { result.now ≡ audio_part (values_of given.now) (part_in wires.now self.now) }
    {
        match &self.source {
            Source::Like { place } => match wires.get(*place as usize) {
                Some(wire) => wire.source.part(given),
                None => &[],
            },
            source => source.part(given),
        }
    }

    /// Puts these samples into its room, if it has one.
    pub(crate) fn fill(&mut self, samples: &[i32])
        requires { length samples.now ≤ 4096 }
        ensures { self.new ≡ record self.old { source = filled_with samples.now self.old.source } }
    {
        if let Source::Kept(room) = &mut self.source {
            room.fill(samples);
        }
    }
}

/// What a connection of an incoming link carries, nothing where there is none.
#[tactic(auto, using(crate::proofs::ValueLemmas::value_there, crate::proofs::ValueLemmas::value_past))]
fn carried(given: &[Option<Rooms>], link: usize, connection: usize) -> &[i32]
    requires { All IsSome given.now }
    ensures { result.now ≡ (signal_at (values_of given.now) link connection).audio }
{
    if link < given.len() {
        match &given[link] {
            Some(rooms) => rooms.audio(connection),
            None => unreachable!(),
        }
    } else {
        &[]
    }
}

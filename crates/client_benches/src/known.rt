//! Room for what an input gets from a source that does not play in this cycle.

ghost use Rattle.std.specs.Prelude.{◌≡◌, ◌≤◌, IfOk, [], length, take};

use crate::MOST_FRAMES;
use crate::values::lengthen;
use activation::jack_types::Memory;
use std::alloc::Global;
use std::marker::Model;

/// Room for one period of one connection, of 4,096 frames at most. Of it no more is touched than was needed so far.
///
/// Contracts see the samples that were put into it last.
#[derive(Drop)]
pub struct Room {
    samples: Vec<i32>,
    frames: usize,
}

impl Model for Room {
    ghost use Rattle.std.specs.Prelude.{List, ℤ};

    ghost Value = { List ℤ };

    ghost use Rattle.client_benches.specs.Rooms.{samples_in, IsRoom};

    ghost view = { samples_in };

    ghost invariant = { IsRoom };
}

/// Copies samples to the front.
fn put_front(room: &mut [i32], samples: &[i32])
    requires { length samples.now ≤ length room.old }
    ensures length { length room.new ≡ length room.old }
    ensures front { take (length samples.now) room.new ≡ samples.now }
{
    room[..samples.len()].copy_from_slice(samples);
}

impl Room {
    /// A room with no sample in it.
    pub fn new(alloc: Global) -> Result<Room, Memory>
        ensures { IfOk result (λ room. room ≡ []) }
    {
        match Vec::with_capacity(alloc, MOST_FRAMES) {
            Ok(samples) => Ok(Room { samples, frames: 0 }),
            Err(_) => Err(Memory),
        }
    }

    /// Puts these samples into it, in the place of those before.
    pub fn fill(&mut self, samples: &[i32])
        requires { length samples.now ≤ 4096 }
        ensures { self.new ≡ samples.now }
    {
        self.frames = samples.len();
        lengthen(&mut self.samples, samples.len());
        put_front(&mut self.samples, samples);
    }

    /// Its samples.
    pub fn samples(&self) -> &[i32]
        ensures { result.now ≡ self.now }
    {
        &self.samples[..self.frames]
    }
}

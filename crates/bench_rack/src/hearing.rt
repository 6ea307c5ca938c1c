//! What the inputs of the benches are mixed from.

ghost use Rattle.std.specs.Prelude.{◌≡◌, ◌+◌, ◌<◌, [], length, slice_index_or, slice_set, vec_capacity};
ghost use Rattle.bench_rack.specs.Insides.{bench_among};
ghost use Rattle.bench_rack.specs.Racks.{filled};

use crate::racks::Rack;
use bench_crew::client_benches::{ClientBench, Room};
use bench_crew::client_kinds::Guest;

/// Takes one of the spare rooms, with nothing in it.
fn take_room(spare: &mut Vec<Room>) -> Room
    requires { 0 < length spare.old.items }
    ensures room { result ≡ [] }
    ensures spare { (length spare.new.items + 1 ≡ length spare.old.items) × (vec_capacity spare.new ≡ vec_capacity spare.old) }
{
    match spare.pop() {
        Some(mut room) => {
            room.fill(&[]);
            room
        }
        None => unreachable!(),
    }
}

/// Puts what an output of a bench gave into the room of one of its own wires, if that has one.
fn fill_own<G: Guest>(benches: &mut [ClientBench<G>], place: usize, wire: usize, output: usize)
    requires place { place < length benches.old }
    requires wire { wire < length (bench_among benches.old place).kept.wires }
    ensures { benches.new ≡ slice_set benches.old place (filled wire (slice_index_or (bench_among benches.old place).kept.audio output []) (bench_among benches.old place)) }
{
    benches[place].fill_own(wire, output);
}

/// Puts what an output of a bench gave into the room of a wire of a bench behind it, if that has one.
fn fill_behind<G: Guest>(
    benches: &mut [ClientBench<G>],
    place: usize,
    wire: usize,
    from: usize,
    output: usize,
)
    requires place { place < length benches.old }
    requires from { from < place }
    requires wire { wire < length (bench_among benches.old place).kept.wires }
    ensures { benches.new ≡ slice_set benches.old place (filled wire (slice_index_or (bench_among benches.old from).kept.audio output []) (bench_among benches.old place)) }
{
    let (front, back) = benches.split_at_mut(place);
    back[0].fill_from(wire, &front[from], output);
}

/// Puts what an output of a bench gave into the room of a wire of a bench before it, if that has one.
fn fill_before<G: Guest>(
    benches: &mut [ClientBench<G>],
    place: usize,
    wire: usize,
    from: usize,
    output: usize,
)
    requires place { place < from }
    requires from { from < length benches.old }
    requires wire { wire < length (bench_among benches.old place).kept.wires }
    ensures { benches.new ≡ slice_set benches.old place (filled wire (slice_index_or (bench_among benches.old from).kept.audio output []) (bench_among benches.old place)) }
{
    let (front, back) = benches.split_at_mut(from);
    front[place].fill_from(wire, &back[0], output);
}

/// Puts what an output of a bench gave into the room of a wire of a bench, if that has one.
fn fill_among<G: Guest>(
    benches: &mut [ClientBench<G>],
    place: usize,
    wire: usize,
    from: usize,
    output: usize,
)
    requires place { place < length benches.old }
    requires from { from < length benches.old }
    requires wire { wire < length (bench_among benches.old place).kept.wires }
    ensures { benches.new ≡ slice_set benches.old place (filled wire (slice_index_or (bench_among benches.old from).kept.audio output []) (bench_among benches.old place)) }
{
    if from == place {
        fill_own(benches, place, wire, output);
    } else if from < place {
        fill_behind(benches, place, wire, from, output);
    } else {
        fill_before(benches, place, wire, from, output);
    }
}

impl<G: Guest> Rack<G> {
    ghost use Rattle.std.specs.Prelude.{◌≡◌, ◌<◌, ◌≤◌, [], length, slice_index_or};
    ghost use Rattle.bench_rack.specs.Racks.{bench_at, filled, heard_carried, heard_kept, heard_like, wire_total, with_bench};

    /// Adds a connection into an input of a bench, from a source that does not play in the cycle. It brings
    /// nothing yet.
    pub fn hear_kept(&mut self, place: usize, input: u16)
        requires place { place < length self.old.benches }
        requires few { length (bench_at self.old place).kept.wires < 512 }
        requires room { wire_total self.old < 512 }
        ensures { self.new ≡ with_bench self.old place (heard_kept input (bench_at self.old place)) }
    {
        let room = take_room(&mut self.spare);
        self.benches[place].hear_kept(input, room);
    }

    /// Adds a connection into an input of a bench: the connection of this place over the incoming link of
    /// this place.
    pub fn hear_carried(&mut self, place: usize, input: u16, link: u32, connection: u32)
        requires place { place < length self.old.benches }
        requires few { length (bench_at self.old place).kept.wires < 512 }
        ensures { self.new ≡ with_bench self.old place (heard_carried input link connection (bench_at self.old place)) }
    {
        self.benches[place].hear_carried(input, link, connection);
    }

    /// Adds a connection into an input of a bench, which brings what the bench's wire of this place brings by
    /// itself. It takes no room.
    pub fn hear_like(&mut self, place: usize, input: u16, wire: u32)
        requires place { place < length self.old.benches }
        requires few { length (bench_at self.old place).kept.wires < 512 }
        ensures { self.new ≡ with_bench self.old place (heard_like input wire (bench_at self.old place)) }
    {
        self.benches[place].hear_like(input, wire);
    }

    /// Puts samples into the room of a bench's wire, if it has one.
    pub fn fill(&mut self, place: usize, wire: usize, samples: &[i32])
        requires place { place < length self.old.benches }
        requires wire { wire < length (bench_at self.old place).kept.wires }
        requires samples { length samples.now ≤ 4096 }
        ensures { self.new ≡ with_bench self.old place (filled wire samples.now (bench_at self.old place)) }
    {
        self.benches[place].fill(wire, samples);
    }

    /// Puts what an output of a bench gave when it was last played into the room of a bench's wire, if it has
    /// one; nothing where there was no such output.
    pub fn fill_back(&mut self, place: usize, wire: usize, from: usize, output: usize)
        requires place { place < length self.old.benches }
        requires from { from < length self.old.benches }
        requires wire { wire < length (bench_at self.old place).kept.wires }
        ensures { self.new ≡ with_bench self.old place (filled wire (slice_index_or (bench_at self.old from).kept.audio output []) (bench_at self.old place)) }
    {
        fill_among(&mut self.benches, place, wire, from, output);
    }
}

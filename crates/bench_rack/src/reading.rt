//! What is read of the benches of a rack.

use crate::racks::Rack;
use bench_crew::client_benches::ClientBench;
use bench_crew::client_kinds::Guest;
use jack_types::Kind;

impl<G: Guest> Rack<G> {
    ghost use Rattle.std.specs.Prelude.{◌≡◌, ◌<◌, [], is_some, length, slice_index_or};
    ghost use Rattle.bench_rack.specs.Racks.{bench_at};

    /// How many benches there are.
    pub fn len(&self) -> usize
        ensures { result ≡ length self.now.benches }
    {
        self.benches.len()
    }

    /// All benches, by their places.
    pub fn benches(&self) -> &[ClientBench<G>]
        ensures { result.now ≡ self.now.benches }
    {
        &self.benches
    }

    /// The bench at a place.
    pub fn bench(&self, place: usize) -> &ClientBench<G>
        requires { place < length self.now.benches }
        ensures { result.now ≡ bench_at self.now place }
    {
        &self.benches[place]
    }

    /// The kind of the bench at a place.
    pub fn kind(&self, place: usize) -> Kind
        requires { place < length self.now.benches }
        ensures { result ≡ (bench_at self.now place).kept.standing.kind }
    {
        self.benches[place].kind()
    }

    /// Whether the bench at a place has a guest.
    pub fn has_guest(&self, place: usize) -> bool
        requires { place < length self.now.benches }
        ensures { result ≡ is_some (bench_at self.now place).kept.standing.score }
    {
        self.benches[place].has_guest()
    }

    /// A meter's peak, the greatest magnitude of its inputs so far.
    pub fn peak(&self, place: usize) -> u32
        requires { place < length self.now.benches }
        ensures { result ≡ (bench_at self.now place).kept.standing.memory.peak }
    {
        self.benches[place].peak()
    }

    /// What an input got when the bench at a place was last played, nothing where there was no such input.
    pub fn sound(&self, place: usize, input: usize) -> &[i32]
        requires { place < length self.now.benches }
        ensures { result.now ≡ slice_index_or (bench_at self.now place).kept.sounds input [] }
    {
        self.benches[place].sound(input)
    }

    /// What an output gave when the bench at a place was last played, nothing where there was no such output.
    pub fn output(&self, place: usize, output: usize) -> &[i32]
        requires { place < length self.now.benches }
        ensures { result.now ≡ slice_index_or (bench_at self.now place).kept.audio output [] }
    {
        self.benches[place].output(output)
    }
}

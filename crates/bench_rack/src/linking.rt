//! What the outgoing links of the benches carry.

ghost use Rattle.std.specs.Prelude.{◌≡◌, ◌+◌, ◌<◌, length, vec_capacity};

use crate::racks::Rack;
use bench_crew::client_benches::Rooms;
use bench_crew::client_kinds::Guest;

/// Takes the spare rooms of a link.
fn take_rooms(spare: &mut Vec<Rooms>) -> Rooms
    requires { 0 < length spare.old.items }
    ensures { (length spare.new.items + 1 ≡ length spare.old.items) × (vec_capacity spare.new ≡ vec_capacity spare.old) }
{
    match spare.pop() {
        Some(rooms) => rooms,
        None => unreachable!(),
    }
}

impl<G: Guest> Rack<G> {
    ghost use Rattle.std.specs.Prelude.{◌≡◌, ◌<◌, IfSome, None, length};
    ghost use Rattle.std.specs.Option.{ForSome};
    ghost use Rattle.bench_crew.specs.client_benches.specs.Seen.{room_at};
    ghost use Rattle.bench_rack.specs.Racks.{bench_at, carrying, link_total, linked, with_bench};

    /// Gives a bench the room of its outgoing link of this place.
    pub fn link(&mut self, place: usize, link: u32)
        requires place { place < length self.old.benches }
        requires link { link < 64 }
        requires none { room_at (bench_at self.old place) link ≡ None }
        requires room { link_total self.old < self.old.links }
        ensures { self.new ≡ with_bench self.old place (linked link (bench_at self.old place)) }
    {
        let rooms = take_rooms(&mut self.spare_links);
        self.benches[place].link(link, rooms);
    }

    /// Adds a connection that carries an output of a bench over its outgoing link of this place, or no audio.
    pub fn carry(&mut self, place: usize, link: u32, output: Option<u16>)
        requires place { place < length self.old.benches }
        requires few { length (bench_at self.old place).kept.routes < 512 }
        requires output { IfSome output (λ output. ForSome (bench_at self.old place).kept.turn (λ turn. output < turn.ports.outputs)) }
        ensures { self.new ≡ with_bench self.old place (carrying link output (bench_at self.old place)) }
    {
        self.benches[place].carry(link, output);
    }
}

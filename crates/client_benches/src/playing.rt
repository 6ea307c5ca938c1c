//! What a crew does with a client's bench.

ghost use Rattle.std.specs.Prelude.{◌≡◌, ◌+◌, ◌≤◌, ◌*◌, ◌<◌, ◌^◌, ℕ, [], All, None, length, option_map, slice_index_or};
ghost use Rattle.activation.specs.session_model.specs.Kinds.{play};
ghost use Rattle.client_kinds.specs.Buffers.{buffers_of};
ghost use Rattle.client_kinds.specs.Standings.{HasGuest};
ghost use Rattle.client_benches.specs.Insides.{IsReached};
ghost use Rattle.client_benches.specs.Routes.{HasOutput, carried_by};
ghost use Rattle.client_benches.specs.Seen.{AreFilled, own_sounds};

use crate::benches::{BenchMemory, ClientBench, Stint};
use crate::mixing::mix_inputs;
use crate::values::{Rooms, Route};
use activation::Work;
use activation::jack_types::Moment;
use client_kinds::{Bench, Guest, Shape};

/// Copies what each outgoing link carries into its room, if that is there. Past the last link nothing
/// is carried. No place from `reached` on has a room.
fn fill_rooms(
    rooms: &mut [Option<Rooms>],
    reached: usize,
    routes: &[Route],
    links: u32,
    ports: Shape,
    outputs: &[i32],
)
    requires few { length routes.now ≤ 512 }
    requires routes { All (HasOutput ports.outputs) routes.now }
    requires ports { ports.outputs ≤ 16 }
    requires rooms { length rooms.old ≡ 64 }
    requires reached { IsReached reached rooms.old }
    requires frames { ports.period ≤ 4096 }
    requires outputs { ports.outputs * ports.period ≤ length outputs.now }
    ensures places { length rooms.new ≡ length rooms.old }
    ensures filled { AreFilled rooms.old rooms.new links (λ link. carried_by ports.period (buffers_of ports.outputs ports.period outputs.now) link routes.now) }
{
    for place in 0..reached {
        if let Some(room) = rooms[place].as_mut() {
            if (place as u32) < links {
                room.fill(routes, place as u32, ports, outputs);
            } else {
                room.clear();
            }
        }
    }
}

/// Takes all connections off the links. No place from `reached` on has a room.
fn clear_rooms(rooms: &mut [Option<Rooms>], reached: usize)
    requires rooms { length rooms.old ≡ 64 }
    requires reached { IsReached reached rooms.old }
    ensures places { length rooms.new ≡ length rooms.old }
    ensures cleared { (place : ℕ) → slice_index_or rooms.new place None ≡ option_map (λ _. []) (slice_index_or rooms.old place None) }
{
    for place in 0..reached {
        if let Some(room) = rooms[place].as_mut() {
            room.clear();
        }
    }
}

/// Plays a cycle on the first of these planar buffers.
fn play_front<G: Guest>(
    bench: &mut Bench<G>,
    moment: &Moment,
    ports: Shape,
    input: &[i32],
    output: &mut [i32],
)
    requires guest { HasGuest bench.old.kind bench.old.score }
    requires rate { 8000 ≤ moment.now.rate }
    requires frames { moment.now.frame + ports.period < 2 ^ 32 }
    requires period { ports.period ≤ bench.old.period }
    requires few { (ports.inputs ≤ 16) × (ports.outputs ≤ 16) }
    requires input { ports.inputs * ports.period ≤ length input.now }
    requires output { ports.outputs * ports.period ≤ length output.old }
    ensures length { length output.new ≡ length output.old }
    ensures bench { bench.new ≡ record bench.old { memory = (play (own_sounds G.sound bench.old) bench.old.kind bench.old.memory ports.outputs moment.now ports.period (buffers_of ports.inputs ports.period input.now)).memory } }
    ensures output { buffers_of ports.outputs ports.period output.new ≡ (play (own_sounds G.sound bench.old) bench.old.kind bench.old.memory ports.outputs moment.now ports.period (buffers_of ports.inputs ports.period input.now)).outputs }
{
    let heard = usize::from(ports.inputs) * ports.period as usize;
    let sounded = usize::from(ports.outputs) * ports.period as usize;
    bench.process(moment, ports, &input[..heard], &mut output[..sounded]);
}

impl<G: Guest> ClientBench<G> {
    ghost use Rattle.std.specs.Prelude.{◌≡◌, ℕ, Some, All, IsSome, option_map};
    ghost use Rattle.activation.specs.Values.{values_of};
    ghost use Rattle.client_benches.specs.Seen.{kept_after, kept_gives, room_at};

    /// Mixes the inputs, plays on them, and fills the rooms of the outgoing links.
    fn play_turn(&mut self, turn: Stint, given: &[Option<Rooms>])
        requires turn { self.old.kept.turn ≡ Some turn }
        requires given { All (λ value. IsSome value) given.now }
        ensures kept { self.new.kept ≡ kept_after G.sound self.old.kept (values_of given.now) }
        ensures rooms { (place : ℕ) → room_at self.new place ≡ option_map (λ _. kept_gives G.sound self.old.kept (values_of given.now) place) (room_at self.old place) }
    {
        let parts = &mut *self.parts;
        mix_inputs(
            &mut parts.mixer,
            &mut parts.padded,
            parts.wires.as_slice(),
            given,
            turn.ports,
            &mut parts.input,
        );
        play_front(
            &mut parts.bench,
            &turn.moment,
            turn.ports,
            &parts.input,
            &mut parts.output,
        );
        parts.played = turn.ports;
        fill_rooms(
            &mut parts.rooms,
            parts.reached,
            parts.routes.as_slice(),
            turn.links,
            turn.ports,
            &parts.output,
        );
    }
}

impl<G: Guest> Work for ClientBench<G> {
    type Value = Rooms;

    type Memory = BenchMemory;

    ghost use Rattle.client_benches.specs.Seen.{has_room_at, value_in, kept_after, kept_gives};

    ghost memory = { λ bench. bench.kept };

    ghost has_room = { has_room_at };

    ghost value_at = { value_in };

    ghost after = { kept_after G.sound };

    ghost gives = { kept_gives G.sound };

    fn play(&mut self, given: &[Option<Rooms>]) {
        match self.parts.turn {
            Some(turn) => self.play_turn(turn, given),
            None => {
                let parts = &mut *self.parts;
                clear_rooms(&mut parts.rooms, parts.reached);
            }
        }
    }

    fn hand(&mut self, place: u32) -> Rooms {
        match self.parts.rooms[place as usize].take() {
            Some(rooms) => rooms,
            None => unreachable!(),
        }
    }

    fn back(&mut self, place: u32, value: Rooms) {
        let parts = &mut *self.parts;
        parts.rooms[place as usize] = Some(value);
        parts.reached = parts.reached.max(place as usize + 1);
    }
}

//! How a driver sets a client's bench.

ghost use Rattle.std.specs.Prelude.{◌≡◌, ◌+◌, ◌≤◌, [], None, count_by, is_some, length, replicate, vec_capacity};
ghost use Rattle.client_benches.specs.Wires.{kept_count};

use crate::benches::{ClientBench, Stint, nothing};
use crate::known::Room;
use crate::reading::buffer;
use crate::values::{Rooms, Route};
use crate::wires::{Source, Wire};
use activation::jack_types::Moment;
use client_kinds::{Guest, Shape};

/// Takes all wires, and gives their rooms to those that are spare.
fn unwire(wires: &mut Vec<Wire>, spare: &mut Vec<Room>)
    requires { length spare.old.items + kept_count wires.old.items ≤ vec_capacity spare.old }
    ensures wires { (wires.new.items ≡ []) × (vec_capacity wires.new ≡ vec_capacity wires.old) }
    ensures spare { (length spare.new.items ≡ length spare.old.items + kept_count wires.old.items) × (vec_capacity spare.new ≡ vec_capacity spare.old) }
{
    while let Some(wire) = wires.pop() {
        if let Source::Kept(room) = wire.source {
            spare.push_reserved(room);
        }
    }
}

/// Takes the rooms of all links, and gives them to those that are spare.
fn empty_places(rooms: &mut [Option<Rooms>], spare: &mut Vec<Rooms>)
    requires { length spare.old.items + count_by is_some rooms.old ≤ vec_capacity spare.old }
    ensures rooms { rooms.new ≡ replicate (length rooms.old) None }
    ensures spare { (length spare.new.items ≡ length spare.old.items + count_by is_some rooms.old) × (vec_capacity spare.new ≡ vec_capacity spare.old) }
{
    for place in 0..rooms.len() {
        if let Some(room) = rooms[place].take() {
            spare.push_reserved(room);
        }
    }
}

impl<G: Guest> ClientBench<G> {
    ghost use Rattle.std.specs.Prelude.{◌≡◌, ◌+◌, ◌*◌, ◌<◌, ◌≤◌, ◌++◌, ◌∷◌, [], false, true, ℕ, IfNone, IfSome, IsSome, List, Some, None, length, map, option_map, slice_get, slice_index_or, slice_set, vec_capacity};
    ghost use Rattle.std.specs.Option.{ForSome};
    ghost use Rattle.activation.specs.session_model.specs.Kinds.{first};
    ghost use Rattle.client_kinds.specs.Buffers.{channels_of};
    ghost use Rattle.client_kinds.specs.Scores.{Score};
    ghost use Rattle.client_kinds.specs.Standings.{HasScore, IsDisk, IsGuest};
    ghost use Rattle.client_benches.specs.Seen.{MayPlay, cleared, moved_to, rested, room_count};
    ghost use Rattle.client_benches.specs.Wires.{kept_count, with_samples};
    ghost use Rattle.client_benches.specs.declared.wires.Source.TheVariants.{Kept, Carried, Like};

    /// Lends a guest, which is reset.
    pub fn lend(&mut self, guest: G)
        requires kind { IsGuest self.old.kept.standing.kind }
        requires none { self.old.kept.standing.score ≡ None }
        ensures kind { self.new.kept.standing.kind ≡ self.old.kept.standing.kind }
        ensures period { self.new.kept.standing.period ≡ self.old.kept.standing.period }
        ensures score { self.new.kept.standing.score ≡ Some (G.score guest) }
        ensures memory { (scores : List Score) → HasScore self.new.kept.standing scores → self.new.kept.standing.memory ≡ first (map G.sound scores) self.new.kept.standing.kind }
        ensures others { self.new ≡ record self.old { kept = record self.old.kept { standing = self.new.kept.standing } } }
    {
        self.parts.bench.lend(guest);
    }

    /// The guest that was lent, if there is one. It leaves. The bench is idle.
    pub fn give_back(&mut self) -> Option<G>
        requires { self.old.kept.turn ≡ None }
        ensures none { IfNone result (self.old.kept.standing.score ≡ None) }
        ensures guest { IfSome result (λ guest. self.old.kept.standing.score ≡ Some (G.score guest)) }
        ensures numbers { IfSome result (λ guest. self.old.kept.standing.memory.numbers ≡ G.numbers guest) }
        ensures after { self.new ≡ record self.old { kept = record self.old.kept { standing = record self.old.kept.standing { score = None; memory = record self.old.kept.standing.memory { numbers = []; is_dead = false } } } } }
    {
        self.parts.bench.give_back()
    }

    /// Feeds a disk player the interleaved block that its next cycle plays and uses up, or its front, where
    /// that cycle is shorter.
    pub fn feed(&mut self, samples: &[i32], channels: u16)
        requires kind { IsDisk self.old.kept.standing.kind }
        requires least { 1 ≤ channels }
        requires most { channels ≤ 8 }
        requires samples { length samples.now ≡ channels * self.old.kept.standing.period }
        ensures { self.new ≡ record self.old { kept = record self.old.kept { standing = record self.old.kept.standing { memory = record self.old.kept.standing.memory { fed = channels_of channels self.old.kept.standing.period samples.now } } } } }
    {
        self.parts.bench.feed(samples, channels);
    }

    /// Makes it idle: takes its task, its wires and its routes, and gives its rooms to those that are
    /// spare. What it played last stays.
    pub fn clear(&mut self, spare: &mut Vec<Room>, spare_links: &mut Vec<Rooms>)
        requires spare { length spare.old.items + kept_count self.old.kept.wires ≤ vec_capacity spare.old }
        requires spare_links { length spare_links.old.items + room_count self.old ≤ vec_capacity spare_links.old }
        ensures bench { self.new ≡ cleared self.old }
        ensures spare { (length spare.new.items ≡ length spare.old.items + kept_count self.old.kept.wires) × (vec_capacity spare.new ≡ vec_capacity spare.old) }
        ensures spare_links { (length spare_links.new.items ≡ length spare_links.old.items + room_count self.old) × (vec_capacity spare_links.new ≡ vec_capacity spare_links.old) }
    {
        let parts = &mut *self.parts;
        parts.turn = None;
        parts.routes.clear();
        unwire(&mut parts.wires, spare);
        empty_places(&mut parts.rooms, spare_links);
        parts.reached = 0;
    }

    /// Makes it idle, as `clear` does, and forgets what it got and gave when it was last played.
    pub fn rest(&mut self, spare: &mut Vec<Room>, spare_links: &mut Vec<Rooms>)
        requires spare { length spare.old.items + kept_count self.old.kept.wires ≤ vec_capacity spare.old }
        requires spare_links { length spare_links.old.items + room_count self.old ≤ vec_capacity spare_links.old }
        ensures bench { self.new ≡ rested self.old }
        ensures spare { (length spare.new.items ≡ length spare.old.items + kept_count self.old.kept.wires) × (vec_capacity spare.new ≡ vec_capacity spare.old) }
        ensures spare_links { (length spare_links.new.items ≡ length spare_links.old.items + room_count self.old) × (vec_capacity spare_links.new ≡ vec_capacity spare_links.old) }
    {
        self.clear(spare, spare_links);
        self.parts.played = nothing();
    }

    /// Sets what the client does in the next cycle. There are as many links out of its node.
    pub fn begin(&mut self, moment: &Moment, ports: Shape, links: u32)
        requires routes { self.old.kept.routes ≡ [] }
        requires turn { MayPlay self.old.kept.standing (record { moment = moment.now; ports = ports; links = links }) }
        ensures { self.new ≡ record self.old { kept = record self.old.kept { turn = Some (record { moment = moment.now; ports = ports; links = links }) } } }
    {
        self.parts.turn = Some(Stint {
            moment: *moment,
            ports,
            links,
        });
    }

    /// Adds a connection into an input, from a source that does not play in the cycle, with the room for
    /// what it brings.
    pub fn hear_kept(&mut self, input: u16, room: Room)
        requires { length self.old.kept.wires < 512 }
        ensures { self.new ≡ record self.old { kept = record self.old.kept { wires = self.old.kept.wires ++ record { input = input; source = Kept room } ∷ [] } } }
    {
        self.parts.wires.push_reserved(Wire {
            input,
            source: Source::Kept(room),
        });
    }

    /// Adds a connection into an input: the connection of this place, over the incoming link of this
    /// place.
    pub fn hear_carried(&mut self, input: u16, link: u32, connection: u32)
        requires { length self.old.kept.wires < 512 }
        ensures { self.new ≡ record self.old { kept = record self.old.kept { wires = self.old.kept.wires ++ record { input = input; source = Carried link connection } ∷ [] } } }
    {
        self.parts.wires.push_reserved(Wire {
            input,
            source: Source::Carried { link, connection },
        });
    }

    /// Adds a connection into an input, which brings what the wire of this place among all wires brings by
    /// itself. It needs no room.
    pub fn hear_like(&mut self, input: u16, place: u32)
        requires { length self.old.kept.wires < 512 }
        ensures { self.new ≡ record self.old { kept = record self.old.kept { wires = self.old.kept.wires ++ record { input = input; source = Like place } ∷ [] } } }
    {
        self.parts.wires.push_reserved(Wire {
            input,
            source: Source::Like { place },
        });
    }

    /// Adds a connection that carries an output over the outgoing link of this place, or no audio.
    pub fn carry(&mut self, link: u32, output: Option<u16>)
        requires few { length self.old.kept.routes < 512 }
        requires output { IfSome output (λ output. ForSome self.old.kept.turn (λ turn. output < turn.ports.outputs)) }
        ensures { self.new ≡ record self.old { kept = record self.old.kept { routes = self.old.kept.routes ++ record { link = link; output = output } ∷ [] } } }
    {
        self.parts.routes.push_reserved(Route { link, output });
    }

    /// Takes the room of the outgoing link of this place. Nothing is in it.
    pub fn link(&mut self, place: u32, room: Rooms)
        requires { place < 64 }
        ensures bench { self.new ≡ record self.old { rooms = slice_set self.old.rooms place (Some []) } }
        ensures places { length self.new.rooms ≡ 64 }
    {
        let mut room = room;
        room.clear();
        let parts = &mut *self.parts;
        parts.rooms[place as usize] = Some(room);
        parts.reached = parts.reached.max(place as usize + 1);
    }

    /// Sets the moment and the period of the next cycle.
    pub fn set_moment(&mut self, moment: &Moment, period: u32)
        requires { ForSome self.old.kept.turn (λ turn. MayPlay self.old.kept.standing (moved_to moment.now period turn)) }
        ensures { self.new ≡ record self.old { kept = record self.old.kept { turn = option_map (moved_to moment.now period) self.old.kept.turn } } }
    {
        if let Some(turn) = self.parts.turn.as_mut() {
            turn.moment = *moment;
            turn.ports.period = period;
        }
    }

    /// Puts samples into the room of the wire of this place among all wires, if it has one.
    pub fn fill(&mut self, place: usize, samples: &[i32])
        requires place { place < length self.old.kept.wires }
        requires samples { length samples.now ≤ 4096 }
        ensures { self.new ≡ record self.old { kept = record self.old.kept { wires = with_samples self.old.kept.wires place samples.now } } }
    {
        self.parts.wires[place].fill(samples);
    }

    /// Puts what an output of another bench gave when that was last played into the room of the wire of this
    /// place among all wires, if it has one; nothing where there was no such output.
    pub fn fill_from(&mut self, place: usize, other: &ClientBench<G>, output: usize)
        requires place { place < length self.old.kept.wires }
        ensures { self.new ≡ record self.old { kept = record self.old.kept { wires = with_samples self.old.kept.wires place (slice_index_or other.now.kept.audio output []) } } }
    {
        let parts = &*other.parts;
        let samples = buffer(
            parts.output.as_slice(),
            parts.played.outputs,
            parts.played.period,
            output,
        );
        self.parts.wires[place].fill(samples);
    }

    /// Puts what its own output gave when it was last played into the room of the wire of this place among
    /// all wires, if it has one; nothing where there was no such output.
    pub fn fill_own(&mut self, place: usize, output: usize)
        requires place { place < length self.old.kept.wires }
        ensures { self.new ≡ record self.old { kept = record self.old.kept { wires = with_samples self.old.kept.wires place (slice_index_or self.old.kept.audio output []) } } }
    {
        let parts = &mut *self.parts;
        let samples = buffer(
            parts.output.as_slice(),
            parts.played.outputs,
            parts.played.period,
            output,
        );
        parts.wires[place].fill(samples);
    }
}

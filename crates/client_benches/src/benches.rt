//! A client's bench.

ghost use Rattle.std.specs.Prelude.{◌≡◌, ◌*◌, ◌≤◌, IfOk, [], None, length, replicate, vec_capacity};
ghost use Rattle.client_kinds.specs.Standings.{IsPlayable};
ghost use Rattle.activation.specs.session_model.specs.Kinds.{first};

use crate::values::{Rooms, Route};
use crate::wires::Wire;
use crate::{MOST_CONNECTIONS, MOST_PORTS};
use activation::jack_types::{Kind, Memory, Moment};
use client_kinds::port_mixer::Mixer;
use client_kinds::{Bench, Guest, Shape};
use std::alloc::{AllocError, Global};
use std::marker::Model;

/// Places of outgoing links. A node has fewer of these than there are nodes.
const PLACES: usize = 64;

/// What a bench remembers. No value of it is made.
///
/// Contracts see a `Remembered`.
pub struct BenchMemory;

impl Model for BenchMemory {
    ghost use Rattle.client_benches.specs.Seen.{Remembered, nobody};

    ghost Value = { Remembered };

    ghost view = { λ _. nobody };
}

/// A client's work in a cycle: when it plays, with how many ports and frames, and how many links go
/// out from its node.
#[derive(Clone, Copy, PartialEq, Eq, Drop)]
pub struct Stint {
    pub moment: Moment,
    pub ports: Shape,
    pub links: u32,
}

/// The bench that a crew plays for a client.
///
/// Contracts see a `Seen`: what the bench remembers, and its rooms by the place of an outgoing link.
/// All room is taken when a bench is made; no other call takes memory.
#[derive(Drop)]
pub struct ClientBench<G: Guest> {
    pub(crate) parts: Box<Parts<G>>,
}

/// The parts of a bench. They lie in one place, since a crew moves each bench many times in a cycle.
#[derive(Drop)]
pub(crate) struct Parts<G: Guest> {
    pub(crate) bench: Bench<G>,
    pub(crate) mixer: Mixer,
    pub(crate) padded: Vec<i32>,
    pub(crate) input: Vec<i32>,
    pub(crate) output: Vec<i32>,
    pub(crate) played: Shape,
    pub(crate) turn: Option<Stint>,
    pub(crate) wires: Vec<Wire>,
    pub(crate) routes: Vec<Route>,
    pub(crate) rooms: Vec<Option<Rooms>>,
    // Places of links from this one on have no room.
    pub(crate) reached: usize,
}

impl<G: Guest> Model for ClientBench<G> {
    ghost use Rattle.client_benches.specs.Seen.{Seen};

    ghost Value = { Seen };

    ghost use Rattle.client_benches.specs.Insides.{seen_of, HasAllRoom, IsPlayedShape, IsReached, IsSound};

    ghost view = { λ b. seen_of b.parts.value.bench b.parts.value.turn b.parts.value.wires.items b.parts.value.routes.items b.parts.value.played b.parts.value.input.items b.parts.value.output.items b.parts.value.rooms.items };

    ghost invariant = { λ b. HasAllRoom b.parts.value.bench.period b.parts.value.mixer b.parts.value.padded.items b.parts.value.input.items b.parts.value.output.items b.parts.value.wires b.parts.value.routes b.parts.value.rooms.items × IsPlayedShape b.parts.value.bench.period b.parts.value.played × IsSound b.parts.value.bench b.parts.value.turn b.parts.value.routes.items × IsReached b.parts.value.reached b.parts.value.rooms.items };
}

/// What a bench played that played nothing.
pub(crate) fn nothing() -> Shape
    ensures { result ≡ record { inputs = 0; outputs = 0; period = 0 } }
{
    Shape {
        inputs: 0,
        outputs: 0,
        period: 0,
    }
}

/// All room of a bench but that of its memory and its sums.
#[derive(Drop)]
struct Space {
    padded: Vec<i32>,
    input: Vec<i32>,
    output: Vec<i32>,
    wires: Vec<Wire>,
    routes: Vec<Route>,
    rooms: Vec<Option<Rooms>>,
}

/// No room at any of 64 places.
fn no_rooms(alloc: Global) -> Result<Vec<Option<Rooms>>, AllocError>
    ensures { IfOk result (λ rooms. rooms.items ≡ replicate 64 None) }
{
    let mut rooms = Vec::with_capacity(alloc, PLACES)?;
    for place in 0..PLACES {
        rooms.push_reserved(None);
    }
    Ok(rooms)
}

/// The room for periods of so many frames.
fn take_space(alloc: Global, period: u32) -> Result<Space, AllocError>
    requires { period ≤ 4096 }
    ensures buffers { IfOk result (λ space. (length space.padded.items ≡ period) × (length space.input.items ≡ 16 * period) × (length space.output.items ≡ 16 * period)) }
    ensures lists { IfOk result (λ space. (space.wires.items ≡ []) × (512 ≤ vec_capacity space.wires) × (space.routes.items ≡ []) × (512 ≤ vec_capacity space.routes)) }
    ensures rooms { IfOk result (λ space. space.rooms.items ≡ replicate 64 None) }
{
    let padded = vec![in alloc; 0; period as usize]?;
    let input = vec![in alloc; 0; MOST_PORTS * period as usize]?;
    let output = vec![in alloc; 0; MOST_PORTS * period as usize]?;
    let wires = Vec::with_capacity(alloc, MOST_CONNECTIONS)?;
    let routes = Vec::with_capacity(alloc, MOST_CONNECTIONS)?;
    let rooms = no_rooms(alloc)?;
    Ok(Space {
        padded,
        input,
        output,
        wires,
        routes,
        rooms,
    })
}

impl<G: Guest> ClientBench<G> {
    ghost use Rattle.client_benches.specs.Seen.{new_bench};

    /// The bench of a client in its kind's first memory, idle, for cycles of at most so many frames.
    pub fn new(alloc: Global, kind: Kind, period: u32) -> Result<ClientBench<G>, Memory>
        requires kind { IsPlayable kind }
        requires period { period ≤ 4096 }
        ensures { IfOk result (λ bench. bench ≡ new_bench kind period) }
    {
        let bench = Bench::new(alloc, kind, period)?;
        let mixer = Mixer::new(alloc, period)?;
        match take_space(alloc, period) {
            Ok(space) => ClientBench::over(alloc, bench, mixer, space),
            Err(_) => Err(Memory),
        }
    }

    /// An idle bench over this room.
    fn over(
        alloc: Global,
        bench: Bench<G>,
        mixer: Mixer,
        space: Space,
    ) -> Result<ClientBench<G>, Memory>
        requires sums { (bench.period ≤ mixer.room) × (bench.period ≤ 4096) }
        requires buffers { (length space.padded.items ≡ bench.period) × (length space.input.items ≡ 16 * bench.period) × (length space.output.items ≡ 16 * bench.period) }
        requires lists { (space.wires.items ≡ []) × (512 ≤ vec_capacity space.wires) × (space.routes.items ≡ []) × (512 ≤ vec_capacity space.routes) }
        requires rooms { space.rooms.items ≡ replicate 64 None }
        requires log { bench.memory.log ≡ [] }
        ensures { IfOk result (λ made. made ≡ record { kept = record { standing = bench; turn = None; wires = []; routes = []; sounds = []; audio = [] }; rooms = replicate 64 None }) }
    {
        let parts = Parts {
            bench,
            mixer,
            padded: space.padded,
            input: space.input,
            output: space.output,
            played: nothing(),
            turn: None,
            wires: space.wires,
            routes: space.routes,
            rooms: space.rooms,
            reached: 0,
        };
        match Box::new(alloc, parts) {
            Ok(parts) => Ok(ClientBench { parts }),
            Err(_) => Err(Memory),
        }
    }
}

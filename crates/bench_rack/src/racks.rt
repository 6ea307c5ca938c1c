//! The rack.

ghost use Rattle.std.specs.Prelude.{◌≡◌, ◌≤◌, All, IfOk, [], length, map, replicate, vec_capacity};
ghost use Rattle.bench_crew.specs.client_benches.specs.Seen.{new_bench};
ghost use Rattle.bench_crew.specs.client_kinds.specs.Standings.{IsPlayable};

use bench_crew::client_benches::{ClientBench, MOST_CONNECTIONS, Room, Rooms};
use bench_crew::client_kinds::Guest;
use jack_types::{Kind, Memory};
use std::alloc::Global;
use std::marker::Model;

/// All benches of a session, each at a place, with the rooms that none of them uses.
///
/// Contracts see the benches by their places, and how many rooms for links there are in all. All room is
/// taken when a rack is made; no other call takes memory.
#[derive(Drop)]
pub struct Rack<G: Guest> {
    pub(crate) benches: Vec<ClientBench<G>>,
    pub(crate) spare: Vec<Room>,
    pub(crate) spare_links: Vec<Rooms>,
    pub(crate) links: usize,
}

impl<G: Guest> Model for Rack<G> {
    ghost use Rattle.bench_rack.specs.Insides.{IsWhole, racked};
    ghost use Rattle.bench_rack.specs.Racks.{Racked};

    ghost Value = { Racked };

    ghost view = { λ r. racked r.benches.items r.links };

    ghost invariant = { λ r. IsWhole (racked r.benches.items r.links) r.spare r.spare_links };
}

/// The bench of each of these kinds.
fn make_benches<G: Guest>(
    alloc: Global,
    kinds: &[Kind],
    period: u32,
) -> Result<Vec<ClientBench<G>>, Memory>
    requires kinds { All IsPlayable kinds.now }
    requires period { period ≤ 4096 }
    ensures { IfOk result (λ benches. benches.items ≡ map (λ kind. new_bench kind period) kinds.now) }
{
    let Ok(mut benches) = Vec::with_capacity(alloc, kinds.len()) else {
        return Err(Memory);
    };
    for kind in kinds {
        benches.push_reserved(ClientBench::new(alloc, *kind, period)?);
    }
    Ok(benches)
}

/// The rooms of all connections.
fn make_rooms(alloc: Global) -> Result<Vec<Room>, Memory>
    ensures { IfOk result (λ rooms. (length rooms.items ≡ 512) × (512 ≤ vec_capacity rooms)) }
{
    let Ok(mut rooms) = Vec::with_capacity(alloc, MOST_CONNECTIONS) else {
        return Err(Memory);
    };
    for place in 0..MOST_CONNECTIONS {
        rooms.push_reserved(Room::new(alloc)?);
    }
    Ok(rooms)
}

/// The rooms of so many links.
fn make_link_rooms(alloc: Global, links: usize) -> Result<Vec<Rooms>, Memory>
    ensures { IfOk result (λ rooms. (length rooms.items ≡ links) × (links ≤ vec_capacity rooms)) }
{
    let Ok(mut rooms) = Vec::with_capacity(alloc, links) else {
        return Err(Memory);
    };
    for place in 0..links {
        rooms.push_reserved(Rooms::new(alloc)?);
    }
    Ok(rooms)
}

impl<G: Guest> Rack<G> {
    /// An idle bench of each of these kinds, for cycles of at most so many frames, with rooms for 512
    /// connections and for so many links.
    pub fn new(alloc: Global, kinds: &[Kind], period: u32, links: usize) -> Result<Rack<G>, Memory>
        requires kinds { All IsPlayable kinds.now }
        requires period { period ≤ 4096 }
        ensures { IfOk result (λ rack. rack ≡ record { benches = map (λ kind. new_bench kind period) kinds.now; links = links }) }
    {
        let benches = make_benches(alloc, kinds, period)?;
        let spare = make_rooms(alloc)?;
        let spare_links = make_link_rooms(alloc, links)?;
        Ok(Rack {
            benches,
            spare,
            spare_links,
            links,
        })
    }
}

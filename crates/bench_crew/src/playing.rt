//! A cycle over benches that lie outside the crew.
ghost use Rattle.std.specs.Prelude.{◌≡◌, ◌≤◌, ℕ, List, length};
ghost use Rattle.session_model.specs.Activation.{AreLinks};
ghost use Rattle.client_benches.specs.activation.specs.Rounds.{AreSeats, AreFresh, AreReturned, HavePlayed, Know};
ghost use Rattle.steal_workers.specs.cycle_workers.specs.Runs.{HaveRoom};
ghost use Rattle.bench_crew.specs.Ensembles.{AreReady, HaveDeques};

use crate::linking::relink;
use client_benches::activation::{Crew, Seat, Work};
use jack_host::Gate;
use jack_types::Link;
use std::thread::Threads;
use steal_workers::cycle_workers::run_cycle;
use steal_workers::{Thieves, steal_cycle};

/// Plays every node of the crew once. Where there are thieves, its seats take each other's nodes.
fn play_cycle<B: Work + Send, G: Gate, T: Threads + Sync>(
    threads: &T,
    gate: &G,
    crew: &Crew<B>,
    seats: &mut Vec<Seat<B>>,
    thieves: &mut Option<Thieves<B>>,
)
    requires all { AreSeats crew.now.board.shared.table_id crew.now.links.items crew.now.nodes crew.now.seats seats.old.items }
    requires fresh { (before : List B) × AreFresh crew.now.links.items before crew.now.seats seats.old.items × HaveRoom B.has_room crew.now.links.items before }
    requires deques { HaveDeques crew.now.seats thieves.old }
    ensures all { AreSeats crew.now.board.shared.table_id crew.now.links.items crew.now.nodes crew.now.seats seats.new.items }
    ensures played { HavePlayed crew.now.nodes crew.now.seats seats.new.items }
    ensures before { (before : List B) → Know before seats.old.items → Know before seats.new.items }
    ensures deques { HaveDeques crew.now.seats thieves.new }
{
    match thieves {
        Some(thieves) => steal_cycle(threads, crew, seats, thieves, gate),
        None => run_cycle(threads, crew, seats.as_mut_slice(), gate),
    }
}

/// Plays these benches in place of the crew's own, and gives each the room back that it had.
fn play_in_place<B: Work + Send, G: Gate, T: Threads + Sync>(
    threads: &T,
    gate: &G,
    crew: &mut Crew<B>,
    seats: &mut Vec<Seat<B>>,
    thieves: &mut Option<Thieves<B>>,
    links: &[Link],
    benches: &mut [B],
)
    requires ready { AreReady crew.old.board.shared.table_id crew.old.links.items crew.old.nodes crew.old.seats seats.old.items }
    requires deques { HaveDeques crew.old.seats thieves.old }
    requires links { (crew.old.links.items ≡ links.now) × AreLinks crew.old.nodes links.now × (length links.now ≤ 512) }
    requires benches { (length benches.old ≡ crew.old.nodes) × HaveRoom B.has_room links.now benches.old }
    ensures crew { (crew.new.nodes ≡ crew.old.nodes) × (crew.new.seats ≡ crew.old.seats) }
    ensures ready { AreReady crew.new.board.shared.table_id crew.new.links.items crew.new.nodes crew.new.seats seats.new.items }
    ensures deques { HaveDeques crew.new.seats thieves.new }
    ensures played { AreReturned B.memory B.has_room B.after B.gives links.now benches.old benches.new }
{
    crew.swap(seats.as_mut_slice(), benches);
    play_cycle(threads, gate, crew, seats, thieves);
    crew.reset(seats.as_mut_slice(), links);
    crew.swap(seats.as_mut_slice(), benches);
}

/// Plays these benches, one a node, over these links. The crew has its own benches behind it again.
pub(crate) fn play_over<B: Work + Send, G: Gate, T: Threads + Sync>(
    threads: &T,
    gate: &G,
    crew: &mut Crew<B>,
    seats: &mut Vec<Seat<B>>,
    thieves: &mut Option<Thieves<B>>,
    links: &[Link],
    benches: &mut [B],
)
    requires ready { AreReady crew.old.board.shared.table_id crew.old.links.items crew.old.nodes crew.old.seats seats.old.items }
    requires deques { HaveDeques crew.old.seats thieves.old }
    requires links { AreLinks crew.old.nodes links.now × (length links.now ≤ 512) }
    requires benches { (length benches.old ≡ crew.old.nodes) × HaveRoom B.has_room links.now benches.old }
    ensures crew { (crew.new.nodes ≡ crew.old.nodes) × (crew.new.seats ≡ crew.old.seats) }
    ensures ready { AreReady crew.new.board.shared.table_id crew.new.links.items crew.new.nodes crew.new.seats seats.new.items }
    ensures deques { HaveDeques crew.new.seats thieves.new }
    ensures played { AreReturned B.memory B.has_room B.after B.gives links.now benches.old benches.new }
{
    relink(crew, seats.as_mut_slice(), links);
    play_in_place(threads, gate, crew, seats, thieves, links, benches);
}

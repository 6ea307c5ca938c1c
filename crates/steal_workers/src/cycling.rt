//! All seats in threads, and what the calling thread does before and behind them.
ghost use Rattle.std.specs.Prelude.{◌≡◌, List, length, All};
ghost use Rattle.cycle_workers.specs.activation.specs.Ends.{AreEnded};
ghost use Rattle.cycle_workers.specs.activation.specs.Rounds.{AreSeats, HavePlayed, Know, AreFresh};
ghost use Rattle.cycle_workers.specs.Runs.{HaveRoom};
ghost use Rattle.steal_workers.specs.Crews.{facts_of};
ghost use Rattle.steal_workers.specs.Thefts.{AreEmpty};
ghost use Rattle.steal_workers.specs.Works.{IsAtWork, WorksOn};

use crate::ends::Stealer;
use crate::places::Place;
use crate::seating::{begin, end};
use crate::stealing::{start_all, sweep_all, work};
use crate::thieves::Thieves;
use cycle_workers::activation::{Crew, Seat, Work};
use jack_host::Gate;
use std::thread;
use std::thread::Threads;

/// Plays every node of the crew once, with the seats shared among as many threads. The seats take each
/// other's nodes.
///
/// The crew is new or was reset, and these are all its seats; each bench has room at the places of its
/// node's outgoing links. There is a deque for each seat. With one seat no thread is started. A push may
/// take memory for its deque; where that is refused the seat plays the node itself.
pub fn steal_cycle<B: Work + Send, G: Gate, T: Threads + Sync>(
    threads: &T,
    crew: &Crew<B>,
    seats: &mut Vec<Seat<B>>,
    thieves: &mut Thieves<B>,
    gate: &G,
)
    requires all { AreSeats crew.now.board.shared.table_id crew.now.links.items crew.now.nodes crew.now.seats seats.old.items }
    requires fresh { (before : List B) × AreFresh crew.now.links.items before crew.now.seats seats.old.items × HaveRoom B.has_room crew.now.links.items before }
    requires deques { length thieves.old ≡ crew.now.seats }
    ensures all { AreSeats crew.now.board.shared.table_id crew.now.links.items crew.now.nodes crew.now.seats seats.new.items }
    ensures played { HavePlayed crew.now.nodes crew.now.seats seats.new.items }
    ensures before { (before : List B) → Know before seats.old.items → Know before seats.new.items }
    ensures ended { (before : List B) → Know before seats.old.items → AreEnded B.memory B.has_room B.after B.gives crew.now.links.items before seats.new.items }
    ensures deques { length thieves.new ≡ crew.now.seats }
    ensures empty { AreEmpty thieves.new }
{
    let places = thieves.places.as_mut_slice();
    begin(places, seats, &mut thieves.passes);
    let stealers = &thieves.stealers;
    // Before the threads begin, so that no seat looks round before there is something to take.
    start_all(crew, places, stealers.as_slice(), gate);
    let count = places.len();
    let step = |_index: usize, place: &mut Place<B>|
        requires { IsAtWork B.has_room (facts_of crew.now) stealers.now.items place.old }
        ensures { WorksOn (facts_of crew.entry.now) stealers.entry.now.items place.entry.now place.exit.now }
    { work(crew, place, stealers.as_slice(), gate) };
    thread::for_each_mut(threads, places, count, &step);
    end(places, seats, &mut thieves.passes);
    sweep_all(crew, seats.as_mut_slice(), gate);
}

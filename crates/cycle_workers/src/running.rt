//! What each seat runs, and all seats in threads.
ghost use Rattle.std.specs.Prelude.{◌≡◌, ◌<◌, ◌≤◌, ◌%◌, ◌-◌, ℕ, List, [], ◌∷◌, length};
ghost use Rattle.activation.specs.Seats.{Sits, new_duty};
ghost use Rattle.activation.specs.Takens.{IsUnplayed};
ghost use Rattle.cycle_workers.specs.Runs.{HaveRoom, IsRun, HasRun};
ghost use Rattle.activation.specs.Ends.{AreEnded};
ghost use Rattle.activation.specs.Rounds.{AreSeats, HavePlayed, Know, AreFresh};

use activation::{Crew, Seat, Taken, Work};
use jack_host::Gate;
use std::thread;
use std::thread::Threads;

/// Plays a node that the seat took, releases its links, runs what that takes, and brings it home.
///
/// Each bench has room at the places of its node's outgoing links. The gate is told the node before it
/// is played.
pub fn run<B: Work, G: Gate>(crew: &Crew<B>, seat: &mut Seat<B>, gate: &G, mut taken: Taken<B>)
    requires seat { Sits crew.now.board.shared.table_id crew.now.links.items crew.now.nodes crew.now.seats seat.old.number seat.old.token }
    requires taken { IsUnplayed B.memory B.has_room B.value_at B.after B.gives seat.old.token.me.0.duty taken.node taken.tray }
    requires room { HaveRoom B.has_room crew.now.links.items seat.old.token.me.0.duty.before }
    ensures seat { (seat.new.number ≡ seat.old.number) × Sits crew.now.board.shared.table_id crew.now.links.items crew.now.nodes crew.now.seats seat.new.number seat.new.token }
    ensures run { IsRun crew.now.links.items taken.node seat.old.token.me.0.duty seat.new.token.me.0.duty }
{
    let node = taken.node();
    gate.before_client(seat.number(), node);
    taken.play();
    let links = crew.outgoing(node);
    for link in links {
        if let Some(next) = crew.release(seat, &mut taken, *link) {
            run(crew, seat, gate, next);
        }
    }
    crew.home(seat, taken);
}

// Starts every node of the seat's share, and runs what it takes.
fn run_share<B: Work, G: Gate>(crew: &Crew<B>, seat: &mut Seat<B>, gate: &G, count: u32)
    requires seat { Sits crew.now.board.shared.table_id crew.now.links.items crew.now.nodes crew.now.seats seat.old.number seat.old.token }
    requires count { count ≡ crew.now.seats }
    requires fresh { seat.old.token.me.0.duty ≡ new_duty crew.now.links.items seat.old.token.me.0.duty.before count (seat.old.number ∷ []) }
    requires room { HaveRoom B.has_room crew.now.links.items seat.old.token.me.0.duty.before }
    ensures seat { (seat.new.number ≡ seat.old.number) × Sits crew.now.board.shared.table_id crew.now.links.items crew.now.nodes crew.now.seats seat.new.number seat.new.token }
    ensures run { HasRun crew.now.nodes count seat.new.number seat.old.token.me.0.duty seat.new.token.me.0.duty }
{
    for node in 0..crew.nodes() {
        if node % count == seat.number() {
            if let Some(taken) = crew.start(seat, node) {
                run(crew, seat, gate, taken);
            }
        }
    }
}

/// Plays every node of the crew once, with the seats shared among as many threads.
///
/// The crew is new or was reset, and these are all its seats; each bench has room at the places of its
/// node's outgoing links. With one seat no thread is started.
pub fn run_cycle<B: Work + Send, G: Gate, T: Threads + Sync>(
    threads: &T,
    crew: &Crew<B>,
    seats: &mut [Seat<B>],
    gate: &G,
)
    requires all { AreSeats crew.now.board.shared.table_id crew.now.links.items crew.now.nodes crew.now.seats seats.old }
    requires fresh { (before : List B) × AreFresh crew.now.links.items before crew.now.seats seats.old × HaveRoom B.has_room crew.now.links.items before }
    ensures all { AreSeats crew.now.board.shared.table_id crew.now.links.items crew.now.nodes crew.now.seats seats.new }
    ensures played { HavePlayed crew.now.nodes crew.now.seats seats.new }
    ensures before { (before : List B) → Know before seats.old → Know before seats.new }
    ensures ended { (before : List B) → Know before seats.old → AreEnded B.memory B.has_room B.after B.gives crew.now.links.items before seats.new }
{
    let count = seats.len();
    let step = |_index: usize, seat: &mut Seat<B>|
        requires { Sits crew.now.board.shared.table_id crew.now.links.items crew.now.nodes crew.now.seats seat.old.number seat.old.token × (count ≡ crew.now.seats) × (seat.old.token.me.0.duty ≡ new_duty crew.now.links.items seat.old.token.me.0.duty.before count (seat.old.number ∷ [])) × HaveRoom B.has_room crew.now.links.items seat.old.token.me.0.duty.before }
        ensures { (seat.exit.now.number ≡ seat.entry.now.number) × Sits crew.entry.now.board.shared.table_id crew.entry.now.links.items crew.entry.now.nodes crew.entry.now.seats seat.exit.now.number seat.exit.now.token × HasRun crew.entry.now.nodes count seat.exit.now.number seat.entry.now.token.me.0.duty seat.exit.now.token.me.0.duty }
    { run_share(crew, seat, gate, count as u32) };
    thread::for_each_mut(threads, seats, count, &step);
}

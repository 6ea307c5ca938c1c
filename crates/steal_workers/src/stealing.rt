//! What each seat runs.
ghost use Rattle.std.specs.Prelude.{◌≡◌, ◌<◌, ◌⊎◌, [], ◌∷◌, length, All, vec_capacity};
ghost use Rattle.cycle_workers.specs.activation.specs.Plays.{without};
ghost use Rattle.cycle_workers.specs.activation.specs.Seats.{new_duty};
ghost use Rattle.cycle_workers.specs.activation.specs.Takens.{IsUnplayed, AreBetween};
ghost use Rattle.cycle_workers.specs.Runs.{HaveRoom};
ghost use Rattle.steal_workers.specs.Crews.{facts_of, IsSeatOf};
ghost use Rattle.steal_workers.specs.Tallies.{with_pushed};
ghost use Rattle.steal_workers.specs.Deques.{tally_of, IsPassFor};
ghost use Rattle.steal_workers.specs.Places.{Paired};
ghost use Rattle.steal_workers.specs.Steals.{KeepsDeque, IsOffered, LeavesAbove, IsPicked, HasWorked, HasSwept};
ghost use Rattle.steal_workers.specs.Works.{IsReady, IsUnderWay, IsAtWork, WorksOn, MaySweep, Sweeps};

use crate::ends::{Deque, Pass, Stealer};
use crate::places::{Place, Thief};
use cycle_workers::activation::{Crew, Seat, Taken, Work};
use cycle_workers::run;
use jack_host::Gate;

// Leaves a node that the seat took, and pushes its number. Where the push is refused the seat picks the
// node again, and runs it.
fn offer<B: Work, G: Gate>(
    crew: &Crew<B>,
    seat: &mut Seat<B>,
    deque: &mut Deque,
    gate: &G,
    taken: Taken<B>,
)
    requires seat { IsSeatOf (facts_of crew.now) seat.old }
    requires taken { IsUnplayed B.memory B.has_room B.value_at B.after B.gives seat.old.token.me.0.duty taken.node taken.tray }
    requires room { HaveRoom B.has_room crew.now.links.items seat.old.token.me.0.duty.before }
    ensures seat { (seat.new.number ≡ seat.old.number) × IsSeatOf (facts_of crew.now) seat.new }
    ensures deque { KeepsDeque deque.old deque.new }
    ensures offered { IsOffered crew.now.links.items taken.node seat.old.token.me.0.duty seat.new.token.me.0.duty }
    ensures left { ((tally_of deque.new ≡ with_pushed (tally_of deque.old) (taken.node ∷ [])) × (seat.new.token.me.0.duty.left ≡ taken.node ∷ seat.old.token.me.0.duty.left))
        ⊎ ((tally_of deque.new ≡ tally_of deque.old) × (seat.new.token.me.0.duty.left ≡ without taken.node seat.old.token.me.0.duty.left)) }
{
    let node = taken.node();
    crew.leave(seat, taken);
    if deque.push(node).is_ok() {
        return;
    }
    if let Some(taken) = crew.pick(seat, node) {
        run(crew, seat, gate, taken);
    }
}

// Plays a node that the seat picked, releases its links, offers what that takes, and brings it home.
fn play<B: Work, G: Gate>(
    crew: &Crew<B>,
    seat: &mut Seat<B>,
    deque: &mut Deque,
    gate: &G,
    mut taken: Taken<B>,
)
    requires seat { IsSeatOf (facts_of crew.now) seat.old }
    requires taken { IsUnplayed B.memory B.has_room B.value_at B.after B.gives seat.old.token.me.0.duty taken.node taken.tray }
    requires room { HaveRoom B.has_room crew.now.links.items seat.old.token.me.0.duty.before }
    ensures seat { (seat.new.number ≡ seat.old.number) × IsSeatOf (facts_of crew.now) seat.new }
    ensures deque { KeepsDeque deque.old deque.new }
    ensures played { IsOffered crew.now.links.items taken.node seat.old.token.me.0.duty seat.new.token.me.0.duty }
    ensures left { LeavesAbove taken.node crew.now.nodes seat.old.token.me.0.duty.left seat.new.token.me.0.duty.left }
{
    let node = taken.node();
    gate.before_client(seat.number(), node);
    taken.play();
    let links = crew.outgoing(node);
    for link in links {
        if let Some(next) = crew.release(seat, &mut taken, *link) {
            offer(crew, seat, deque, gate, next);
        }
    }
    crew.home(seat, taken);
}

// Picks a node whose number a deque gave, and plays it.
fn pick<B: Work, G: Gate>(
    crew: &Crew<B>,
    seat: &mut Seat<B>,
    deque: &mut Deque,
    gate: &G,
    node: u32,
)
    requires seat { IsSeatOf (facts_of crew.now) seat.old }
    requires node { node < crew.now.nodes }
    requires room { HaveRoom B.has_room crew.now.links.items seat.old.token.me.0.duty.before }
    ensures seat { (seat.new.number ≡ seat.old.number) × IsSeatOf (facts_of crew.now) seat.new }
    ensures deque { KeepsDeque deque.old deque.new }
    ensures picked { IsPicked node crew.now.nodes seat.old.token.me.0.duty seat.new.token.me.0.duty }
{
    if let Some(taken) = crew.pick(seat, node) {
        play(crew, seat, deque, gate, taken);
    }
}

// Offers every node that the starts of the seat's share take.
fn start<B: Work, G: Gate>(
    crew: &Crew<B>,
    seat: &mut Seat<B>,
    deque: &mut Deque,
    gate: &G,
    count: u32,
)
    requires seat { IsSeatOf (facts_of crew.now) seat.old }
    requires count { count ≡ crew.now.seats }
    requires fresh { seat.old.token.me.0.duty ≡ new_duty crew.now.links.items seat.old.token.me.0.duty.before count (seat.old.number ∷ []) }
    requires room { HaveRoom B.has_room crew.now.links.items seat.old.token.me.0.duty.before }
    ensures seat { (seat.new.number ≡ seat.old.number) × IsSeatOf (facts_of crew.now) seat.new }
    ensures deque { KeepsDeque deque.old deque.new }
    ensures worked { HasWorked crew.now.nodes count seat.new.number seat.old.token.me.0.duty seat.new.token.me.0.duty }
{
    for node in 0..crew.nodes() {
        if node % count == seat.number() {
            if let Some(taken) = crew.start(seat, node) {
                offer(crew, seat, deque, gate, taken);
            }
        }
    }
}

// Offers what the starts of the share of the seat at a place take.
fn start_here<B: Work, G: Gate>(
    crew: &Crew<B>,
    place: &mut Place<B>,
    stealers: &[Stealer],
    gate: &G,
)
    requires ready { IsReady B.has_room (facts_of crew.now) stealers.now place.old }
    requires count { length stealers.now ≡ crew.now.seats }
    ensures { IsUnderWay (facts_of crew.now) stealers.now place.old place.new }
{
    let Place { deque, thief } = place;
    if let Some(thief) = thief {
        start(crew, &mut thief.seat, deque, gate, stealers.len() as u32);
    }
}

/// Lets each seat in turn offer what the starts of its share take.
pub(crate) fn start_all<B: Work, G: Gate>(
    crew: &Crew<B>,
    places: &mut [Place<B>],
    stealers: &[Stealer],
    gate: &G,
)
    requires ready { All (λ place. IsReady B.has_room (facts_of crew.now) stealers.now place) places.old }
    requires count { length stealers.now ≡ crew.now.seats }
    ensures { Paired (IsUnderWay (facts_of crew.now) stealers.now) places.old places.new }
{
    for place in places.iter_mut() {
        start_here(crew, place, stealers, gate);
    }
}

// The number that one of the other deques gives, asked once each, from the next seat's on.
fn steal(stealers: &[Stealer], passes: &mut Vec<Pass>, own: u32) -> Option<u32>
    requires { Paired IsPassFor stealers.now passes.old.items }
    ensures passes { Paired IsPassFor stealers.now passes.new.items }
    ensures room { vec_capacity passes.new ≡ vec_capacity passes.old }
{
    let count = stealers.len();
    for step in 1..count {
        let place = (own as usize + step) % count;
        if let Some(node) = stealers[place].steal(&mut passes[place]) {
            return Some(node);
        }
    }
    None
}

// A number of the seat's own deque, or else of another.
fn find(deque: &mut Deque, stealers: &[Stealer], passes: &mut Vec<Pass>, own: u32) -> Option<u32>
    requires part { 0 < (tally_of deque.old).parts }
    requires passes { Paired IsPassFor stealers.now passes.old.items }
    ensures deque { KeepsDeque deque.old deque.new }
    ensures passes { Paired IsPassFor stealers.now passes.new.items }
    ensures room { vec_capacity passes.new ≡ vec_capacity passes.old }
{
    if let Some(node) = deque.pop() {
        return Some(node);
    }
    steal(stealers, passes, own)
}

/// Plays what the seat's deque and the others hold, until none of them gives more.
pub(crate) fn work<B: Work, G: Gate>(
    crew: &Crew<B>,
    place: &mut Place<B>,
    stealers: &[Stealer],
    gate: &G,
)
    requires ready { IsAtWork B.has_room (facts_of crew.now) stealers.now place.old }
    ensures { WorksOn (facts_of crew.now) stealers.now place.old place.new }
{
    let Place { deque, thief } = place;
    let Some(thief) = thief else {
        return;
    };
    let Thief { seat, passes } = thief;
    // Each node's number is pushed once a cycle at most, so no seat finds more.
    for _ in 0..crew.nodes() {
        let Some(node) = find(deque, stealers, passes, seat.number()) else {
            return;
        };
        if node < crew.nodes() {
            pick(crew, seat, deque, gate, node);
        }
    }
}

// Picks every node, and runs those that were left.
fn sweep<B: Work, G: Gate>(crew: &Crew<B>, seat: &mut Seat<B>, gate: &G)
    requires seat { IsSeatOf (facts_of crew.now) seat.old }
    requires room { HaveRoom B.has_room crew.now.links.items seat.old.token.me.0.duty.before }
    requires none_held { seat.old.token.me.0.duty.held ≡ [] }
    requires left { AreBetween 0 crew.now.nodes seat.old.token.me.0.duty.left }
    ensures seat { (seat.new.number ≡ seat.old.number) × IsSeatOf (facts_of crew.now) seat.new }
    ensures swept { HasSwept seat.old.token.me.0.duty seat.new.token.me.0.duty }
{
    for node in 0..crew.nodes() {
        if let Some(taken) = crew.pick(seat, node) {
            run(crew, seat, gate, taken);
        }
    }
}

/// Lets each seat pick every node, and run those that were left.
pub(crate) fn sweep_all<B: Work, G: Gate>(crew: &Crew<B>, seats: &mut [Seat<B>], gate: &G)
    requires seats { All (λ seat. MaySweep B.has_room (facts_of crew.now) seat) seats.old }
    ensures { Paired (Sweeps (facts_of crew.now)) seats.old seats.new }
{
    for seat in seats.iter_mut() {
        sweep(crew, seat, gate);
    }
}

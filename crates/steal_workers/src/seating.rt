//! How the seats come to their places and leave them, and how passes are lent and taken back.
ghost use Rattle.std.specs.Prelude.{◌≡◌, ◌+◌, ◌<◌, ◌≤◌, ℕ, List, [], length, All, IsSome, IfSome, Some, None, slice_index_or, vec_capacity};
ghost use Rattle.steal_workers.specs.Tallies.{every_part, HasAll, IsEven};
ghost use Rattle.steal_workers.specs.Deques.{tally_of, SameDeque};
ghost use Rattle.steal_workers.specs.Places.{Paired, parts_of, IsPassAt, Lends, TakesBack, Empties, thief_of, TakesPlace, MayLeave};
ghost use Rattle.cycle_workers.specs.activation.specs.declared.takens.Seat.{Seat};
ghost use Rattle.steal_workers.specs.declared.places.Place.{Place};
ghost use Rattle.std.specs.Global.{Vec, Global};
ghost use Rattle.crossbeam_deque.specs.Handles.{Pass};
ghost use Rattle.steal_workers.specs.declared.tallies.Tally.{Tally};

use crate::ends::Pass;
use crate::places::{Place, Thief};
use cycle_workers::activation::{Seat, Work};

// Lends a pass of each deque.
fn lend<B: Work>(places: &mut [Place<B>], row: &mut Vec<Pass>)
    requires row { (row.old.items ≡ []) × (length places.old ≤ vec_capacity row.old) }
    requires parts { All (λ place. 1 < parts_of place) places.old }
    ensures row { Paired IsPassAt places.new row.new.items }
    ensures room { vec_capacity row.new ≡ vec_capacity row.old }
    ensures places { Paired (Lends 1) places.old places.new }
{
    for place in places.iter_mut() {
        row.push_reserved(place.deque.lend());
    }
}

// Takes a pass of each deque back.
fn take_back<B: Work>(places: &mut [Place<B>], row: &mut Vec<Pass>)
    requires row { Paired IsPassAt places.old row.old.items }
    ensures row { row.new.items ≡ [] }
    ensures room { vec_capacity row.new ≡ vec_capacity row.old }
    ensures places { Paired (TakesBack 1) places.old places.new }
{
    while let Some(pass) = row.pop() {
        places[row.len()].deque.take_back(pass);
    }
}

// Lends each seat a pass of each deque.
fn open<B: Work>(places: &mut [Place<B>], passes: &mut [Vec<Pass>])
    requires room { All (λ row. (row.items ≡ []) × (length places.old ≤ vec_capacity row)) passes.old }
    requires parts { All (λ place. length passes.old < parts_of place) places.old }
    ensures passes { All (λ row. Paired IsPassAt places.new row.items × (length places.old ≤ vec_capacity row)) passes.new }
    ensures places { Paired (Lends (length passes.old)) places.old places.new }
{
    for row in passes.iter_mut() {
        lend(places, row);
    }
}

// Takes all passes back.
fn close<B: Work>(places: &mut [Place<B>], passes: &mut [Vec<Pass>])
    requires passes { All (λ row. Paired IsPassAt places.old row.items × (length places.old ≤ vec_capacity row)) passes.old }
    ensures room { All (λ row. (row.items ≡ []) × (length places.old ≤ vec_capacity row)) passes.new }
    ensures places { Paired (TakesBack (length passes.old)) places.old places.new }
{
    for row in passes.iter_mut() {
        take_back(places, row);
    }
}

// Empties the deques.
fn clear<B: Work>(places: &mut [Place<B>])
    requires parts { All (λ place. parts_of place ≡ every_part) places.old }
    ensures { Paired Empties places.old places.new }
{
    for place in places.iter_mut() {
        place.deque.clear();
    }
}

// Moves each seat to its place, with its passes.
fn sit<B: Work>(places: &mut [Place<B>], seats: &mut Vec<Seat<B>>, passes: &mut Vec<Vec<Pass>>)
    requires counts { (length seats.old.items ≡ length places.old) × (length passes.old.items ≡ length places.old) }
    ensures seats { (seats.new.items ≡ []) × (vec_capacity seats.new ≡ vec_capacity seats.old) }
    ensures passes { (passes.new.items ≡ []) × (vec_capacity passes.new ≡ vec_capacity passes.old) }
    ensures places { (k : ℕ) (place : Place B B.Value B.Memory) (seat : Seat B B.Value B.Memory) (row : Vec (Pass ℕ Tally Global)) → k < length places.old → slice_index_or places.new k place ≡ record (slice_index_or places.old k place) { thief = Some (thief_of (slice_index_or seats.old.items k seat) (slice_index_or passes.old.items k row)) } }
{
    while let Some(seat) = seats.pop() {
        let Some(row) = passes.pop() else {
            unreachable!()
        };
        places[seats.len()].thief = Some(Thief { seat, passes: row });
    }
}

// Moves the seats back in their order, and their passes.
fn rise<B: Work>(places: &mut [Place<B>], seats: &mut Vec<Seat<B>>, passes: &mut Vec<Vec<Pass>>)
    requires seated { All (λ place. IsSome place.thief) places.old }
    requires seats { (seats.old.items ≡ []) × (length places.old ≤ vec_capacity seats.old) }
    requires passes { (passes.old.items ≡ []) × (length places.old ≤ vec_capacity passes.old) }
    ensures seats { (length seats.new.items ≡ length places.old) × (vec_capacity seats.new ≡ vec_capacity seats.old) }
    ensures passes { (length passes.new.items ≡ length places.old) × (vec_capacity passes.new ≡ vec_capacity passes.old) }
    ensures places { (k : ℕ) (place : Place B B.Value B.Memory) (seat : Seat B B.Value B.Memory) (row : Vec (Pass ℕ Tally Global)) → k < length places.old → (slice_index_or places.old k place).thief ≡ Some (thief_of (slice_index_or seats.new.items k seat) (slice_index_or passes.new.items k row)) }
    ensures empty { (k : ℕ) (place : Place B B.Value B.Memory) → k < length places.old → slice_index_or places.new k place ≡ record (slice_index_or places.old k place) { thief = None } }
{
    for place in places.iter_mut() {
        let Some(Thief { seat, passes: row }) = place.thief.take() else {
            unreachable!()
        };
        seats.push_reserved(seat);
        passes.push_reserved(row);
    }
}

/// Moves each seat to its place, with a pass of each deque.
pub(crate) fn begin<B: Work>(
    places: &mut [Place<B>],
    seats: &mut Vec<Seat<B>>,
    passes: &mut Vec<Vec<Pass>>,
)
    requires few { length places.old ≤ 16 }
    requires counts { (length seats.old.items ≡ length places.old) × (length passes.old.items ≡ length places.old) }
    requires parts { All (λ place. parts_of place ≡ every_part) places.old }
    requires room { All (λ row. (row.items ≡ []) × (length places.old ≤ vec_capacity row)) passes.old.items }
    ensures seats { (seats.new.items ≡ []) × (vec_capacity seats.new ≡ vec_capacity seats.old) }
    ensures passes { (passes.new.items ≡ []) × (vec_capacity passes.new ≡ vec_capacity passes.old) }
    ensures places { (k : ℕ) (place : Place B B.Value B.Memory) (seat : Seat B B.Value B.Memory) → k < length places.old → TakesPlace places.new (slice_index_or seats.old.items k seat) (slice_index_or places.old k place) (slice_index_or places.new k place) }
{
    open(places, passes.as_mut_slice());
    sit(places, seats, passes);
}

/// Moves the seats back in their order, takes all passes back, and empties the deques.
pub(crate) fn end<B: Work>(
    places: &mut [Place<B>],
    seats: &mut Vec<Seat<B>>,
    passes: &mut Vec<Vec<Pass>>,
)
    requires places { All (λ place. MayLeave places.old place) places.old }
    requires seats { (seats.old.items ≡ []) × (length places.old ≤ vec_capacity seats.old) }
    requires passes { (passes.old.items ≡ []) × (length places.old ≤ vec_capacity passes.old) }
    ensures seats { (length seats.new.items ≡ length places.old) × (vec_capacity seats.new ≡ vec_capacity seats.old) }
    ensures order { (k : ℕ) (place : Place B B.Value B.Memory) (seat : Seat B B.Value B.Memory) → k < length places.old → IfSome (slice_index_or places.old k place).thief (λ thief. slice_index_or seats.new.items k seat ≡ thief.seat) }
    ensures passes { (length passes.new.items ≡ length places.old) × All (λ row. (row.items ≡ []) × (length places.old ≤ vec_capacity row)) passes.new.items }
    ensures places { Paired (λ old new. SameDeque old.deque new.deque × HasAll (tally_of new.deque) × IsEven (tally_of new.deque) × (new.thief ≡ None)) places.old places.new }
{
    rise(places, seats, passes);
    close(places, passes.as_mut_slice());
    clear(places);
}

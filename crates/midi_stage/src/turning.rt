//! How the stage turns to the plan of the next cycle.

ghost use Rattle.std.specs.Prelude.{◌≡◌, ◌≤◌, [], ℕ, List, Option, Some, length, true, false};
ghost use Rattle.std.specs.Vec.{vec_capacity};
ghost use Rattle.midi_wiring.specs.cycle_plan.specs.Plans.{Planned};
ghost use Rattle.midi_seats.specs.Owning.{AreKnown};
ghost use Rattle.midi_seats.specs.Seating.{SeatsAll, SeatsSome};
ghost use Rattle.midi_stage.specs.Insides.{Exchanges, GoesOnFrom, Stands, TurnsTo, kinds_in};

use crate::parts::Parts;
use crate::sounds::Sounds;
use midi_seats::laws::{a_plan_is_seated, owners_are_known};
use midi_seats::{Owned, seat_all};
use midi_wiring::cycle_plan::Plan;
use std::mem;

/// What was given becomes what was given in the last cycle. Feedback edges have it where the period is the same.
pub(crate) fn exchange(sounds: &mut Sounds, has_same_period: bool)
    ensures { Exchanges has_same_period sounds.old sounds.new }
{
    mem::swap(&mut sounds.gives, &mut sounds.gave);
    mem::swap(&mut sounds.outputs, &mut sounds.earlier);
    if !has_same_period {
        sounds.earlier.clear();
    }
}

/// Gives each MIDI client of a plan its bench. Answers whether each has one; where one can have none, nobody has a seat.
fn seat_plan(seats: &mut Vec<Option<usize>>, owners: &mut Vec<Owned>, plan: &Plan) -> bool
    requires { 64 ≤ vec_capacity seats.old }
    ensures all { result ≡ true → SeatsAll plan.now.nodes (length plan.now.nodes) seats.new.items owners.old.items owners.new.items }
    ensures some { result ≡ false → (seated : List (Option ℕ)) × SeatsSome plan.now.nodes seated owners.old.items owners.new.items }
    ensures none { result ≡ false → seats.new.items ≡ [] }
    ensures room { vec_capacity seats.new ≡ vec_capacity seats.old }
{
    let nodes = plan.nodes();
    match seat_all(seats, owners.as_mut_slice(), nodes) {
        Ok(()) => true,
        Err(_) => {
            seats.clear();
            false
        }
    }
}

/// Turns to another plan: wires its clients, and gives them their benches.
fn turn(parts: &mut Parts, plan: &Plan)
    requires room { 64 ≤ vec_capacity parts.old.sounds.seats }
    ensures { AreKnown plan.now.changes (kinds_in parts.old) parts.old.owners.items → TurnsTo plan.now parts.old parts.new }
{
    owners_are_known();
    a_plan_is_seated();
    let number = plan.number();
    parts.wiring.fill(plan);
    parts.is_staffed = seat_plan(&mut parts.sounds.seats, &mut parts.owners, plan);
    parts.number = Some(number);
}

/// Whether the last plan had this number.
fn has_number(parts: &Parts, number: u32) -> bool
    ensures { result ≡ true → parts.now.number ≡ Some number }
{
    match parts.number {
        Some(last) => last == number,
        None => false,
    }
}

/// Turns to the plan of the next cycle, where it is another than the last one.
pub(crate) fn turn_to(parts: &mut Parts, plan: &Plan)
    requires stands { (last : Planned) × Stands last parts.old × GoesOnFrom last plan.now }
    ensures { (last : Planned) → Stands last parts.old → GoesOnFrom last plan.now → TurnsTo plan.now parts.old parts.new }
{
    owners_are_known();
    if has_number(parts, plan.number()) {
        return;
    }
    turn(parts, plan);
}

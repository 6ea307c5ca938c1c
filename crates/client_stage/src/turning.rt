//! How a stage turns to the plan of the next cycle.

ghost use Rattle.std.specs.Prelude.{◌≡◌, ◌≢◌, ◌<◌, ◌≤◌, ◌+◌, ◌^◌, [], ℕ, None, false, length, map, slice_index_or, true};
ghost use Rattle.std.specs.Option.{ForSome};
ghost use Rattle.std.specs.Vec.{vec_capacity};
ghost use Rattle.std.specs.List.Sorted.{IsPermutation};
ghost use Rattle.port_registry.specs.Registered.{open_clients};
ghost use Rattle.cycle_plan.specs.Plans.{Planned};
ghost use Rattle.client_benches.specs.Seen.{MayPlay, cleared, moved_to};
ghost use Rattle.client_tasks.specs.Fillings.{last_place};
ghost use Rattle.client_wiring.specs.Keeping.{GoesOn};
ghost use Rattle.client_wiring.specs.Wirings.{wired_of};
ghost use Rattle.bench_rack.specs.Racks.{bench_at, moved};
ghost use Rattle.client_seats.specs.Moves.{kinds_of};
ghost use Rattle.client_seats.specs.Seatings.{HasNoPast, HavePeriod, IsIdle, IsRefused, IsSeating, standing_at};
ghost use Rattle.stage_laws.specs.Known.{SeatsPlan};
ghost use Rattle.stage_laws.specs.Casts.{Casts};
ghost use Rattle.client_stage.specs.Casting.{HasCast};
ghost use Rattle.client_stage.specs.Insides.{staged_by};
ghost use Rattle.client_stage.specs.Resting.{AreAtRest, Recalls};
ghost use Rattle.stage_laws.specs.Standing.{StandsBy, StandsOn};

use crate::casting::cast;
use crate::laws::a_cast_is_the_stages;
use crate::parts::Parts;
use client_kinds::Guest;
use client_tasks::{move_all, place_last, rest_all};
use cycle_plan::Plan;
use jack_types::Moment;
use stage_laws::owning::{a_seating_keeps_owners_known, kinds_alone_count, owners_stay_known};
use stage_laws::stages::a_stage_goes_on_with_its_plan;
use std::mem;
use task_laws::plans::links_are_few;

/// Casts the clients of another plan than the last one.
fn cast_anew<G: Guest>(parts: &mut Parts<G>, crew: usize, plan: &Plan, moment: &Moment, period: u32)
    requires places { 512 ≤ vec_capacity parts.old.last }
    requires seating { IsSeating parts.old.rack parts.old.owners }
    requires periods { HavePeriod parts.old.rack parts.old.room }
    requires period { period ≤ parts.old.room }
    requires crew { crew ≤ length parts.old.rack.benches }
    requires idle { (p : ℕ) → crew ≤ p → cleared (bench_at parts.old.rack p) ≡ bench_at parts.old.rack p }
    requires unfed { (p : ℕ) → (standing_at parts.old.rack p).memory.fed ≡ [] }
    requires past { HasNoPast (open_clients plan.now.nodes) parts.old.owners }
    requires links { length plan.now.nodes ≤ length parts.old.rack.benches → length plan.now.links ≤ parts.old.rack.links }
    requires rate { 8000 ≤ moment.now.rate }
    requires frames { moment.now.frame + period < 2 ^ 32 }
    ensures refused { parts.new.is_staffed ≡ false → IsIdle parts.new.rack × IsRefused (open_clients plan.now.nodes) parts.new.rack parts.new.owners }
    ensures cast { parts.new.is_staffed ≡ true → HasCast G.sound parts.old.rack parts.old.owners parts.new.rack parts.new.owners plan.now moment.now period }
    ensures seating { IsSeating parts.new.rack parts.new.owners }
    ensures recalls { parts.new.is_staffed ≡ false → Recalls G.sound plan.now parts.old.rack parts.old.owners parts.new.rack parts.new.owners }
    ensures seats { SeatsPlan plan.now parts.old.rack parts.old.owners parts.new.rack parts.new.owners }
    ensures kinds { IsPermutation (kinds_of parts.old.rack) (kinds_of parts.new.rack) }
    ensures periods { HavePeriod parts.new.rack parts.old.room }
    ensures unfed { (p : ℕ) → (standing_at parts.new.rack p).memory.fed ≡ [] }
    ensures scores { parts.new.owners.scores ≡ parts.old.owners.scores }
    ensures lengths { length parts.new.rack.benches ≡ length parts.old.rack.benches }
    ensures links { parts.new.rack.links ≡ parts.old.rack.links }
    ensures wiring { parts.new.wiring ≡ wired_of plan.now }
    ensures heard { length parts.new.wiring.heard ≤ 512 }
    ensures last { parts.new.last.items ≡ map (last_place parts.old.wiring.given) (wired_of plan.now).joints }
    ensures room { vec_capacity parts.new.last ≡ vec_capacity parts.old.last }
    ensures same { (parts.new.room ≡ parts.old.room) × (parts.new.period ≡ parts.old.period) × (parts.new.number ≡ parts.old.number) }
{
    mem::swap(&mut parts.wiring, &mut parts.earlier);
    parts.wiring.fill(plan);
    // There is a joint for a connection at most, of which there are no more than room.
    let edges = plan.edges();
    place_last(
        &mut parts.last,
        parts.wiring.joints(),
        parts.earlier.given(),
    );
    parts.is_staffed = cast(
        &mut parts.rack,
        &mut parts.owners,
        crew,
        plan,
        &parts.wiring,
        moment,
        period,
    );
}

/// Tells the clients of the last plan the moment and the period of its next cycle.
fn go_on<G: Guest>(parts: &mut Parts<G>, count: usize, moment: &Moment, period: u32)
    requires places { length parts.old.wiring.joints ≤ vec_capacity parts.old.last }
    requires count { count ≤ length parts.old.rack.benches }
    requires turns { (n : ℕ) → n < count → ForSome (bench_at parts.old.rack n).kept.turn (λ turn. MayPlay (bench_at parts.old.rack n).kept.standing (moved_to moment.now period turn)) }
    ensures told { (n : ℕ) → n < count → bench_at parts.new.rack n ≡ moved moment.now period (bench_at parts.old.rack n) }
    ensures others { (n : ℕ) → count ≤ n → bench_at parts.new.rack n ≡ bench_at parts.old.rack n }
    ensures lengths { length parts.new.rack.benches ≡ length parts.old.rack.benches }
    ensures links { parts.new.rack.links ≡ parts.old.rack.links }
    ensures last { parts.new.last.items ≡ map (last_place parts.old.wiring.given) parts.old.wiring.joints }
    ensures room { vec_capacity parts.new.last ≡ vec_capacity parts.old.last }
    ensures same { parts.new ≡ record parts.old { rack = parts.new.rack; last = parts.new.last } }
{
    place_last(&mut parts.last, parts.wiring.joints(), parts.wiring.given());
    move_all(&mut parts.rack, count, moment, period);
}

/// Where the plan of the next cycle is another than the last one, its clients are cast anew.
fn recast<G: Guest>(parts: &mut Parts<G>, crew: usize, plan: &Plan, moment: &Moment, period: u32)
    requires places { 512 ≤ vec_capacity parts.old.last }
    requires period { period ≤ parts.old.room }
    requires rate { 8000 ≤ moment.now.rate }
    requires frames { moment.now.frame + period < 2 ^ 32 }
    requires stands { (last : Planned) × StandsOn (staged_by parts.old crew last.nodes) last × GoesOn last plan.now × (parts.old.number ≡ length last.changes) }
    ensures stands { (last : Planned) → StandsOn (staged_by parts.old crew last.nodes) last → GoesOn last plan.now → parts.old.number ≡ length last.changes → StandsBy (staged_by parts.new crew plan.now.nodes) plan.now }
    ensures cast { (last : Planned) → StandsOn (staged_by parts.old crew last.nodes) last → GoesOn last plan.now → parts.old.number ≡ length last.changes → parts.new.is_staffed ≡ true
        → Casts G.sound (staged_by parts.old crew last.nodes) last plan.now moment.now period (staged_by parts.new crew plan.now.nodes) }
    ensures recalls { parts.new.is_staffed ≡ false → Recalls G.sound plan.now parts.old.rack parts.old.owners parts.new.rack parts.new.owners }
    ensures kinds { IsPermutation (kinds_of parts.old.rack) (kinds_of parts.new.rack) }
    ensures scores { parts.new.owners.scores ≡ parts.old.owners.scores }
    ensures heard { length parts.old.wiring.heard ≤ 512 → length parts.new.wiring.heard ≤ 512 }
    ensures room { vec_capacity parts.new.last ≡ vec_capacity parts.old.last }
    ensures same { (parts.new.room ≡ parts.old.room) × (parts.new.period ≡ parts.old.period) × (parts.new.number ≡ parts.old.number) }
{
    a_cast_is_the_stages();
    a_stage_goes_on_with_its_plan();
    owners_stay_known();
    a_seating_keeps_owners_known();
    kinds_alone_count();
    links_are_few();
    // There is a link for a connection at most, of which there are no more than room.
    let edges = plan.edges();
    if plan.number() != parts.number {
        cast_anew(parts, crew, plan, moment, period);
    } else if parts.is_staffed {
        go_on(parts, plan.nodes().len(), moment, period);
    }
}

/// Turns to the plan of the next cycle: where it is another than the last one, its clients are cast anew. Where one of them
/// has no bench, nobody plays: all benches rest.
pub(crate) fn turn_to<G: Guest>(
    parts: &mut Parts<G>,
    crew: usize,
    plan: &Plan,
    moment: &Moment,
    period: u32,
)
    requires places { 512 ≤ vec_capacity parts.old.last }
    requires period { period ≤ parts.old.room }
    requires rate { 8000 ≤ moment.now.rate }
    requires frames { moment.now.frame + period < 2 ^ 32 }
    requires stands { (last : Planned) × StandsOn (staged_by parts.old crew last.nodes) last × GoesOn last plan.now × (parts.old.number ≡ length last.changes) }
    ensures stands { (last : Planned) → StandsOn (staged_by parts.old crew last.nodes) last → GoesOn last plan.now → parts.old.number ≡ length last.changes → StandsBy (staged_by parts.new crew plan.now.nodes) plan.now }
    ensures cast { (last : Planned) → StandsOn (staged_by parts.old crew last.nodes) last → GoesOn last plan.now → parts.old.number ≡ length last.changes → parts.new.is_staffed ≡ true
        → Casts G.sound (staged_by parts.old crew last.nodes) last plan.now moment.now period (staged_by parts.new crew plan.now.nodes) }
    ensures rest { parts.new.is_staffed ≡ false → AreAtRest parts.new.rack }
    ensures recalls { parts.new.is_staffed ≡ false → Recalls G.sound plan.now parts.old.rack parts.old.owners parts.new.rack parts.new.owners }
    ensures kinds { IsPermutation (kinds_of parts.old.rack) (kinds_of parts.new.rack) }
    ensures scores { parts.new.owners.scores ≡ parts.old.owners.scores }
    ensures heard { length parts.old.wiring.heard ≤ 512 → length parts.new.wiring.heard ≤ 512 }
    ensures room { vec_capacity parts.new.last ≡ vec_capacity parts.old.last }
    ensures same { (parts.new.room ≡ parts.old.room) × (parts.new.period ≡ parts.old.period) × (parts.new.number ≡ parts.old.number) }
{
    kinds_alone_count();
    recast(parts, crew, plan, moment, period);
    if !parts.is_staffed {
        rest_all(&mut parts.rack);
    }
}

/// Forgets where kept outputs stood.
fn forget(last: &mut Vec<Option<usize>>)
    ensures none { (i : ℕ) → slice_index_or last.new.items i None ≡ None }
    ensures length { length last.new.items ≡ length last.old.items }
    ensures room { vec_capacity last.new ≡ vec_capacity last.old }
{
    for place in 0..last.len() {
        last[place] = None;
    }
}

/// Sets the period of the next cycle. Where it is another than the last one's, no kept output counts.
pub(crate) fn set_period<G: Guest>(parts: &mut Parts<G>, period: u32)
    ensures same { parts.old.period ≡ period → parts.new.last ≡ parts.old.last }
    ensures other { parts.old.period ≢ period → (i : ℕ) → slice_index_or parts.new.last.items i None ≡ None }
    ensures length { length parts.new.last.items ≡ length parts.old.last.items }
    ensures room { vec_capacity parts.new.last ≡ vec_capacity parts.old.last }
    ensures rest { parts.new ≡ record parts.old { last = parts.new.last; period = period } }
{
    if parts.period != period {
        forget(&mut parts.last);
    }
    parts.period = period;
}

//! How the clients of a plan get their benches, and what they do is set.

ghost use Rattle.std.specs.Prelude.{◌≡◌, ◌<◌, ◌≤◌, ◌+◌, ◌^◌, ℕ, [], IsFalse, IsTrue, Some, length};
ghost use Rattle.std.specs.List.Sorted.{IsPermutation};
ghost use Rattle.session_model.specs.Kinds.{Memory as MemoryValue};
ghost use Rattle.port_registry.specs.Registered.{open_clients};
ghost use Rattle.client_benches.specs.Seen.{cleared};
ghost use Rattle.client_wiring.specs.Wirings.{wired_of};
ghost use Rattle.bench_rack.specs.Racks.{bench_at};
ghost use Rattle.client_seats.specs.Moves.{kinds_of};
ghost use Rattle.client_seats.specs.Seatings.{HasNoPast, HavePeriod, IsIdle, IsRefused, IsSeating, memory_of, standing_at};
ghost use Rattle.stage_laws.specs.Known.{SeatsPlan};
ghost use Rattle.client_stage.specs.Casting.{HasCast};
ghost use Rattle.client_stage.specs.Resting.{Recalls};

use bench_rack::Rack;
use client_kinds::Guest;
use client_seats::{Owners, seat};
use client_tasks::{clear_all, set_tasks};
use client_wiring::Wiring;
use cycle_plan::Plan;
use jack_types::Moment;

/// Gives each client of a plan its bench, at its node's place, and sets what it does in the next cycle. The first `count`
/// benches played last. Answers whether each client has a bench; where one can have none, all benches are idle, and whoever
/// had a memory has it yet.
pub fn cast<G: Guest>(
    rack: &mut Rack<G>,
    owners: &mut Owners<G>,
    count: usize,
    plan: &Plan,
    wiring: &Wiring,
    moment: &Moment,
    period: u32,
) -> bool
    requires seating { IsSeating rack.old owners.old }
    requires periods { (room : ℕ) × HavePeriod rack.old room × (period ≤ room) }
    requires wired { wiring.now ≡ wired_of plan.now }
    requires count { count ≤ length rack.old.benches }
    requires idle { (p : ℕ) → count ≤ p → cleared (bench_at rack.old p) ≡ bench_at rack.old p }
    requires unfed { (p : ℕ) → (standing_at rack.old p).memory.fed ≡ [] }
    requires past { HasNoPast (open_clients plan.now.nodes) owners.old }
    requires links { length plan.now.nodes ≤ length rack.old.benches → length plan.now.links ≤ rack.old.links }
    requires rate { 8000 ≤ moment.now.rate }
    requires frames { moment.now.frame + period < 2 ^ 32 }
    ensures refused { IsFalse result → IsIdle rack.new × IsRefused (open_clients plan.now.nodes) rack.new owners.new }
    ensures cast { IsTrue result → HasCast G.sound rack.old owners.old rack.new owners.new plan.now moment.now period }
    ensures seating { IsSeating rack.new owners.new }
    ensures seats { SeatsPlan plan.now rack.old owners.old rack.new owners.new }
    ensures kinds { IsPermutation (kinds_of rack.old) (kinds_of rack.new) }
    ensures periods { (room : ℕ) → HavePeriod rack.old room → HavePeriod rack.new room }
    ensures unfed { (p : ℕ) → (standing_at rack.new p).memory.fed ≡ [] }
    ensures kept { (birth : ℕ) (memory : MemoryValue) → memory_of rack.old owners.old birth ≡ Some memory → memory_of rack.new owners.new birth ≡ Some memory }
    ensures recalls { IsFalse result → Recalls G.sound plan.now rack.old owners.old rack.new owners.new }
    ensures scores { owners.new.scores ≡ owners.old.scores }
    ensures lengths { length rack.new.benches ≡ length rack.old.benches }
    ensures links { rack.new.links ≡ rack.old.links }
{
    clear_all(rack, count);
    let nodes = plan.nodes();
    if !seat(rack, owners, nodes) {
        return false;
    }
    set_tasks(rack, plan, wiring, moment, period);
    true
}

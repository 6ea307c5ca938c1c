//! What the clients of a plan do.

ghost use Rattle.std.specs.Prelude.{◌≡◌, ◌≤◌, ◌<◌, ◌+◌, ◌^◌, ℕ, All, [], length};
ghost use Rattle.bench_rack.specs.client_kinds.specs.Standings.{HasGuest};
ghost use Rattle.client_wiring.specs.Wirings.{wired_of};
ghost use Rattle.bench_rack.specs.Racks.{bench_at};
ghost use Rattle.client_tasks.specs.Fillings.{AreJoints};
ghost use Rattle.client_tasks.specs.Tasks.{AreSet, HasRooms, IsIdle};

use crate::carrying::{carry_all, link_all};
use crate::hearing::hear_all;
use crate::turns::begin_all;
use bench_rack::Rack;
use bench_rack::client_kinds::Guest;
use client_wiring::Wiring;
use client_wiring::cycle_plan::Plan;
use jack_types::Moment;

/// Sets what the clients of a plan do in the next cycle: a bench a node, from the first on. All benches are idle, and
/// the guests are there. What was not handed over brings nothing yet.
pub fn set_tasks<G: Guest>(
    rack: &mut Rack<G>,
    plan: &Plan,
    wiring: &Wiring,
    moment: &Moment,
    period: u32,
)
    requires wired { wiring.now ≡ wired_of plan.now }
    requires idle { All IsIdle rack.old.benches }
    requires places { length plan.now.nodes ≤ length rack.old.benches }
    requires links { length plan.now.links ≤ rack.old.links }
    requires guests { (n : ℕ) → n < length plan.now.nodes → HasGuest (bench_at rack.old n).kept.standing.kind (bench_at rack.old n).kept.standing.score }
    requires rate { 8000 ≤ moment.now.rate }
    requires frames { moment.now.frame + period < 2 ^ 32 }
    requires period { (n : ℕ) → n < length plan.now.nodes → period ≤ (bench_at rack.old n).kept.standing.period }
    ensures set { AreSet wiring.now plan.now.links moment.now period (λ i. []) (length plan.now.nodes) rack.new }
    ensures rooms { HasRooms plan.now.links rack.new }
    ensures joints { AreJoints (length plan.now.nodes) wiring.now.joints }
    ensures standings { (p : ℕ) → (bench_at rack.new p).kept.standing ≡ (bench_at rack.old p).kept.standing }
    ensures sounds { (p : ℕ) → (bench_at rack.new p).kept.sounds ≡ (bench_at rack.old p).kept.sounds }
    ensures audio { (p : ℕ) → (bench_at rack.new p).kept.audio ≡ (bench_at rack.old p).kept.audio }
    ensures others { (p : ℕ) → length plan.now.nodes ≤ p → bench_at rack.new p ≡ bench_at rack.old p }
    ensures lengths { length rack.new.benches ≡ length rack.old.benches }
    ensures links { rack.new.links ≡ rack.old.links }
{
    let links = plan.links();
    // Wires and routes are of edges, of which there are no more than room.
    let edges = plan.edges();
    begin_all(rack, wiring, links, moment, period);
    hear_all(rack, wiring.joints());
    carry_all(rack, wiring.carried());
    link_all(rack, links);
}

//! A cycle's performance: what is known before the clients play is filled in, the players of disks are fed, and the crew
//! plays.

ghost use Rattle.std.specs.Prelude.{◌≡◌, ◌<◌, ◌≤◌, ◌+◌, ◌*◌, [], ℕ, List, None, ℤ, length};
ghost use Rattle.jack_types.specs.declared.moments.Moment.{Moment as MomentValue};
ghost use Rattle.session_model.specs.Samples.{silence as silent};
ghost use Rattle.client_wiring.specs.Wirings.{wired_of};
ghost use Rattle.bench_rack.specs.Racks.{Racked, bench_at};
ghost use Rattle.client_tasks.specs.Fillings.{AreJoints};
ghost use Rattle.client_tasks.specs.Tasks.{AreSet, HasRooms};
ghost use Rattle.client_seats.specs.Seatings.{standing_at};
ghost use Rattle.stage_feeds.specs.Feeding.{Feeds};
ghost use Rattle.stage_laws.specs.Casts.{Fills, Performs};
ghost use Rattle.stage_laws.specs.Stages.{Staged};

use bench_crew::{Ensemble, Load};
use bench_rack::Rack;
use client_kinds::Guest;
use client_tasks::fill_wires;
use client_wiring::Wiring;
use cycle_plan::Plan;
use device_periods::Capture;
use disk_feeds::DiskFeeds;
use jack_host::{Gate, Source};
use stage_feeds::feed_all;
use std::thread::Threads;

/// What a cycle of so many frames has to play. What its guests have beyond other clients, the crew adds.
fn load_of(plan: &Plan, frames: usize) -> Load
    requires frames { frames ≤ 4096 }
    ensures clients { result.clients ≡ length plan.now.nodes }
    ensures work { result.work ≡ (length plan.now.nodes + length plan.now.network.set.edges) * frames }
    ensures few { length plan.now.network.set.edges ≤ 512 }
{
    let clients = plan.nodes().len();
    let connections = plan.edges().len();
    Load {
        clients: clients as u32,
        work: ((clients + connections) * frames) as u64,
    }
}

/// Plays a cycle of a plan whose clients have their benches, set for it: fills the wires of what is captured and of what
/// kept outputs gave at these places in the cycle before, gives each player its disk's block, and lets the crew play.
///
/// It takes no memory. `silence` is a period of it.
pub fn perform<G: Guest + Send, S: Source, T: Threads + Sync, K: Gate>(
    threads: &T,
    gate: &K,
    rack: &mut Rack<G>,
    ensemble: &mut Ensemble<G>,
    plan: &Plan,
    wiring: &Wiring,
    places: &[Option<usize>],
    capture: &Capture<S>,
    silence: &[i32],
    disks: &DiskFeeds,
)
    requires wired { wiring.now ≡ wired_of plan.now }
    requires few { length plan.now.nodes ≤ ensemble.old.nodes }
    requires crew { ensemble.old.nodes ≤ length rack.old.benches }
    requires joints { AreJoints (length plan.now.nodes) wiring.now.joints }
    requires places { length places.now ≡ length wiring.now.joints }
    requires silence { length silence.now ≤ 4096 }
    requires set { (moment : MomentValue) × (period : ℕ) × (sources : ℕ → List ℤ) × AreSet (wired_of plan.now) plan.now.links moment period sources (length plan.now.nodes) rack.old }
    requires rooms { HasRooms plan.now.links rack.old }
    requires unfed { (p : ℕ) → (standing_at rack.old p).memory.fed ≡ [] }
    requires periods { 0 < length disks.now.disks → (p : ℕ) → p < length rack.old.benches → (standing_at rack.old p).period ≡ disks.now.period }
    ensures crew { ensemble.new ≡ ensemble.old }
    ensures performed { (cast : Staged) (moment : MomentValue) (period : ℕ) (sources : ℕ → List ℤ) → cast.racked ≡ rack.old → silence.now ≡ silent period
        → AreSet (wired_of plan.now) plan.now.links moment period sources (length plan.now.nodes) rack.old → ((p : ℕ) → length plan.now.nodes ≤ p → (bench_at rack.old p).kept.turn ≡ None)
        → (filled : Racked) × (fed : Racked) × Fills cast plan.now moment period capture.now.channels places.now filled × Feeds plan.now disks.now filled fed × Performs G.sound fed plan.now ensemble.old.nodes rack.new }
    ensures others { (p : ℕ) → ensemble.old.nodes ≤ p → (bench_at rack.old p).kept.wires ≡ [] → bench_at rack.new p ≡ bench_at rack.old p }
    ensures rooms { HasRooms plan.now.links rack.new }
    ensures links { rack.new.links ≡ rack.old.links }
{
    let links = plan.links();
    let load = load_of(plan, silence.len());
    fill_wires(rack, wiring.joints(), places, capture, silence);
    feed_all(rack, plan.nodes().len(), disks);
    rack.play(threads, gate, ensemble, links, load);
}

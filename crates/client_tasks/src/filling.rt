//! What is known before the clients play.

ghost use Rattle.std.specs.Prelude.{◌≡◌, ◌≤◌, ◌<◌, ℕ, List, ℤ, length};
ghost use Rattle.jack_types.specs.declared.moments.Moment.{Moment as MomentValue};
ghost use Rattle.jack_types.specs.declared.ports.Link.{Link as LinkValue};
ghost use Rattle.client_wiring.specs.Wirings.{Wired};
ghost use Rattle.bench_rack.specs.Racks.{bench_at, filled, with_bench};
ghost use Rattle.client_tasks.specs.Fillings.{AreJoints, KeepsFrom, kept_at, known_at, known_by, with_wires};
ghost use Rattle.client_tasks.specs.Steps.{with_samples_of};
ghost use Rattle.client_tasks.specs.Tasks.{AreSet, joint_at, wires_of};

use bench_rack::Rack;
use bench_rack::client_kinds::Guest;
use client_wiring::{Joint, Origin};
use device_periods::Capture;
use jack_host::Source;

/// The greatest number of nodes.
const MOST_NODES: usize = 64;

/// Puts what an output gave when its bench was last played into the room of a wire, if that has one; silence where no
/// place is told.
fn fill_kept<G: Guest>(
    rack: &mut Rack<G>,
    node: usize,
    wire: usize,
    from: usize,
    last: Option<usize>,
    silence: &[i32],
)
    requires node { node < length rack.old.benches }
    requires from { from < length rack.old.benches }
    requires wire { wire < length (bench_at rack.old node).kept.wires }
    requires silence { length silence.now ≤ 4096 }
    ensures { rack.new ≡ with_bench rack.old node (filled wire (kept_at (bench_at rack.old from).kept.audio silence.now last) (bench_at rack.old node)) }
{
    match last {
        Some(place) => rack.fill_back(node, wire, from, place),
        None => rack.fill(node, wire, silence),
    }
}

/// Puts what a connection brings into the room of its wire, if that has one. The wire is of this place among those of
/// its node.
fn fill_wire<G: Guest, S: Source>(
    rack: &mut Rack<G>,
    joint: Joint,
    wire: usize,
    last: Option<usize>,
    capture: &Capture<S>,
    silence: &[i32],
)
    requires node { joint.node < length rack.old.benches }
    requires from { KeepsFrom (length rack.old.benches) joint.origin }
    requires wire { wire < length (bench_at rack.old joint.node).kept.wires }
    requires silence { length silence.now ≤ 4096 }
    ensures { rack.new ≡ with_samples_of rack.old joint.node wire (known_by rack.old capture.now.channels silence.now last joint.origin) joint.origin }
{
    match joint.origin {
        Origin::Handed { .. } => {}
        Origin::Kept { node, .. } => fill_kept(rack, joint.node, wire, node, last, silence),
        Origin::Captured { channel } => rack.fill(joint.node, wire, capture.channel(channel)),
    }
}

/// Fills the wires whose audio is known before the clients play: with captured channels, and with what outputs gave
/// when their benches were last played, at the places that `last` says; silence where it says none. What is handed over
/// comes over its link.
pub fn fill_wires<G: Guest, S: Source>(
    rack: &mut Rack<G>,
    joints: &[Joint],
    last: &[Option<usize>],
    capture: &Capture<S>,
    silence: &[i32],
)
    requires joints { (nodes : ℕ) × AreJoints nodes joints.now × (nodes ≤ length rack.old.benches) }
    requires last { length last.now ≡ length joints.now }
    requires silence { length silence.now ≤ 4096 }
    requires set { (i : ℕ) → i < length joints.now → (sources : (ℕ → List ℤ)) × ((bench_at rack.old (joint_at joints.now i).node).kept.wires ≡ wires_of sources joints.now (joint_at joints.now i).node) }
    ensures wires { (sources : ℕ → List ℤ) (n : ℕ) → (bench_at rack.old n).kept.wires ≡ wires_of sources joints.now n → (bench_at rack.new n).kept.wires ≡ wires_of (known_at rack.old capture.now.channels silence.now last.now joints.now) joints.now n }
    ensures set { (wiring : Wired) (links : List LinkValue) (moment : MomentValue) (period : ℕ) (sources : ℕ → List ℤ) (nodes : ℕ) → wiring.joints ≡ joints.now → AreSet wiring links moment period sources nodes rack.old → AreSet wiring links moment period (known_at rack.old capture.now.channels silence.now last.now joints.now) nodes rack.new }
    ensures others { (p : ℕ) → bench_at rack.new p ≡ with_wires (bench_at rack.new p).kept.wires (bench_at rack.old p) }
    ensures lengths { length rack.new.benches ≡ length rack.old.benches }
    ensures links { rack.new.links ≡ rack.old.links }
{
    let mut counts = [0; MOST_NODES];
    for place in 0..joints.len() {
        let joint = joints[place];
        let wire = counts[joint.node];
        fill_wire(rack, joint, wire, last[place], capture, silence);
        counts[joint.node] = wire + 1;
    }
}

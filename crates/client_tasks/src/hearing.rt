//! Which connections the clients hear.

ghost use Rattle.std.specs.Prelude.{◌≡◌, ◌≤◌, ◌<◌, ◌==◌, ℕ, All, None, [], filter, length, position};
ghost use Rattle.client_wiring.specs.declared.joints.Joint.{Joint as JointValue};
ghost use Rattle.client_wiring.specs.declared.joints.Origin.TheVariants.{Captured};
ghost use Rattle.bench_rack.specs.Racks.{bench_at, wire_total, with_bench};
ghost use Rattle.client_tasks.specs.Fillings.{with_wires};
ghost use Rattle.client_tasks.specs.Steps.{IsSmall, heard};
ghost use Rattle.client_tasks.specs.Tasks.{first_like, is_same_channel, wires_of};

use bench_rack::Rack;
use bench_rack::client_kinds::Guest;
use client_wiring::{Joint, Origin};

/// Whether a connection brings this captured channel.
fn brings(joint: &Joint, channel: usize) -> bool
    ensures { result ≡ is_same_channel joint.now.origin (Captured channel) }
{
    match joint.origin {
        Origin::Captured { channel: brought } => brought == channel,
        _ => false,
    }
}

/// The place, among the wires of a node, of the first of these connections that brings this captured channel to
/// it, if one does.
fn first_of(joints: &[Joint], node: usize, channel: usize) -> Option<u32>
    requires { length joints.now ≤ 512 }
    ensures { result ≡ position (λ (other : JointValue). is_same_channel other.origin (Captured channel)) (filter (λ (other : JointValue). other.node == node) joints.now) }
{
    let mut wire = 0;
    for joint in joints {
        if joint.node == node {
            if brings(joint, channel) {
                return Some(wire);
            }
            wire += 1;
        }
    }
    None
}

/// Where the node of a connection has the same captured channel from already, if these connections are before it.
fn first_like(joints: &[Joint], joint: &Joint) -> Option<u32>
    requires { length joints.now ≤ 512 }
    ensures { result ≡ first_like joints.now joint.now }
{
    match joint.origin {
        Origin::Captured { channel } => first_of(joints, joint.node, channel),
        _ => None,
    }
}

/// Adds the wire of a connection with its own source. Where it is not handed over, it brings nothing yet.
fn hear_own<G: Guest>(rack: &mut Rack<G>, joint: Joint)
    requires node { joint.node < length rack.old.benches }
    requires small { IsSmall joint }
    requires few { length (bench_at rack.old joint.node).kept.wires < 512 }
    requires room { wire_total rack.old < 512 }
    ensures { rack.new ≡ with_bench rack.old joint.node (heard None joint (bench_at rack.old joint.node)) }
{
    match joint.origin {
        Origin::Handed { link, connection } => rack.hear_carried(
            joint.node,
            joint.input as u16,
            link as u32,
            connection as u32,
        ),
        Origin::Kept { .. } => rack.hear_kept(joint.node, joint.input as u16),
        Origin::Captured { .. } => rack.hear_kept(joint.node, joint.input as u16),
    }
}

/// Adds the wire of a connection behind those of the connections before. A captured channel that another wire of
/// the node brings is not brought twice.
fn hear<G: Guest>(rack: &mut Rack<G>, before: &[Joint], joint: Joint)
    requires before { length before.now ≤ 512 }
    requires node { joint.node < length rack.old.benches }
    requires small { IsSmall joint }
    requires few { length (bench_at rack.old joint.node).kept.wires < 512 }
    requires room { wire_total rack.old < 512 }
    ensures { rack.new ≡ with_bench rack.old joint.node (heard (first_like before.now joint) joint (bench_at rack.old joint.node)) }
{
    match first_like(before, &joint) {
        Some(wire) => rack.hear_like(joint.node, joint.input as u16, wire),
        None => hear_own(rack, joint),
    }
}

/// Adds the wires of all connections, in the order of making, to benches that have none.
pub(crate) fn hear_all<G: Guest>(rack: &mut Rack<G>, joints: &[Joint])
    requires nodes { All (λ (joint : JointValue). joint.node < length rack.old.benches) joints.now }
    requires small { All IsSmall joints.now }
    requires few { length joints.now ≤ 512 }
    requires none { (p : ℕ) → (bench_at rack.old p).kept.wires ≡ [] }
    ensures wires { (p : ℕ) → bench_at rack.new p ≡ with_wires (wires_of (λ i. []) joints.now p) (bench_at rack.old p) }
    ensures lengths { length rack.new.benches ≡ length rack.old.benches }
    ensures links { rack.new.links ≡ rack.old.links }
{
    for place in 0..joints.len() {
        hear(rack, &joints[..place], joints[place]);
    }
}

//! Where connections bring their events.

ghost use Rattle.std.specs.Prelude.{◌≡◌, ◌≤◌};
ghost use Rattle.std.specs.Vec.{vec_capacity};
ghost use Rattle.midi_wiring.specs.Ends.{from_by, joint_from};
ghost use Rattle.midi_wiring.specs.Wirings.{midi_wired_of};

use crate::adding::put_some;
use crate::ends::place_of;
use crate::joints::{MidiFrom, MidiJoint};
use crate::ports::{count_midi, index_ports, place_at};
use client_wiring::cycle_plan::Plan;
use jack_types::{Client, Mark, Port, PortKind, Way};

/// Where an edge from a port has its events from.
fn from_of(nodes: &[Client], source: &Port, mark: Mark) -> MidiFrom
    ensures { result ≡ from_by nodes.now source.now mark }
{
    match (place_of(nodes, source.node), mark) {
        (Some(node), Mark::Direct) => MidiFrom::Played(node),
        (Some(_), Mark::Feedback) => MidiFrom::Kept(source.birth),
        (None, _) => MidiFrom::Nothing,
    }
}

/// The connection into a MIDI input of a node that an edge is, if it is one. `before` are the ports before its destination.
fn joint_of(
    nodes: &[Client],
    before: &[Port],
    source: &Port,
    destination: &Port,
    mark: Mark,
) -> Option<MidiJoint>
    ensures { result ≡ joint_from nodes.now before.now source.now destination.now mark }
{
    match (destination.kind, place_of(nodes, destination.node)) {
        (PortKind::Midi, Some(node)) => Some(MidiJoint {
            node,
            input: count_midi(before, destination.node, Way::In),
            from: from_of(nodes, source, mark),
        }),
        _ => None,
    }
}

/// Makes anew where connections bring their events.
pub(crate) fn join_edges(joints: &mut Vec<MidiJoint>, plan: &Plan)
    requires { 512 ≤ vec_capacity joints.old }
    ensures joints { joints.new.items ≡ (midi_wired_of plan.now).joints }
    ensures room { vec_capacity joints.old ≤ vec_capacity joints.new }
{
    joints.clear();
    let (ports, nodes) = (plan.ports(), plan.nodes());
    let indices = index_ports(ports);
    for edge in plan.edges() {
        let source = place_at(ports, &indices, edge.source);
        let destination = place_at(ports, &indices, edge.destination);
        let joint = joint_of(
            nodes,
            &ports[..destination],
            &ports[source],
            &ports[destination],
            edge.mark,
        );
        put_some(joints, joint);
    }
}

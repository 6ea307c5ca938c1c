//! The MIDI outputs of nodes.

ghost use Rattle.std.specs.Prelude.{◌≡◌, ◌≤◌, length};
ghost use Rattle.std.specs.Vec.{vec_capacity};
ghost use Rattle.midi_wiring.specs.Ends.{given_from};
ghost use Rattle.midi_wiring.specs.Wirings.{midi_wired_of};

use crate::adding::put_some;
use crate::ends::place_of;
use crate::joints::MidiGiven;
use crate::ports::way_of;
use client_wiring::cycle_plan::Plan;
use jack_types::{Client, Port, PortKind, Way};

/// The MIDI output of a node that a port is, if it is one.
fn given_of(nodes: &[Client], port: &Port) -> Option<MidiGiven>
    ensures { result ≡ given_from nodes.now port.now }
{
    match (port.kind, way_of(port), place_of(nodes, port.node)) {
        (PortKind::Midi, Way::Out, Some(node)) => Some(MidiGiven {
            birth: port.birth,
            node,
        }),
        _ => None,
    }
}

/// Makes the MIDI outputs of the nodes anew.
pub(crate) fn give_outputs(given: &mut Vec<MidiGiven>, plan: &Plan)
    requires { 2064 ≤ vec_capacity given.old }
    ensures given { given.new.items ≡ (midi_wired_of plan.now).given }
    ensures few { length given.new.items ≤ 2064 }
    ensures room { vec_capacity given.old ≤ vec_capacity given.new }
{
    given.clear();
    let (ports, nodes) = (plan.ports(), plan.nodes());
    for port in ports {
        let output = given_of(nodes, port);
        put_some(given, output);
    }
}

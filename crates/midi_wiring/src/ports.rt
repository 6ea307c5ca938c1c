//! The ports of a plan, by their ids and by their nodes.

ghost use Rattle.std.specs.Prelude.{◌≡◌, ◌≤◌, ◌<◌, All, count_by, length};
ghost use Rattle.jack_types.specs.declared.ports.Port.{Port as PortRecord};
ghost use Rattle.session_model.specs.Ids.{same_id_node, way_of as way_in};
ghost use Rattle.session_model.specs.Soundness.{Apart};
ghost use Rattle.connection_set.specs.Connections.{IsIdOf};
ghost use Rattle.client_wiring.specs.Tables.{AreIndices};
ghost use Rattle.midi_wiring.specs.Ends.{IsPortAt, is_midi_by, is_midi_of};

use bitflags::Flags;
use feedback_edges::MOST_PORTS;
use jack_types::{Node, Port, PortId, PortKind, Way};

/// At each id, where its port stands among the ports.
pub(crate) fn index_ports(ports: &[Port]) -> [usize; MOST_PORTS]
    requires ids { All (λ (port : PortRecord). port.id.0 < 2064) ports.now }
    requires apart { Apart (λ (port : PortRecord). port.id.0) ports.now }
    ensures { AreIndices ports.now result }
{
    let mut indices = [0; MOST_PORTS];
    for (index, port) in ports.iter().enumerate() {
        indices[port.id.0 as usize] = index;
    }
    indices
}

/// Where the port of an id stands.
pub(crate) fn place_at(ports: &[Port], indices: &[usize; MOST_PORTS], id: PortId) -> usize
    requires ids { All (λ (port : PortRecord). port.id.0 < 2064) ports.now }
    requires indices { AreIndices ports.now indices.now }
    requires listed { IsIdOf ports.now id }
    ensures { IsPortAt ports.now id result }
{
    indices[id.0 as usize]
}

/// The way of a port.
pub(crate) fn way_of(port: &Port) -> Way
    ensures { result ≡ way_in port.now }
{
    if port.flags.bits() & 1 == 1 {
        Way::In
    } else {
        Way::Out
    }
}

/// Whether two nodes are one.
fn is_same_node(a: Node, b: Node) -> bool
    ensures { result ≡ same_id_node a b }
{
    match (a, b) {
        (Node::Capture, Node::Capture) => true,
        (Node::Playback, Node::Playback) => true,
        (Node::Client(a), Node::Client(b)) => a.0 == b.0,
        _ => false,
    }
}

/// Whether a port is a MIDI port of this way.
fn is_midi(way: Way, port: &Port) -> bool
    ensures { result ≡ is_midi_by way port.now.kind (way_in port.now) }
{
    match (way, port.kind, way_of(port)) {
        (Way::In, PortKind::Midi, Way::In) => true,
        (Way::Out, PortKind::Midi, Way::Out) => true,
        _ => false,
    }
}

/// Whether a port is a MIDI port of a node, of this way.
fn is_midi_of(node: Node, way: Way, port: &Port) -> bool
    ensures { result ≡ is_midi_of node way port.now }
{
    is_same_node(port.node, node) && is_midi(way, port)
}

/// How many of these ports are MIDI ports of a node, of one way.
pub(crate) fn count_midi(ports: &[Port], node: Node, way: Way) -> usize
    ensures { result ≡ count_by (is_midi_of node way) ports.now }
{
    let mut count = 0;
    for port in ports {
        if is_midi_of(node, way, port) {
            count += 1;
        }
    }
    count
}

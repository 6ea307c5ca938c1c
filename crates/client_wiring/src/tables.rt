//! Where ports stand, by their ids.

ghost use Rattle.std.specs.Prelude.{◌≡◌, ◌<◌, ℕ, All};
ghost use Rattle.jack_types.specs.declared.ports.Port.{Port as PortRecord};
ghost use Rattle.session_model.specs.Ids.{way_of as way_in};
ghost use Rattle.session_model.specs.Soundness.{Apart};
ghost use Rattle.cycle_plan.specs.feedback_edges.specs.Marking.{IsNode, node_number};
ghost use Rattle.client_wiring.specs.Tables.{AreCounts, AreIndices, ArePlaces, class_number, kind_number, number_in_class};

use bitflags::Flags;
use cycle_plan::feedback_edges::{MOST_PORTS, number_of};
use jack_types::{Node, Port, PortKind, Way};

/// Each node has four classes of ports: by what they carry, and by their way.
pub(crate) const MOST_CLASSES: usize = 268;

/// At each id, where its port stands among the ports, and its place among those of its class.
#[derive(Drop)]
pub(crate) struct Tables {
    pub(crate) indices: [usize; MOST_PORTS],
    pub(crate) places: [usize; MOST_PORTS],
}

/// The number of the class of ports of a node.
pub(crate) fn class_of(node: Node, kind: PortKind, way: Way) -> usize
    requires { IsNode node }
    ensures value { result ≡ number_in_class node kind way }
    ensures below { result < 268 }
{
    let kind_number = match kind {
        PortKind::Audio => 0,
        PortKind::Midi => 2,
    };
    let way_number = match way {
        Way::Out => 0,
        Way::In => 1,
    };
    usize::from(number_of(node)) * 4 + kind_number + way_number
}

/// The way of a port.
pub(crate) fn way_of(port: &Port) -> Way
    ensures { result ≡ way_in port.now }
{
    if port.flags.bits() & 1 == 1 {
        Way::In
    } else {
        Way::Out
    }
}

/// The class of a port.
fn class_of_port(port: &Port) -> usize
    requires { IsNode port.now.node }
    ensures value { result ≡ class_number port.now }
    ensures below { result < 268 }
{
    let way = way_of(port);
    class_of(port.node, port.kind, way)
}

/// At each id, where its port stands among the ports.
fn index_ports(ports: &[Port]) -> [usize; MOST_PORTS]
    requires ids { All (λ (port : PortRecord). port.id.0 < 2064) ports.now }
    requires apart { Apart (λ (port : PortRecord). port.id.0) ports.now }
    ensures { AreIndices ports.now result }
{
    let mut indices = [0; MOST_PORTS];
    for (index, port) in ports.iter().enumerate() {
        indices[port.id.0 as usize] = index;
    }
    indices
}

/// How many ports each class has.
pub(crate) fn count_ports(ports: &[Port]) -> [usize; MOST_CLASSES]
    requires nodes { All (λ (port : PortRecord). IsNode port.node) ports.now }
    ensures { AreCounts ports.now result }
{
    let mut counts = [0; MOST_CLASSES];
    for port in ports {
        counts[class_of_port(port)] += 1;
    }
    counts
}

/// At each id, the place of its port among those of its class.
fn place_ports(ports: &[Port]) -> [usize; MOST_PORTS]
    requires ids { All (λ (port : PortRecord). port.id.0 < 2064) ports.now }
    requires nodes { All (λ (port : PortRecord). IsNode port.node) ports.now }
    requires apart { Apart (λ (port : PortRecord). port.id.0) ports.now }
    ensures { ArePlaces ports.now result }
{
    let mut places = [0; MOST_PORTS];
    let mut counts = [0; MOST_CLASSES];
    for port in ports {
        let class = class_of_port(port);
        places[port.id.0 as usize] = counts[class];
        counts[class] += 1;
    }
    places
}

/// The tables of these ports.
pub(crate) fn tables_of(ports: &[Port]) -> Tables
    requires ids { All (λ (port : PortRecord). port.id.0 < 2064) ports.now }
    requires nodes { All (λ (port : PortRecord). IsNode port.node) ports.now }
    requires apart { Apart (λ (port : PortRecord). port.id.0) ports.now }
    ensures indices { AreIndices ports.now result.indices }
    ensures places { ArePlaces ports.now result.places }
{
    Tables {
        indices: index_ports(ports),
        places: place_ports(ports),
    }
}

//! The ends of connections.

ghost use Rattle.std.specs.Prelude.{◌≡◌, ◌<◌, ◌==◌, ℕ, All};
ghost use Rattle.std.specs.List.{position_or_len};
ghost use Rattle.jack_types.specs.declared.ports.Client.{Client as ClientRecord};
ghost use Rattle.jack_types.specs.declared.ports.Port.{Port as PortRecord};
ghost use Rattle.cycle_plan.specs.connection_set.specs.Connections.{IsIdOf};
ghost use Rattle.client_wiring.specs.Ends.{IsEndAt};
ghost use Rattle.client_wiring.specs.Tables.{AreIndices, ArePlaces, node_place};

use crate::tables::Tables;
use cycle_plan::feedback_edges::MOST_PORTS;
use jack_types::{Client, ClientId, Node, Port, PortId, PortKind};

/// An end of a connection: what its port carries, its client's node, if that is one, and its place among the ports of its
/// node, kind and way, and its birth.
#[derive(Clone, Copy)]
pub(crate) struct End {
    pub(crate) kind: PortKind,
    pub(crate) node: Option<usize>,
    pub(crate) place: usize,
    pub(crate) birth: u32,
}

/// The place of the node of a client among the plan's nodes; their number where it is none.
fn first_of(nodes: &[Client], id: ClientId) -> usize
    ensures { result ≡ position_or_len (λ (client : ClientRecord). id.0 == client.id.0) nodes.now }
{
    for (place, client) in nodes.iter().enumerate() {
        if id.0 == client.id.0 {
            return place;
        }
    }
    nodes.len()
}

/// The place of a node among the plan's nodes.
pub(crate) fn place_of(nodes: &[Client], node: Node) -> Option<usize>
    ensures { result ≡ node_place nodes.now node }
{
    let id = match node {
        Node::Client(id) => id,
        Node::Capture => return None,
        Node::Playback => return None,
    };
    let place = first_of(nodes, id);
    if place < nodes.len() {
        Some(place)
    } else {
        None
    }
}

/// The end of a connection at the port of an id.
pub(crate) fn end_at(ports: &[Port], tables: &Tables, nodes: &[Client], id: PortId) -> End
    requires ids { All (λ (port : PortRecord). port.id.0 < 2064) ports.now }
    requires indices { AreIndices ports.now tables.now.indices }
    requires places { ArePlaces ports.now tables.now.places }
    requires listed { IsIdOf ports.now id }
    ensures { IsEndAt ports.now nodes.now id result }
{
    let port = &ports[tables.indices[id.0 as usize]];
    End {
        kind: port.kind,
        node: place_of(nodes, port.node),
        place: tables.places[id.0 as usize],
        birth: port.birth,
    }
}

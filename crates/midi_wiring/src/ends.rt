//! The ends of connections.

ghost use Rattle.std.specs.Prelude.{◌≡◌, ◌<◌, ◌==◌, All};
ghost use Rattle.std.specs.List.{position_or_len};
ghost use Rattle.jack_types.specs.declared.ports.Client.{Client as ClientRecord};
ghost use Rattle.client_wiring.specs.Tables.{node_place};

use jack_types::{Client, ClientId, Node};

/// The place of the node of a client among the plan's nodes; their number where it is none.
fn first_of(nodes: &[Client], id: ClientId) -> usize
    ensures { result ≡ position_or_len (λ (client : ClientRecord). id.0 == client.id.0) nodes.now }
{
    for (place, client) in nodes.iter().enumerate() {
        if id.0 == client.id.0 {
            return place;
        }
    }
    nodes.len()
}

/// The place of a node among the plan's nodes.
pub(crate) fn place_of(nodes: &[Client], node: Node) -> Option<usize>
    ensures { result ≡ node_place nodes.now node }
{
    let id = match node {
        Node::Client(id) => id,
        Node::Capture => return None,
        Node::Playback => return None,
    };
    let place = first_of(nodes, id);
    if place < nodes.len() {
        Some(place)
    } else {
        None
    }
}

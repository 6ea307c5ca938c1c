//! The nodes of ports, by numbers.

ghost use Rattle.std.specs.Prelude.{◌≡◌, ◌<◌, ℕ, All};
ghost use Rattle.connection_set.specs.jack_types.specs.declared.ports.Port.{Port as PortRecord};
ghost use Rattle.feedback_edges.specs.Marking.{IsNode, node_number};
ghost use Rattle.feedback_edges.specs.Search.{IsTable};

use connection_set::jack_types::{Node, Port};

/// The greatest number of ports: 32 of each of 64 clients, and 16 of `system`.
pub const MOST_PORTS: usize = 2064;

/// Nodes have numbers below this: capture, playback, and clients by ids up to 64.
pub const MOST_NODES: usize = 67;

/// The number of a node.
pub fn number_of(node: Node) -> u8
    requires { IsNode node }
    ensures { result ≡ node_number node }
{
    match node {
        Node::Capture => 0,
        Node::Playback => 1,
        Node::Client(client) => (client.0 + 2) as u8,
    }
}

/// For each port's id, its node's number.
pub fn node_table(ports: &[Port]) -> [u8; MOST_PORTS]
    requires ids { All (λ (port : PortRecord). port.id.0 < 2064) ports.now }
    requires nodes { All (λ (port : PortRecord). IsNode port.node) ports.now }
    ensures table { IsTable ports.now result }
    ensures numbers { All (λ n. n < 67) result }
{
    let mut table = [0; MOST_PORTS];
    let mut place = ports.len();
    // From the last port to the first, so that of two ports with one id the first counts.
    'filling: while place > 0 {
        place -= 1;
        let port = &ports[place];
        table[port.id.0 as usize] = number_of(port.node);
    }
    table
}

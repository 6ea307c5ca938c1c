//! The order of a plan's nodes.

ghost use Rattle.std.specs.Prelude.{◌≡◌, ◌<◌, ◌≤◌, ◌+◌, ℕ, All, length, filter, take, slice_index_or, false};
ghost use Rattle.std.specs.List.{position_or_len};
ghost use Rattle.std.specs.Vec.{vec_capacity};
ghost use Rattle.graph_word.specs.jack_types.specs.declared.ports.Client.{Client as ClientRecord};
ghost use Rattle.graph_word.specs.jack_types.specs.declared.ports.Edge.{Edge as EdgeRecord};
ghost use Rattle.cycle_plan.specs.Layouts.{is_player, ordered, with_node};
ghost use Rattle.cycle_plan.specs.Searching.{client_number, numbers_lead};

use feedback_edges::{MOST_NODES, MOST_PORTS, reached};
use graph_word::jack_types::{Client, Edge};

/// Whether a client is a node: active, and not `system`.
fn plays(client: &Client) -> bool
    ensures { result ≡ is_player client.now }
{
    client.active && client.id.0 != 0
}

/// The number of a client among all nodes.
pub fn number_of_client(client: &Client) -> u8
    requires { client.now.id.0 ≤ 64 }
    ensures { result ≡ client_number client.now }
{
    (client.id.0 + 2) as u8
}

/// The place of the first node that is marked; the number of nodes where none is.
fn first_marked(nodes: &[Client], marked: &[bool; MOST_NODES]) -> usize
    requires { All (λ (client : ClientRecord). client.id.0 ≤ 64) nodes.now }
    ensures { result ≡ position_or_len (λ (client : ClientRecord). slice_index_or marked.now (client_number client) false) nodes.now }
{
    for (place, node) in nodes.iter().enumerate() {
        if marked[number_of_client(node) as usize] {
            return place;
        }
    }
    nodes.len()
}

/// Puts a client before the first node that it leads to.
fn place_client(nodes: &mut Vec<Client>, client: &Client, edges: &[Edge], table: &[u8; MOST_PORTS])
    requires room { length nodes.old.items < vec_capacity nodes.old }
    requires ids { All (λ (client : ClientRecord). client.id.0 ≤ 64) nodes.old.items }
    requires id { client.now.id.0 ≤ 64 }
    requires sources { All (λ (edge : EdgeRecord). edge.source.0 < 2064) edges.now }
    requires destinations { All (λ (edge : EdgeRecord). edge.destination.0 < 2064) edges.now }
    requires numbers { All (λ n. n < 67) table.now }
    ensures nodes { nodes.new.items ≡ with_node (numbers_lead table.now edges.now) client.now nodes.old.items }
    ensures room { vec_capacity nodes.old ≤ vec_capacity nodes.new }
{
    let marked = reached(edges, table, number_of_client(client));
    let place = first_marked(nodes, &marked);
    match nodes.insert(place, *client) {
        Ok(()) => {}
        Err(_) => unreachable!(),
    }
}

/// Puts the clients that play into an order in which direct edges go upward.
pub fn order_nodes(
    nodes: &mut Vec<Client>,
    clients: &[Client],
    edges: &[Edge],
    table: &[u8; MOST_PORTS],
)
    requires room { length clients.now ≤ vec_capacity nodes.old }
    requires ids { All (λ (client : ClientRecord). client.id.0 ≤ 64) clients.now }
    requires sources { All (λ (edge : EdgeRecord). edge.source.0 < 2064) edges.now }
    requires destinations { All (λ (edge : EdgeRecord). edge.destination.0 < 2064) edges.now }
    requires numbers { All (λ n. n < 67) table.now }
    ensures nodes { nodes.new.items ≡ ordered (numbers_lead table.now edges.now) (filter is_player clients.now) }
    ensures ids { All (λ (client : ClientRecord). client.id.0 ≤ 64) nodes.new.items }
    ensures few { length nodes.new.items ≤ length clients.now }
    ensures room { vec_capacity nodes.old ≤ vec_capacity nodes.new }
{
    nodes.clear();
    for client in clients {
        if plays(client) {
            place_client(nodes, client, edges, table);
        }
    }
}

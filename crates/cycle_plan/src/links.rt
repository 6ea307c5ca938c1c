//! The links between a plan's nodes, and how many come into each.

ghost use Rattle.std.specs.Prelude.{◌≡◌, ◌<◌, ◌≤◌, ◌+◌, ℕ, All, IfSome, length, filter_map, slice_index_or, false};
ghost use Rattle.std.specs.List.{list_any};
ghost use Rattle.std.specs.Vec.{vec_capacity};
ghost use Rattle.graph_word.specs.jack_types.specs.declared.ports.Client.{Client as ClientRecord};
ghost use Rattle.graph_word.specs.jack_types.specs.declared.ports.Edge.{Edge as EdgeRecord};
ghost use Rattle.cycle_plan.specs.Layouts.{distinct, same_link, with_link};
ghost use Rattle.cycle_plan.specs.Searching.{ArePlaces, client_number, link_at_numbers};

use crate::nodes::number_of_client;
use feedback_edges::{MOST_NODES, MOST_PORTS};
use graph_word::jack_types::{Client, Edge, Link, Mark};

/// For each node's number, its place among the plan's nodes.
pub fn node_places(nodes: &[Client]) -> [Option<u32>; MOST_NODES]
    requires ids { All (λ (client : ClientRecord). client.id.0 ≤ 64) nodes.now }
    requires few { length nodes.now ≤ 65 }
    ensures { ArePlaces nodes.now result }
{
    let mut places = [None; MOST_NODES];
    for (place, node) in nodes.iter().enumerate() {
        let number = number_of_client(node) as usize;
        if places[number].is_none() {
            places[number] = Some(place as u32);
        }
    }
    places
}

/// The link that a direct edge between two nodes makes.
fn link_of_edge(
    edge: &Edge,
    table: &[u8; MOST_PORTS],
    places: &[Option<u32>; MOST_NODES],
) -> Option<Link>
    requires source { edge.now.source.0 < 2064 }
    requires destination { edge.now.destination.0 < 2064 }
    requires numbers { All (λ n. n < 67) table.now }
    ensures { result ≡ link_at_numbers table.now places.now edge.now }
{
    if edge.mark == Mark::Feedback {
        return None;
    }
    let from = places[table[edge.source.0 as usize] as usize];
    let to = places[table[edge.destination.0 as usize] as usize];
    match (from, to) {
        (Some(from), Some(to)) => Some(Link { from, to }),
        _ => None,
    }
}

/// Whether the link is among the links.
fn has_link(links: &[Link], link: Link) -> bool
    ensures { result ≡ list_any (same_link link) links.now }
{
    for other in links {
        if link.from == other.from && link.to == other.to {
            return true;
        }
    }
    false
}

/// Adds a link that is not there.
fn add_link(links: &mut Vec<Link>, link: Link)
    requires { length links.old.items < vec_capacity links.old }
    ensures links { links.new.items ≡ with_link links.old.items link }
    ensures room { vec_capacity links.old ≤ vec_capacity links.new }
{
    if has_link(links, link) {
        return;
    }
    match links.push(link) {
        Ok(()) => {}
        Err(_) => unreachable!(),
    }
}

/// Makes the links of the edges, each once.
pub fn link_nodes(
    links: &mut Vec<Link>,
    edges: &[Edge],
    table: &[u8; MOST_PORTS],
    places: &[Option<u32>; MOST_NODES],
)
    requires room { length edges.now ≤ vec_capacity links.old }
    requires sources { All (λ (edge : EdgeRecord). edge.source.0 < 2064) edges.now }
    requires destinations { All (λ (edge : EdgeRecord). edge.destination.0 < 2064) edges.now }
    requires numbers { All (λ n. n < 67) table.now }
    ensures links { links.new.items ≡ distinct (filter_map (link_at_numbers table.now places.now) edges.now) }
    ensures few { length links.new.items ≤ length edges.now }
    ensures room { vec_capacity links.old ≤ vec_capacity links.new }
{
    links.clear();
    for edge in edges {
        if let Some(link) = link_of_edge(edge, table, places) {
            add_link(links, link);
        }
    }
}

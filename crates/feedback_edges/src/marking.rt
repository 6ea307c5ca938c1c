//! Marks of edges.

ghost use Rattle.std.specs.Prelude.{◌≡◌, ◌<◌, ◌↔◌, All, Contains, IsTrue, length, not};
ghost use Rattle.connection_set.specs.jack_types.specs.declared.ports.Edge.{Edge as EdgeRecord};
ghost use Rattle.connection_set.specs.jack_types.specs.declared.ports.Way.TheVariants.{In, Out};
ghost use Rattle.connection_set.specs.session_model.specs.Ids.{connections as edges_by_name, node_links, way_of};
ghost use Rattle.connection_set.specs.session_model.specs.Loops.{Leads, mark_of, remark as remark_of};
ghost use Rattle.connection_set.specs.Connections.{edge_at};
ghost use Rattle.feedback_edges.specs.Marking.{AreAmong, AreNamed, IsNode, ends_by_id};
ghost use Rattle.feedback_edges.specs.Search.{ClosesNone};

use crate::numbers::{MOST_PORTS, node_table, number_of};
use crate::searching::leads_between;
use connection_set::Connections;
use connection_set::jack_types::{Edge, Mark, Node, Port};

/// Whether direct edges lead from the one node to the other, or the two are one.
///
/// It takes no memory.
pub fn leads(edges: &[Edge], ports: &[Port], from: Node, to: Node) -> bool
    requires among { AreAmong ports.now edges.now }
    requires from { IsNode from }
    requires to { IsNode to }
    ensures { IsTrue result ↔ Leads (node_links ports.now edges.now) from to }
{
    leads_between(edges, &node_table(ports), number_of(from), number_of(to))
}

/// The mark of a new edge: feedback exactly where it would close a loop of direct edges.
pub fn mark(edges: &[Edge], ports: &[Port], source: Port, destination: Port) -> Mark
    requires among { AreAmong ports.now edges.now }
    requires source { IsNode source.node }
    requires destination { IsNode destination.node }
    ensures loops { (result ≡ Mark.Feedback) ↔ Leads (node_links ports.now edges.now) destination.node source.node }
    ensures names { AreNamed ports.now edges.now → Contains ports.now source → Contains ports.now destination → way_of source ≡ Out → way_of destination ≡ In
        → result ≡ mark_of (edges_by_name ports.now edges.now) source.name destination.name }
{
    if leads(edges, ports, destination.node, source.node) {
        Mark::Feedback
    } else {
        Mark::Direct
    }
}

/// Whether the edge at this place is a feedback edge that closes no loop any more.
fn closes_none(edges: &[Edge], table: &[u8; MOST_PORTS], place: usize) -> bool
    requires place { place < length edges.now }
    requires sources { All (λ (edge : EdgeRecord). edge.source.0 < 2064) edges.now }
    requires destinations { All (λ (edge : EdgeRecord). edge.destination.0 < 2064) edges.now }
    requires numbers { All (λ n. n < 67) table.now }
    ensures { IsTrue result ↔ ClosesNone table.now edges.now (edge_at edges.now place) }
{
    let edge = &edges[place];
    let from = table[edge.destination.0 as usize];
    let to = table[edge.source.0 as usize];
    edge.mark == Mark::Feedback && !leads_between(edges, table, from, to)
}

/// Marks edges anew: in the order of making, a feedback edge that closes no loop any more becomes direct.
///
/// It takes no memory.
pub fn remark(connections: &mut Connections, ports: &[Port])
    requires { AreAmong ports.now connections.old.edges }
    ensures marks { AreNamed ports.now connections.old.edges → edges_by_name ports.now connections.new.edges ≡ remark_of (edges_by_name ports.now connections.old.edges) }
    ensures ends { ends_by_id connections.new.edges ≡ ends_by_id connections.old.edges }
    ensures room { connections.new.room ≡ connections.old.room }
{
    let table = node_table(ports);
    for place in 0..connections.edges().len() {
        if closes_none(connections.edges(), &table, place) {
            connections.direct(place as u32);
        }
    }
}

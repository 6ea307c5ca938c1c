//! The search for a path over direct edges, by marks on the nodes that were reached.

ghost use Rattle.std.specs.Prelude.{◌≡◌, ◌<◌, ◌↔◌, ℕ, List, All, Contains, IsTrue, true, false};
ghost use Rattle.connection_set.specs.jack_types.specs.declared.ports.Edge.{Edge as EdgeRecord};
ghost use Rattle.connection_set.specs.session_model.specs.Loops.{Leads};
ghost use Rattle.feedback_edges.specs.Search.{AreLed, IsMarked, Passes, number_links, unmarked};

use crate::numbers::{MOST_NODES, MOST_PORTS};
use connection_set::jack_types::{Edge, Mark};

/// Marks the end of a direct edge that comes from a marked node. Says whether the mark is new.
fn mark_end(edge: &Edge, table: &[u8; MOST_PORTS], marked: &mut [bool; MOST_NODES]) -> bool
    requires source { edge.now.source.0 < 2064 }
    requires destination { edge.now.destination.0 < 2064 }
    requires numbers { All (λ n. n < 67) table.now }
    ensures kept { (n : ℕ) → IsMarked marked.old n → IsMarked marked.new n }
    ensures led { (edges : List EdgeRecord) (from : ℕ) → Contains edges edge.now → AreLed table.now edges from marked.old → AreLed table.now edges from marked.new }
    ensures passes { result ≡ false → Passes table.now marked.new edge.now }
    ensures same { result ≡ false → marked.new ≡ marked.old }
    ensures fewer { result ≡ true → unmarked marked.new < unmarked marked.old }
{
    if edge.mark == Mark::Feedback {
        return false;
    }
    let from = table[edge.source.0 as usize] as usize;
    let to = table[edge.destination.0 as usize] as usize;
    if !marked[from] || marked[to] {
        return false;
    }
    marked[to] = true;
    true
}

/// Marks the nodes that one direct edge joins to a marked one. Says whether a mark is new.
fn mark_next(edges: &[Edge], table: &[u8; MOST_PORTS], marked: &mut [bool; MOST_NODES]) -> bool
    requires sources { All (λ (edge : EdgeRecord). edge.source.0 < 2064) edges.now }
    requires destinations { All (λ (edge : EdgeRecord). edge.destination.0 < 2064) edges.now }
    requires numbers { All (λ n. n < 67) table.now }
    ensures kept { (n : ℕ) → IsMarked marked.old n → IsMarked marked.new n }
    ensures led { (from : ℕ) → AreLed table.now edges.now from marked.old → AreLed table.now edges.now from marked.new }
    ensures closed { result ≡ false → All (λ (edge : EdgeRecord). Passes table.now marked.new edge) edges.now }
    ensures same { result ≡ false → marked.new ≡ marked.old }
    ensures fewer { result ≡ true → unmarked marked.new < unmarked marked.old }
{
    let mut grown = false;
    for edge in edges {
        if mark_end(edge, table, marked) {
            grown = true;
        }
    }
    grown
}

/// The nodes that direct edges lead to from a node, itself among them, by their numbers.
///
/// It takes no memory.
pub fn reached(edges: &[Edge], table: &[u8; MOST_PORTS], from: u8) -> [bool; MOST_NODES]
    requires sources { All (λ (edge : EdgeRecord). edge.source.0 < 2064) edges.now }
    requires destinations { All (λ (edge : EdgeRecord). edge.destination.0 < 2064) edges.now }
    requires numbers { All (λ n. n < 67) table.now }
    requires from { from < 67 }
    ensures { (n : ℕ) → IsMarked result n ↔ Leads (number_links table.now edges.now) from n }
{
    let mut marked = [false; MOST_NODES];
    marked[from as usize] = true;
    let mut more = true;
    'marking: while more {
        more = mark_next(edges, table, &mut marked);
    }
    marked
}

/// Whether direct edges lead from the one node to the other.
pub fn leads_between(edges: &[Edge], table: &[u8; MOST_PORTS], from: u8, to: u8) -> bool
    requires sources { All (λ (edge : EdgeRecord). edge.source.0 < 2064) edges.now }
    requires destinations { All (λ (edge : EdgeRecord). edge.destination.0 < 2064) edges.now }
    requires numbers { All (λ n. n < 67) table.now }
    requires from { from < 67 }
    requires to { to < 67 }
    ensures { IsTrue result ↔ Leads (number_links table.now edges.now) from to }
{
    let mut marked = [false; MOST_NODES];
    marked[from as usize] = true;
    let mut grown = true;
    'marking: while grown && !marked[to as usize] {
        grown = mark_next(edges, table, &mut marked);
    }
    marked[to as usize]
}

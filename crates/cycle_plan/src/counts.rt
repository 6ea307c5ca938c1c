//! How many links come into each node.

ghost use Rattle.std.specs.Prelude.{◌≡◌, ◌≤◌, ◌+◌, length, vec_capacity};
ghost use Rattle.graph_word.specs.session_model.specs.Activation.{incoming};
ghost use Rattle.cycle_plan.specs.Plans.{AreCounts};

use graph_word::jack_types::Link;

/// How many of the links come into the node, and one for its start.
fn count_into(links: &[Link], node: u32) -> u32
    requires { length links.now ≤ 512 }
    ensures { result ≡ length (incoming links.now node) + 1 }
{
    let mut count = 1;
    for link in links {
        if link.to == node {
            count += 1;
        }
    }
    count
}

/// Counts the links into each of so many nodes, anew.
pub(crate) fn count_links(counts: &mut Vec<u32>, nodes: usize, links: &[Link])
    requires nodes { nodes ≤ 65 }
    requires links { length links.now ≤ 512 }
    requires room { 65 ≤ vec_capacity counts.old }
    ensures counts { AreCounts nodes links.now counts.new.items }
    ensures room { vec_capacity counts.old ≤ vec_capacity counts.new }
{
    counts.clear();
    for node in 0..nodes {
        match counts.push(count_into(links, node as u32)) {
            Ok(()) => {}
            Err(_) => unreachable!(),
        }
    }
}

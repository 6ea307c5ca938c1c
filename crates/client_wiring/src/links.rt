//! The links between nodes, and what they carry.

ghost use Rattle.std.specs.Prelude.{◌≡◌, ◌≤◌, count_by, length};
ghost use Rattle.std.specs.List.{position_or_len};
ghost use Rattle.session_model.specs.Benches.{link_place};
ghost use Rattle.cycle_plan.specs.Layouts.{same_link};
ghost use Rattle.client_wiring.specs.Tables.{is_into, is_over, link_numbered};
ghost use Rattle.client_wiring.specs.Wirings.{is_from, place_out_of as place_among_outgoing};

use crate::joints::Carried;
use jack_types::Link;

/// Whether a link joins these nodes.
fn joins(link: &Link, from: usize, to: usize) -> bool
    ensures { result ≡ same_link (link_numbered from to) link.now }
{
    from == link.from as usize && to == link.to as usize
}

/// The place of the link between two nodes; the number of links where there is none.
pub(crate) fn first_link(links: &[Link], from: usize, to: usize) -> usize
    ensures place { result ≡ position_or_len (same_link (link_numbered from to)) links.now }
    ensures within { result ≤ length links.now }
{
    for (place, link) in links.iter().enumerate() {
        if joins(link, from, to) {
            return place;
        }
    }
    links.len()
}

/// How many links come into a node.
fn count_into(links: &[Link], to: usize) -> usize
    ensures { result ≡ count_by (is_into to) links.now }
{
    let mut count = 0;
    for link in links {
        if link.to as usize == to {
            count += 1;
        }
    }
    count
}

/// The place of the link between two nodes, among those that come into the second.
pub(crate) fn place_into(links: &[Link], from: usize, to: usize) -> usize
    ensures { result ≡ link_place links.now from to }
{
    count_into(&links[..first_link(links, from, to)], to)
}

/// How many links go out from a node.
fn count_from(links: &[Link], from: usize) -> usize
    ensures { result ≡ count_by (is_from from) links.now }
{
    let mut count = 0;
    for link in links {
        if link.from as usize == from {
            count += 1;
        }
    }
    count
}

/// The place of the link between two nodes, among those that go out from the first.
pub(crate) fn place_out_of(links: &[Link], from: usize, to: usize) -> usize
    ensures { result ≡ place_among_outgoing links.now (link_numbered from to) }
{
    count_from(&links[..first_link(links, from, to)], from)
}

/// How many of these connections a link carries.
pub(crate) fn count_over(carried: &[Carried], link: usize) -> usize
    ensures { result ≡ count_by (is_over link) carried.now }
{
    let mut count = 0;
    for other in carried {
        if other.link == link {
            count += 1;
        }
    }
    count
}

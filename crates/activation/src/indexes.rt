//! Which links go into each node and out from it, and the place of each link among those that go out from its node.
ghost use Rattle.std.specs.Prelude.{◌≡◌, ◌≤◌, ◌<◌, ◌++◌, [], ◌∷◌, length, map, All, IfOk, vec_capacity};
ghost use Rattle.session_laws.specs.session_model.specs.Activation.{AreLinks, incoming, outgoing, place_among, link_at};
ghost use Rattle.session_laws.specs.session_model.specs.Samples.{below};
ghost use Rattle.activation.specs.Contents.{AreEmpty};
ghost use Rattle.activation.specs.Indexes.{IsIndex};

use session_laws::jack_types::Link;
use std::alloc::{AllocError, Global};

/// By node an empty list, with the room for the positions of all links.
pub(crate) fn empty_lists(alloc: Global, nodes: usize) -> Result<Vec<Vec<u32>>, AllocError>
    ensures { IfOk result (λ all. (length all.items ≡ nodes) × All (λ which. 512 ≤ vec_capacity which) all.items) }
{
    let mut all = Vec::with_capacity(alloc, nodes)?;
    for _ in 0..nodes {
        all.push_reserved(Vec::with_capacity(alloc, 512)?);
    }
    Ok(all)
}

fn clear_lists(all: &mut Vec<Vec<u32>>)
    requires { All (λ which. 512 ≤ vec_capacity which) all.old.items }
    ensures { (length all.new.items ≡ length all.old.items) × All (λ which. (which.items ≡ []) × (512 ≤ vec_capacity which)) all.new.items }
{
    for node in 0..all.len() {
        all[node].clear();
    }
}

// Adds the position of a link, and answers how many there were.
fn add(list: &mut Vec<u32>, position: usize) -> u32
    requires { (length list.old.items ≤ position) × (position < 512) × (512 ≤ vec_capacity list.old) }
    ensures { (list.new.items ≡ list.old.items ++ position ∷ []) × (vec_capacity list.new ≡ vec_capacity list.old) × (result ≡ length list.old.items) }
{
    let count = list.len() as u32;
    list.push_reserved(position as u32);
    count
}

// Lists each link with the node that it goes out from and with the one that it goes into, and its place.
fn sort_links(
    links: &[Link],
    into: &mut Vec<Vec<u32>>,
    out: &mut Vec<Vec<u32>>,
    places: &mut Vec<u32>,
)
    requires links { AreLinks (length into.old.items) links.now × (length links.now ≤ 512) × (length out.old.items ≡ length into.old.items) }
    requires into { All (λ which. (which.items ≡ []) × (512 ≤ vec_capacity which)) into.old.items }
    requires out { All (λ which. (which.items ≡ []) × (512 ≤ vec_capacity which)) out.old.items }
    requires places { (places.old.items ≡ []) × (512 ≤ vec_capacity places.old) }
    ensures into { IsIndex (λ l. (link_at links.now l).to) (length links.now) into.new.items × (length into.new.items ≡ length into.old.items) }
    ensures out { IsIndex (λ l. (link_at links.now l).from) (length links.now) out.new.items × (length out.new.items ≡ length out.old.items) }
    ensures places { (places.new.items ≡ map (place_among links.now) (below (length links.now))) × (vec_capacity places.new ≡ vec_capacity places.old) }
{
    for (position, link) in links.iter().enumerate() {
        let place = add(&mut out[link.from as usize], position);
        places.push_reserved(place);
        add(&mut into[link.to as usize], position);
    }
}

/// Copies the links, into the room that is kept for them.
pub(crate) fn fill_links(links: &[Link], kept: &mut Vec<Link>)
    requires { (length links.now ≤ 512) × (512 ≤ vec_capacity kept.old) }
    ensures { (kept.new.items ≡ links.now) × (vec_capacity kept.new ≡ vec_capacity kept.old) }
{
    kept.clear();
    for link in links {
        kept.push_reserved(*link);
    }
}

/// Makes the lists of these links' positions and places anew.
pub(crate) fn refill(
    links: &[Link],
    kept: &mut Vec<Link>,
    into: &mut Vec<Vec<u32>>,
    out: &mut Vec<Vec<u32>>,
    places: &mut Vec<u32>,
)
    requires links { AreLinks (length into.old.items) links.now × (length links.now ≤ 512) × (length out.old.items ≡ length into.old.items) }
    requires room { (512 ≤ vec_capacity kept.old) × All (λ which. 512 ≤ vec_capacity which) into.old.items × All (λ which. 512 ≤ vec_capacity which) out.old.items × (512 ≤ vec_capacity places.old) }
    ensures links { kept.new.items ≡ links.now }
    ensures into { map (λ which. which.items) into.new.items ≡ map (incoming links.now) (below (length into.old.items)) }
    ensures out { map (λ which. which.items) out.new.items ≡ map (outgoing links.now) (below (length into.old.items)) }
    ensures places { places.new.items ≡ map (place_among links.now) (below (length links.now)) }
    ensures room { (512 ≤ vec_capacity kept.new) × All (λ which. 512 ≤ vec_capacity which) into.new.items × All (λ which. 512 ≤ vec_capacity which) out.new.items × (512 ≤ vec_capacity places.new) }
{
    fill_links(links, kept);
    clear_lists(into);
    clear_lists(out);
    places.clear();
    sort_links(links, into, out, places);
}

/// By node the room for the values that its bench is given.
pub(crate) fn all_rooms<Y: Drop>(
    alloc: Global,
    nodes: usize,
) -> Result<Vec<Vec<Option<Y>>>, AllocError>
    ensures { IfOk result (λ all. (length all.items ≡ nodes) × AreEmpty all.items) }
{
    let mut all = Vec::with_capacity(alloc, nodes)?;
    for _ in 0..nodes {
        all.push_reserved(Vec::with_capacity(alloc, 512)?);
    }
    Ok(all)
}

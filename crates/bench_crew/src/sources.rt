//! The links of a cycle, as a node finds those that come into it.
ghost use Rattle.std.specs.Prelude.{◌≡◌, ◌≤◌, ◌<◌, ◌+◌, ◌++◌, ◌∷◌, ℕ, [], length, map, All, IfOk, slice_index, vec_capacity};
ghost use Rattle.session_model.specs.Activation.{AreLinks, incoming, place_among, link_at};
ghost use Rattle.session_model.specs.Samples.{below};
ghost use Rattle.bench_crew.specs.Listings.{AreListed, AreCounted, IsListing};

use crate::linking::are_same;
use jack_types::Link;
use std::alloc::{AllocError, Global};

/// The links that were listed last: by node the positions of those that come into it, and by link its
/// place among those that go out from its source.
#[derive(Drop)]
pub(crate) struct Sources {
    pub(crate) nodes: u32,
    pub(crate) links: Vec<Link>,
    into: Vec<Vec<u32>>,
    places: Vec<u32>,
    counts: Vec<u32>,
    ghost listing: { IsListing nodes links into.items places counts.items },
}

/// By node an empty list, with the room for the positions of all links.
fn empty_lists(alloc: Global, nodes: u32) -> Result<Vec<Vec<u32>>, AllocError>
    ensures { IfOk result (λ into. (length into.items ≡ nodes) × All (λ which. (which.items ≡ []) × (512 ≤ vec_capacity which)) into.items) }
{
    let mut into = Vec::with_capacity(alloc, nodes as usize)?;
    for _ in 0..nodes {
        into.push_reserved(Vec::with_capacity(alloc, 512)?);
    }
    Ok(into)
}

/// By node that no link was counted.
fn no_counts(alloc: Global, nodes: u32) -> Result<Vec<u32>, AllocError>
    ensures { IfOk result (λ counts. length counts.items ≡ nodes) }
{
    let mut counts = Vec::with_capacity(alloc, nodes as usize)?;
    for _ in 0..nodes {
        counts.push_reserved(0);
    }
    Ok(counts)
}

fn clear_lists(into: &mut Vec<Vec<u32>>)
    requires { All (λ which. 512 ≤ vec_capacity which) into.old.items }
    ensures { (length into.new.items ≡ length into.old.items) × All (λ which. (which.items ≡ []) × (512 ≤ vec_capacity which)) into.new.items }
{
    for node in 0..into.len() {
        into[node].clear();
    }
}

fn clear_counts(counts: &mut [u32])
    ensures { (n : ℕ) → n < length counts.new → slice_index counts.new n ≡ 0 }
{
    for count in counts.iter_mut() {
        *count = 0;
    }
}

/// Copies the links, into the room that is kept for them.
fn keep(links: &[Link], kept: &mut Vec<Link>)
    requires { (length links.now ≤ 512) × (512 ≤ vec_capacity kept.old) }
    ensures { (kept.new.items ≡ links.now) × (vec_capacity kept.new ≡ vec_capacity kept.old) }
{
    kept.clear();
    for link in links {
        kept.push_reserved(*link);
    }
}

/// How many links were counted before this one.
fn count(counted: &mut u32) -> u32
    requires { counted.old < 512 }
    ensures { (result ≡ counted.old) × (counted.new ≡ counted.old + 1) }
{
    let before = *counted;
    *counted += 1;
    before
}

/// Adds the position of a link.
fn add(which: &mut Vec<u32>, position: usize)
    requires { (length which.old.items ≤ position) × (position < 512) × (512 ≤ vec_capacity which.old) }
    ensures { (which.new.items ≡ which.old.items ++ position ∷ []) × (vec_capacity which.new ≡ vec_capacity which.old) }
{
    which.push_reserved(position as u32);
}

/// Lists each link with the node that it goes into, and its place.
fn list(links: &[Link], into: &mut Vec<Vec<u32>>, places: &mut Vec<u32>, counts: &mut [u32])
    requires links { AreLinks (length into.old.items) links.now × (length links.now ≤ 512) × (length counts.old ≡ length into.old.items) }
    requires into { AreListed links.now 0 into.old.items }
    requires places { (places.old.items ≡ []) × (512 ≤ vec_capacity places.old) }
    requires counts { AreCounted links.now 0 counts.old }
    ensures into { AreListed links.now (length links.now) into.new.items × (length into.new.items ≡ length into.old.items) }
    ensures places { (places.new.items ≡ map (place_among links.now) (below (length links.now))) × (vec_capacity places.new ≡ vec_capacity places.old) }
{
    for (position, link) in links.iter().enumerate() {
        let place = count(&mut counts[link.from as usize]);
        places.push_reserved(place);
        add(&mut into[link.to as usize], position);
    }
}

impl Sources {
    /// No links among so many nodes, with the room for all links that there can be.
    pub(crate) fn new(alloc: Global, nodes: u32) -> Result<Sources, AllocError>
        requires nodes { nodes ≤ 64 }
        ensures { IfOk result (λ made. made.nodes ≡ nodes) }
    {
        let links = Vec::with_capacity(alloc, 512)?;
        let into = empty_lists(alloc, nodes)?;
        let places = Vec::with_capacity(alloc, 512)?;
        let counts = no_counts(alloc, nodes)?;
        Ok(Sources {
            nodes,
            links,
            into,
            places,
            counts,
        })
    }

    /// How many nodes there are.
    pub(crate) fn nodes(&self) -> u32
        ensures { result ≡ self.now.nodes }
    {
        self.nodes
    }

    /// The positions of the links that come into the node, in the order of the list of links.
    pub(crate) fn into(&self, node: u32) -> &[u32]
        requires node { node < self.now.nodes }
        ensures { result.now ≡ incoming self.now.links.items node }
    {
        self.into[node as usize].as_slice()
    }

    /// The source of the link at this position, and the link's place there.
    pub(crate) fn origin(&self, position: u32) -> (usize, u32)
        requires position { position < length self.now.links.items }
        ensures { (result.0 ≡ (link_at self.now.links.items position).from) × (result.1 ≡ place_among self.now.links.items position) }
    {
        (
            self.links[position as usize].from as usize,
            self.places[position as usize],
        )
    }

    /// Lists these links, where those that were listed last are others. It takes no memory.
    pub(crate) fn relist(&mut self, links: &[Link])
        requires links { AreLinks self.old.nodes links.now × (length links.now ≤ 512) }
        ensures { (self.new.nodes ≡ self.old.nodes) × (self.new.links.items ≡ links.now) }
    {
        if are_same(self.links.as_slice(), links) {
            return;
        }
        keep(links, &mut self.links);
        clear_lists(&mut self.into);
        clear_counts(self.counts.as_mut_slice());
        self.places.clear();
        list(
            links,
            &mut self.into,
            &mut self.places,
            self.counts.as_mut_slice(),
        );
    }
}

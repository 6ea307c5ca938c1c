//! The machine as plain data, on one thread.
ghost use Rattle.std.specs.Prelude.{◌≡◌, ◌≤◌, ◌<◌, ◌-◌, ◌+◌, ◌==◌, ◌^◌, length, map, filter, slice_index, slice_set, cond, Some, None, IfOk};
ghost use Rattle.session_laws.specs.session_model.specs.Activation.{AreLinks, IsConsistent, incoming, link_at, no_link};
ghost use Rattle.session_laws.specs.session_model.specs.Samples.{below};
ghost use Rattle.activation.specs.Steps.{Course, MayStep, behind, answer, opening, place, course_of};
ghost use Rattle.activation.specs.declared.stands.Stand.TheVariants.{Held};

use crate::stands::{Stand, Step};
use session_laws::jack_types::Link;
use std::alloc::{AllocError, Global};
use std::marker::Model;

/// The counters of the nodes, and where each node stands.
///
/// A core plays nothing, so a node counts as played from the step that takes it.
#[derive(Drop)]
pub struct Core {
    links: Vec<Link>,
    seats: u32,
    counters: Vec<u32>,
    started: Vec<bool>,
    stands: Vec<Stand>,
    released: Vec<bool>,
}

impl Model for Core {
    ghost use Rattle.session_laws.specs.session_model.specs.Activation.{IsConsistent};
    ghost use Rattle.activation.specs.Steps.{Course, IsCourse, course_of};

    ghost Value = { Course };

    ghost view = { λ c. course_of c.links.items c.seats c.counters.items c.started.items c.stands.items c.released.items };

    ghost invariant = { λ c. IsCourse (course_of c.links.items c.seats c.counters.items c.started.items c.stands.items c.released.items) };
}

/// How many links go into the node.
fn incoming_count(links: &[Link], node: u32) -> u32
    requires { length links.now ≤ 512 }
    ensures count { result ≡ length (incoming links.now node) }
    ensures few { result ≤ length links.now }
{
    let mut count = 0;
    for link in links {
        if link.to == node {
            count += 1;
        }
    }
    count
}

// The counter of the node falls by one, and where it leaves zero the seat holds the node.
fn lower(counters: &mut Vec<u32>, stands: &mut Vec<Stand>, seat: u32, node: u32) -> Option<u32>
    requires { (node < length counters.old.items) × (node < length stands.old.items) × (0 < slice_index counters.old.items node) }
    ensures counters { counters.new.items ≡ slice_set counters.old.items node (slice_index counters.old.items node - 1) }
    ensures stands { stands.new.items ≡ cond (slice_index counters.old.items node == 1) (slice_set stands.old.items node (Held seat)) stands.old.items }
    ensures taken { result ≡ cond (slice_index counters.old.items node == 1) (Some node) None }
{
    let left = counters[node as usize] - 1;
    counters[node as usize] = left;
    if left > 0 {
        return None;
    }
    stands[node as usize] = Stand::Held(seat);
    Some(node)
}

impl Core {
    /// A core whose nodes all wait, each for its incoming links and for its start.
    ///
    /// Node n is started by the seat n mod `seats`.
    pub fn new(alloc: Global, links: &[Link], nodes: u32, seats: u32) -> Result<Core, AllocError>
        requires links { AreLinks nodes links.now }
        requires sizes { (length links.now ≤ 512) × (nodes ≤ 64) × (0 < seats) × (seats ≤ 16) }
        ensures opening { IfOk result (λ core. core ≡ opening nodes links.now seats) }
    {
        let mut counters = Vec::with_capacity(alloc, nodes as usize)?;
        for node in 0..nodes {
            counters.push_reserved(incoming_count(links, node) + 1);
        }
        let started = vec![in alloc; false; nodes as usize]?;
        let stands = vec![in alloc; Stand::Waiting; nodes as usize]?;
        let released = vec![in alloc; false; links.len()]?;
        Ok(Core {
            links: links.to_vec(alloc)?,
            seats,
            counters,
            started,
            stands,
            released,
        })
    }

    /// Does one step, and answers the node that it took: the node whose counter it left at zero.
    pub fn step(&mut self, step: Step) -> Option<u32>
        requires { MayStep self.old step }
        ensures valid { IsConsistent self.new.links self.new.machine }
        ensures behind { self.new ≡ behind self.old step }
        ensures taken { result ≡ answer self.old step }
    {
        match step {
            Step::Start(seat, node) => {
                self.started[node as usize] = true;
                lower(&mut self.counters, &mut self.stands, seat, node)
            }
            Step::Release(seat, link) => {
                self.released[link as usize] = true;
                let to = self.links[link as usize].to;
                lower(&mut self.counters, &mut self.stands, seat, to)
            }
            Step::Home(_, node) => {
                self.stands[node as usize] = Stand::Home;
                None
            }
        }
    }
}

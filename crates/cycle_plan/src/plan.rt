//! A plan: a graph ready to run.

ghost use Rattle.std.specs.Prelude.{◌≡◌, ◌≤◌, ◌<◌, ◌+◌, IfOk, [], length};
ghost use Rattle.graph_word.specs.Publications.{IsFront};
ghost use Rattle.graph_word.specs.session_model.specs.Activation.{incoming};
ghost use Rattle.graph_word.specs.session_model.specs.Replies.{AreLawful};
ghost use Rattle.graph_word.specs.session_model.specs.Transport.{active_master};
ghost use Rattle.cycle_plan.specs.Graphs.{numbers_of, tempo_numbers};
ghost use Rattle.cycle_plan.specs.Plans.{HasTempos, IsPlanned, LaysOut, opening_of, state_of_plan};

use crate::counts::count_links;
use crate::graph::Graph;
use crate::layout::{Layout, MOST_CLIENTS};
use crate::replaying::replay;
use graph_word::jack_types::{Change, Client, Edge, Link, Memory, Port};
use graph_word::{Base, Numbered};
use std::alloc::Global;
use std::marker::Model;
use tempo_map::Tempo;

/// The greatest number of changes.
pub const MOST_CHANGES: usize = 4096;

/// A graph after a list of changes, laid out for the cycles: the nodes are the active clients but `system`, in an order
/// in which direct edges go upward, and the links are the pairs of nodes that direct edges join.
///
/// Contracts see the channels that it is for, its changes, the graph behind them, its nodes and its links. All its memory
/// is taken by `new`.
#[derive(Drop)]
pub struct Plan {
    base: Base,
    changes: Vec<Change>,
    graph: Graph,
    layout: Layout,
    // Of each node, how many links come into it, and one for its start.
    counts: Vec<u32>,
}

impl Model for Plan {
    ghost use Rattle.std.specs.Prelude.{length, ◌≤◌};
    ghost use Rattle.std.specs.Vec.{vec_capacity};
    ghost use Rattle.cycle_plan.specs.Plans.{Planned};

    ghost Value = { Planned };

    ghost view = { λ p. record { base = p.base; changes = p.changes.items; network = p.graph; nodes = p.layout.nodes; links = p.layout.links } };

    ghost use Rattle.cycle_plan.specs.Plans.{IsPlanned, AreCounts};

    ghost invariant = { λ p. IsPlanned (record { base = p.base; changes = p.changes.items; network = p.graph; nodes = p.layout.nodes; links = p.layout.links })
        × AreCounts (length p.layout.nodes) p.layout.links p.counts.items × (4096 ≤ vec_capacity p.changes) × (65 ≤ vec_capacity p.counts) };
}

/// Lays out a graph anew.
fn lay_out(layout: &mut Layout, graph: &Graph)
    ensures laid { LaysOut graph.now layout.new }
{
    layout.fill(graph.clients(), graph.ports().as_slice(), graph.edges());
}

impl Plan {
    /// A plan without changes. It takes room for 4,096 changes and for the greatest tables.
    pub fn new(alloc: Global, capture: u16, playback: u16) -> Result<Plan, Memory>
        requires capture { capture ≤ 8 }
        requires playback { playback ≤ 8 }
        ensures base { IfOk result (λ plan. plan.base ≡ record { capture = capture; playback = playback }) }
        ensures changes { IfOk result (λ plan. plan.changes ≡ []) }
        ensures planned { IfOk result (λ plan. IsPlanned plan) }
    {
        let graph = Graph::new(alloc, capture, playback)?;
        let mut layout = Layout::new(alloc)?;
        lay_out(&mut layout, &graph);
        let Ok(changes) = Vec::with_capacity(alloc, MOST_CHANGES) else {
            return Err(Memory);
        };
        let Ok(mut counts) = Vec::with_capacity(alloc, MOST_CLIENTS) else {
            return Err(Memory);
        };
        count_links(&mut counts, layout.nodes().len(), layout.links());
        let base = Base {
            capture: u32::from(capture),
            playback: u32::from(playback),
        };
        Ok(Plan {
            base,
            changes,
            graph,
            layout,
            counts,
        })
    }

    /// Goes on to these changes, of which the plan's are the first.
    ///
    /// Only the missing ones are applied; then nodes, links and counts are made anew in place. It takes no memory.
    pub fn fill(&mut self, changes: &[Change])
        requires lawful { AreLawful (opening_of self.old.base) changes.now }
        requires front { IsFront self.old.changes changes.now }
        requires few { length changes.now ≤ 4096 }
        requires tempos { HasTempos changes.now }
        ensures base { self.new.base ≡ self.old.base }
        ensures changes { self.new.changes ≡ changes.now }
        ensures planned { IsPlanned self.new }
    {
        replay(&mut self.graph, &mut self.changes, changes);
        lay_out(&mut self.layout, &self.graph);
        count_links(
            &mut self.counts,
            self.layout.nodes().len(),
            self.layout.links(),
        );
    }

    /// How many changes it has: the number of the last one.
    pub fn number(&self) -> u32
        ensures value { result ≡ length self.now.changes }
        ensures planned { IsPlanned self.now }
    {
        self.changes.len() as u32
    }

    /// Its changes, in their order.
    pub fn changes(&self) -> &[Change]
        ensures value { result.now ≡ self.now.changes }
        ensures planned { IsPlanned self.now }
    {
        &self.changes
    }

    /// Its client nodes: an active client stands before those that it leads to.
    pub fn nodes(&self) -> &[Client]
        ensures value { result.now ≡ self.now.nodes }
        ensures planned { IsPlanned self.now }
    {
        self.layout.nodes()
    }

    /// Its links, each once.
    pub fn links(&self) -> &[Link]
        ensures value { result.now ≡ self.now.links }
        ensures planned { IsPlanned self.now }
    {
        self.layout.links()
    }

    /// How many links come into a node, and one for its start.
    pub fn count(&self, node: u32) -> u32
        requires { node < length self.now.nodes }
        ensures { result ≡ length (incoming self.now.links node) + 1 }
    {
        self.counts[node as usize]
    }

    /// The ports, in order of birth.
    pub fn ports(&self) -> &[Port]
        ensures value { result.now ≡ self.now.network.held.ports }
        ensures planned { IsPlanned self.now }
    {
        self.graph.ports().as_slice()
    }

    /// The connections, in order of making: at most 512.
    pub fn edges(&self) -> &[Edge]
        ensures value { result.now ≡ self.now.network.set.edges }
        ensures few { length result.now ≤ 512 }
        ensures planned { IsPlanned self.now }
    {
        self.graph.edges()
    }

    /// The tempo of the timebase master, where there is one and it is active.
    pub fn master(&self) -> Option<Tempo>
        ensures { tempo_numbers result ≡ numbers_of (active_master (state_of_plan self.now)) }
    {
        self.graph.active_tempo()
    }

    /// For how many cycles slow clients are waited for, where a change said so.
    pub fn timeout(&self) -> Option<u32>
        ensures { result ≡ (state_of_plan self.now).timeout }
    {
        self.graph.timeout
    }
}

impl Numbered for Plan {
    ghost use Rattle.cycle_plan.specs.Plans.{Planned};

    ghost base = { λ (plan : Planned). plan.base };

    ghost content = { λ (plan : Planned). plan.changes };

    fn number(&self) -> u32 {
        Plan::number(self)
    }
}

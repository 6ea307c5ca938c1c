//! The layout of a plan.

ghost use Rattle.std.specs.Prelude.{◌≡◌, ◌≤◌, [], IfOk, filter, length};
ghost use Rattle.std.specs.List.Sorted.{IsPermutation};
ghost use Rattle.graph_word.specs.jack_types.specs.declared.ports.Client.{Client as ClientRecord};
ghost use Rattle.port_registry.specs.session_laws.specs.LoopFree.{IsLoopFree};
ghost use Rattle.graph_word.specs.session_model.specs.Activation.{AreLinks};
ghost use Rattle.graph_word.specs.session_model.specs.Ids.{node_links};
ghost use Rattle.graph_word.specs.session_model.specs.Soundness.{Apart};
ghost use Rattle.cycle_plan.specs.Layouts.{CanLayOut, JoinsEdges, is_player, laid_out};

use crate::links::{link_nodes, node_places};
use crate::nodes::order_nodes;
use feedback_edges::node_table;
use graph_word::jack_types::{Client, Edge, Link, Memory, Port};
use std::alloc::Global;
use std::marker::Model;

/// The greatest number of open clients, `system` among them.
pub const MOST_CLIENTS: usize = 65;

/// The greatest number of connections, and so of links.
pub const MOST_LINKS: usize = 512;

/// The nodes of a plan and the links between them, in memory that is taken once.
#[derive(Drop)]
pub struct Layout {
    nodes: Vec<Client>,
    links: Vec<Link>,
}

impl Model for Layout {
    ghost use Rattle.std.specs.Prelude.{◌≤◌};
    ghost use Rattle.std.specs.Vec.{vec_capacity};
    ghost use Rattle.cycle_plan.specs.Layouts.{LaidOut};

    ghost Value = { LaidOut };

    ghost view = { λ l. record { nodes = l.nodes.items; links = l.links.items } };

    ghost invariant = { λ l. (65 ≤ vec_capacity l.nodes) × (512 ≤ vec_capacity l.links) };
}

impl Layout {
    /// No nodes, and room for the most.
    pub fn new(alloc: Global) -> Result<Layout, Memory>
        ensures nodes { IfOk result (λ l. l.nodes ≡ []) }
        ensures links { IfOk result (λ l. l.links ≡ []) }
    {
        let Ok(nodes) = Vec::with_capacity(alloc, MOST_CLIENTS) else {
            return Err(Memory);
        };
        let Ok(links) = Vec::with_capacity(alloc, MOST_LINKS) else {
            return Err(Memory);
        };
        Ok(Layout { nodes, links })
    }

    /// Lays out the nodes and links anew. It takes no memory.
    pub fn fill(&mut self, clients: &[Client], ports: &[Port], edges: &[Edge])
        requires { CanLayOut clients.now ports.now edges.now }
        ensures plan { self.new ≡ laid_out clients.now ports.now edges.now }
        ensures few_nodes { length self.new.nodes ≤ length clients.now }
        ensures few_links { length self.new.links ≤ length edges.now }
        ensures players { IsPermutation (filter is_player clients.now) self.new.nodes }
        ensures joined { JoinsEdges ports.now self.new.nodes edges.now self.new.links }
        ensures upward { IsLoopFree (node_links ports.now edges.now) → Apart (λ (client : ClientRecord). client.id.0) clients.now → AreLinks (length self.new.nodes) self.new.links }
    {
        let table = node_table(ports);
        order_nodes(&mut self.nodes, clients, edges, &table);
        let places = node_places(&self.nodes);
        link_nodes(&mut self.links, edges, &table, &places);
    }

    /// The nodes, in an order in which direct edges go upward.
    pub fn nodes(&self) -> &[Client]
        ensures { result.now ≡ self.now.nodes }
    {
        &self.nodes
    }

    /// The links, each once.
    pub fn links(&self) -> &[Link]
        ensures { result.now ≡ self.now.links }
    {
        &self.links
    }
}

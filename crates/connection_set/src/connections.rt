//! A set of connections.

ghost use Rattle.std.specs.Prelude.{◌≡◌, ℕ, ◌<◌, filter, not, ◌≤◌, List, [], ◌∷◌, ◌++◌, length, None, Some, IfOk, IfErr, OnOk, OnErr, IsOk};
ghost use Rattle.std.specs.List.{list_any};
ghost use Rattle.session_laws.specs.session_model.specs.Commands.{is_input};
ghost use Rattle.session_laws.specs.session_model.specs.Ids.{open_port};
ghost use Rattle.connection_set.specs.Connections.{ConnectionSet, connect_refusal, disconnect_refusal, edge_at, is_at, joins as joins_by, with_direct, without_edge, without_port, MakesConnection, RefusesConnect, RefusesDisconnect, TakesConnection, TakesPort};

use bitflags::Flags;
use session_laws::jack_types::{Edge, Mark, Memory, Port, PortFlags, PortId, Refusal};
use std::alloc::Global;
use std::marker::Model;

/// The greatest number of connections.
pub const MOST_EDGES: usize = 512;

/// The connections, in the order of making.
///
/// Contracts see the list of the edges, and for how many there is room.
#[derive(Drop)]
pub struct Connections {
    edges: Vec<Edge>,
}

impl Model for Connections {
    ghost use Rattle.std.specs.Prelude.{◌≤◌, length};
    ghost use Rattle.std.specs.Vec.{vec_capacity};
    ghost use Rattle.connection_set.specs.Connections.{ConnectionSet};

    ghost Value = { ConnectionSet };

    ghost view = { λ c. record { edges = c.edges.items; room = vec_capacity c.edges } };

    ghost invariant = { λ c. length c.edges.items ≤ 512 };
}

/// Whether an edge goes from the one port to the other.
fn joins(edge: &Edge, source: PortId, destination: PortId) -> bool
    ensures { result ≡ joins_by source destination edge.now }
{
    edge.source == source && edge.destination == destination
}

/// Whether a port is at either end of an edge.
fn has_end(edge: &Edge, port: PortId) -> bool
    ensures { result ≡ is_at port edge.now }
{
    edge.source == port || edge.destination == port
}

/// Whether one of the edges goes from the one port to the other.
fn are_joined(edges: &[Edge], source: PortId, destination: PortId) -> bool
    ensures { result ≡ list_any (joins_by source destination) edges.now }
{
    for edge in edges {
        if joins(edge, source, destination) {
            return true;
        }
    }
    false
}

/// Whether data goes into the port.
fn takes_data(port: &Port) -> bool
    ensures { result ≡ is_input (open_port port.now) }
{
    port.flags.contains(PortFlags::IS_INPUT)
}

impl Connections {
    /// No connection, and no room.
    pub fn new(alloc: Global) -> Result<Connections, Memory>
        ensures edges { IfOk result (λ set. set.edges ≡ []) }
        ensures room { IfOk result (λ set. set.room ≡ 0) }
    {
        Ok(Connections {
            edges: Vec::new(alloc),
        })
    }

    /// Takes room for so many connections in all. Within the room `insert` never lacks memory.
    pub fn reserve(&mut self, edges: u32) -> Result<(), Memory>
        ensures room { OnOk result (edges ≤ self.new.room) }
        ensures kept { self.old.room ≤ self.new.room }
        ensures edges { self.new.edges ≡ self.old.edges }
        ensures err { OnErr result (self.new ≡ self.old) }
    {
        let more = (edges as usize).saturating_sub(self.edges.len());
        match self.edges.reserve_exact(more) {
            Ok(()) => Ok(()),
            Err(_) => Err(Memory),
        }
    }

    /// Whether a connection may be made between these ports, as they were looked up.
    #[tactic(auto, using(crate::proofs::StateLemmas::refuses_connect))]
    pub fn check(&self, source: Option<Port>, destination: Option<Port>) -> Result<(), Refusal>
        ensures ok { OnOk result (connect_refusal self.now.edges source destination ≡ None) }
        ensures refused { IfErr result (λ r. connect_refusal self.now.edges source destination ≡ Some r) }
        ensures command { RefusesConnect self.now.edges source destination }
    {
        let Some(source) = source else {
            return Err(Refusal::NoSource);
        };
        let Some(destination) = destination else {
            return Err(Refusal::NoDestination);
        };
        if takes_data(&source) {
            return Err(Refusal::NotOutput);
        }
        if !takes_data(&destination) {
            return Err(Refusal::NotInput);
        }
        if source.kind != destination.kind {
            return Err(Refusal::TypeDiffers);
        }
        if !source.active || !destination.active {
            return Err(Refusal::Inactive);
        }
        if are_joined(&self.edges, source.id, destination.id) {
            return Err(Refusal::Exists);
        }
        if self.edges.len() >= MOST_EDGES {
            return Err(Refusal::Full);
        }
        Ok(())
    }

    /// Makes a connection that `check` allows. Its edge goes last.
    pub fn insert(&mut self, source: Port, destination: Port, mark: Mark) -> Result<(), Memory>
        requires { connect_refusal self.old.edges (Some source) (Some destination) ≡ None }
        ensures ok { OnOk result (self.new.edges ≡ self.old.edges ++ record { source = source.id; destination = destination.id; mark = mark } ∷ []) }
        ensures effect { OnOk result (MakesConnection self.old.edges source destination mark self.new.edges) }
        ensures err { OnErr result (self.new ≡ self.old) }
        ensures room { length self.old.edges < self.old.room → IsOk result }
        ensures kept { self.old.room ≤ self.new.room }
    {
        // The room is taken first, so that want of memory leaves it as it was.
        if self.edges.reserve(1).is_err() {
            return Err(Memory);
        }
        let edge = Edge {
            source: source.id,
            destination: destination.id,
            mark,
        };
        match self.edges.push(edge) {
            Ok(()) => Ok(()),
            Err(_) => unreachable!(),
        }
    }

    /// Takes away the connection between these ports, as they were looked up. The rest keeps its order.
    #[tactic(auto, using(crate::proofs::StateLemmas::refuses_disconnect))]
    pub fn remove(&mut self, source: Option<Port>, destination: Option<Port>) -> Result<(), Refusal>
        ensures ok { OnOk result (disconnect_refusal self.old.edges source destination ≡ None) }
        ensures refused { IfErr result (λ r. disconnect_refusal self.old.edges source destination ≡ Some r) }
        ensures command { RefusesDisconnect self.old.edges source destination }
        ensures effect { OnOk result (TakesConnection self.old.edges source destination self.new.edges) }
        ensures removed { OnOk result (self.new.edges ≡ without_edge source destination self.old.edges) }
        ensures err { OnErr result (self.new ≡ self.old) }
        ensures room { self.new.room ≡ self.old.room }
    {
        let Some(source) = source else {
            return Err(Refusal::NoSource);
        };
        let Some(destination) = destination else {
            return Err(Refusal::NoDestination);
        };
        if !are_joined(&self.edges, source.id, destination.id) {
            return Err(Refusal::NotConnected);
        }
        self.remove_joining(source.id, destination.id);
        Ok(())
    }

    /// Takes away the edges from the one port to the other.
    fn remove_joining(&mut self, source: PortId, destination: PortId)
        ensures edges { self.new.edges ≡ filter (λ edge. not (joins_by source destination edge)) self.old.edges }
        ensures room { self.new.room ≡ self.old.room }
    {
        self.edges.retain(|edge| !joins(edge, source, destination));
    }

    /// Makes the feedback edge at this place direct.
    pub fn direct(&mut self, place: u32)
        requires there { place < length self.old.edges }
        requires feedback { (edge_at self.old.edges place).mark ≡ Mark.Feedback }
        ensures edges { self.new.edges ≡ with_direct place self.old.edges }
        ensures room { self.new.room ≡ self.old.room }
    {
        self.edges[place as usize].mark = Mark::Direct;
    }

    /// Takes away the edges at this port, at either end. The rest keeps its order.
    pub fn drop_port(&mut self, port: PortId)
        ensures edges { self.new.edges ≡ without_port port self.old.edges }
        ensures effect { TakesPort self.old.edges port self.new.edges }
        ensures room { self.new.room ≡ self.old.room }
    {
        self.edges.retain(|edge| !has_end(edge, port));
    }

    /// The edges, in the order of making: never more than 512.
    pub fn edges(&self) -> &[Edge]
        ensures edges { result.now ≡ self.now.edges }
        ensures few { length self.now.edges ≤ 512 }
    {
        &self.edges
    }
}

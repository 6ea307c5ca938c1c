//! A graph as commands change it.

ghost use Rattle.std.specs.Prelude.{◌≡◌, ◌≤◌, IfOk, IsTrue, OnErr, length};
ghost use Rattle.graph_word.specs.session_model.specs.Commands.{after, refusal};
ghost use Rattle.graph_word.specs.session_model.specs.Replies.{is_change};
ghost use Rattle.graph_word.specs.session_model.specs.State.{opening};
ghost use Rattle.port_registry.specs.Answers.{AnswersExactly};
ghost use Rattle.port_registry.specs.Registered.{client_by};
ghost use Rattle.cycle_plan.specs.Graphs.{HasTempo, IsNetwork, state_of};

use crate::layout::{MOST_CLIENTS, MOST_LINKS};
use crate::masters::Mastership;
use feedback_edges::MOST_PORTS;
use feedback_edges::connection_set::Connections;
use graph_word::jack_types::{Client, ClientName, Command, Edge, Memory, Refusal};
use port_registry::{PortIter, Registry};
use std::alloc::Global;
use std::marker::Model;
use tempo_map::Tempo;

/// The clients, ports and connections, the timebase master and the timeout, as commands change them.
///
/// Contracts see what the registry holds and the connections by ids, and the state of the definitions that these are.
#[derive(Drop)]
pub struct Graph {
    pub(crate) registry: Registry,
    pub(crate) connections: Connections,
    pub(crate) master: Option<Mastership>,
    pub(crate) timeout: Option<u32>,
}

impl Model for Graph {
    ghost use Rattle.std.specs.Option.{option_map};
    ghost use Rattle.cycle_plan.specs.Graphs.{Network};
    ghost use Rattle.cycle_plan.specs.Masters.{master_of};

    ghost Value = { Network };

    ghost view = { λ g. record { held = g.registry; set = g.connections; master = option_map master_of g.master; timeout = g.timeout } };

    ghost use Rattle.cycle_plan.specs.Graphs.{IsNetwork};

    ghost invariant = { λ g. IsNetwork (record { held = g.registry; set = g.connections; master = option_map master_of g.master; timeout = g.timeout }) };
}

impl Graph {
    /// The opening state: `system` with its ports and nothing else. It takes room for the most clients, ports and
    /// connections, and no later call takes memory.
    pub fn new(alloc: Global, capture: u16, playback: u16) -> Result<Graph, Memory>
        requires capture { capture ≤ 8 }
        requires playback { playback ≤ 8 }
        ensures opening { IfOk result (λ graph. state_of graph ≡ opening capture playback) }
        ensures network { IfOk result (λ graph. IsNetwork graph) }
    {
        let mut registry = Registry::new(alloc, capture, playback)?;
        registry.reserve(MOST_CLIENTS as u32, MOST_PORTS as u32)?;
        let mut connections = Connections::new(alloc)?;
        connections.reserve(MOST_LINKS as u32)?;
        Ok(Graph {
            registry,
            connections,
            master: None,
            timeout: None,
        })
    }

    /// Applies a command under the number of its change, or answers the first refusal.
    ///
    /// Where a command takes an edge away, the marks of those that are left are made anew.
    pub fn apply(&mut self, number: u32, command: &Command) -> Result<(), Refusal>
        requires change { IsTrue (is_change command.now) }
        requires tempo { HasTempo command.now }
        ensures answer { AnswersExactly (refusal (state_of self.old) command.now) result }
        ensures after { state_of self.new ≡ after (state_of self.old) number command.now }
        ensures same { OnErr result (self.new ≡ self.old) }
    {
        match command {
            Command::Open { client, kind } => self.open(client, *kind, number),
            Command::Close { client } => self.close(client),
            Command::Activate { client } => self.activate(client),
            Command::Deactivate { client } => self.deactivate(client),
            Command::Register { port, way, kind } => self.register(port, *way, *kind, number),
            Command::Unregister { port } => self.unregister(port),
            Command::Connect {
                source,
                destination,
            } => self.connect(source, destination),
            Command::Disconnect {
                source,
                destination,
            } => self.disconnect(source, destination),
            Command::Timeout { cycles } => self.set_timeout(*cycles),
            Command::Slow { client, cycles } => self.slow(client, *cycles),
            Command::Timebase {
                client,
                mbpm,
                beats,
                ticks,
            } => {
                let tempo = Tempo {
                    mbpm: *mbpm,
                    beats: *beats,
                    ticks: *ticks,
                };
                self.lead(client, tempo)
            }
            Command::TimebaseIf {
                client,
                mbpm,
                beats,
                ticks,
            } => {
                let tempo = Tempo {
                    mbpm: *mbpm,
                    beats: *beats,
                    ticks: *ticks,
                };
                self.lead_if_free(client, tempo)
            }
            Command::Release { client } => self.release(client),
            Command::Start | Command::Stop | Command::Locate { .. } => Ok(()),
            Command::Latency { .. } => unreachable!(),
        }
    }

    /// The client of this name, inactive ones too.
    pub fn client(&self, name: &ClientName) -> Option<Client>
        ensures value { result ≡ client_by self.now.held name.now }
        ensures network { IsNetwork self.now }
    {
        self.registry.client(name)
    }

    /// The open clients, in order of opening.
    pub fn clients(&self) -> &[Client]
        ensures value { result.now ≡ self.now.held.clients }
        ensures network { IsNetwork self.now }
    {
        self.registry.clients()
    }

    /// The ports, in order of birth.
    pub fn ports(&self) -> PortIter<'_>
        ensures value { result ≡ self.now.held.ports }
        ensures network { IsNetwork self.now }
    {
        self.registry.ports()
    }

    /// The connections, in order of making.
    pub fn edges(&self) -> &[Edge]
        ensures value { result.now ≡ self.now.set.edges }
        ensures few { length self.now.set.edges ≤ 512 }
        ensures network { IsNetwork self.now }
    {
        self.connections.edges()
    }
}

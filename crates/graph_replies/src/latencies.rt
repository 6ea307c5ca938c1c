//! Latency ranges of a graph's ports, one at a time.

ghost use Rattle.std.specs.Prelude.{◌≡◌, ◌≤◌, length, map, position, take};
ghost use Rattle.std.specs.Vec.{vec_capacity};
ghost use Rattle.cycle_plan.specs.port_registry.specs.Registered.{is_named};
ghost use Rattle.session_model.specs.Latencies.{delay_of_kind};
ghost use Rattle.cycle_plan.specs.Graphs.{IsNetwork, state_of};
ghost use Rattle.latency_ranges.specs.Graphs.{latencies_in};
ghost use Rattle.graph_replies.specs.Told.{HasShortDelays, delay_of, latency_told};

use cycle_plan::Graph;
use jack_types::{Client, Delay, Kind, Memory, Mode, Node, Port, PortName, Range};
use latency_ranges::ranges;
use std::alloc::Global;
use std::marker::Model;

/// The greatest number of ports.
const MOST_PORTS: usize = 2064;

/// The greatest number of open clients, `system` among them.
const MOST_CLIENTS: usize = 65;

/// Memory for the ranges of a graph's ports, all of it taken by `new`. Contracts see nothing of it.
#[derive(Drop)]
pub struct Latencies {
    table: Vec<Range>,
    delays: Vec<Delay>,
}

impl Model for Latencies {
    ghost use Rattle.std.specs.Prelude.{⊤, ◌≡◌, ◌≤◌, length};
    ghost use Rattle.std.specs.Vec.{vec_capacity};

    ghost Value = { ⊤ };

    ghost view = { λ _. tt };

    ghost invariant = { λ l. (length l.table.items ≡ 2064) × (65 ≤ vec_capacity l.delays) };
}

/// By how many frames a client of this kind is late.
fn frames_of(kind: Kind) -> u32
    ensures { result ≡ delay_of_kind kind }
{
    match kind {
        Kind::Delay { frames } => frames,
        _ => 0,
    }
}

/// A client's delay.
fn delay_of_client(client: &Client) -> Delay
    ensures { result ≡ delay_of client.now }
{
    Delay {
        node: Node::Client(client.id),
        frames: frames_of(client.kind),
    }
}

/// Lists the delays of the clients.
fn list_delays(delays: &mut Vec<Delay>, clients: &[Client])
    requires { length clients.now ≤ vec_capacity delays.old }
    ensures delays { delays.new.items ≡ map delay_of clients.now }
    ensures room { vec_capacity delays.old ≤ vec_capacity delays.new }
{
    delays.clear();
    for client in clients {
        delays.push_reserved(delay_of_client(client));
    }
}

/// Where the port of this name stands.
fn place_of(ports: &[Port], name: &PortName) -> Option<usize>
    ensures { result ≡ position (is_named name.now) ports.now }
{
    ports
        .iter()
        .position(|port| port.name.text() == name.text())
}

/// Sets the ranges of a graph's ports, at their places.
fn set_ranges(table: &mut [Range], graph: &Graph, delays: &[Delay], mode: Mode)
    requires room { length table.old ≡ 2064 }
    requires delays { delays.now ≡ map delay_of graph.now.held.clients }
    requires short { HasShortDelays (state_of graph.now) }
    ensures room { length table.new ≡ 2064 }
    ensures ranges { take (length graph.now.held.ports) table.new ≡ latencies_in (state_of graph.now) mode graph.now.held.ports }
    ensures network { IsNetwork graph.now }
{
    let list = graph.ports();
    let ports = list.as_slice();
    let first = &mut table[..ports.len()];
    ranges(ports, graph.edges(), delays, mode, first);
}

impl Latencies {
    /// Room for the greatest graph.
    pub fn new(alloc: Global) -> Result<Latencies, Memory> {
        let none = Range { min: 0, max: 0 };
        let Ok(table) = vec![in alloc; none; MOST_PORTS] else {
            return Err(Memory);
        };
        let Ok(delays) = Vec::with_capacity(alloc, MOST_CLIENTS) else {
            return Err(Memory);
        };
        Ok(Latencies { table, delays })
    }

    /// The range of the port of this name in frames, since capture or until playback, if there is such a port.
    pub fn of_port(&mut self, graph: &Graph, mode: Mode, name: &PortName) -> Option<Range>
        requires { HasShortDelays (state_of graph.now) }
        ensures { result ≡ latency_told (state_of graph.now) mode name.now }
    {
        let list = graph.ports();
        match place_of(list.as_slice(), name) {
            Some(place) => {
                list_delays(&mut self.delays, graph.clients());
                set_ranges(&mut self.table, graph, &self.delays, mode);
                Some(self.table[place])
            }
            None => None,
        }
    }
}

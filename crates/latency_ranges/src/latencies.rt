//! The ranges of all ports.

ghost use Rattle.std.specs.Prelude.{◌≡◌, ◌≤◌, All, length, replicate};
ghost use Rattle.jack_types.specs.declared.ports.Delay.{Delay as DelayRecord};
ghost use Rattle.session_model.specs.Latencies.{no_range};
ghost use Rattle.session_model.specs.State.{State};
ghost use Rattle.latency_ranges.specs.Graphs.{IsGraph, IsStateOf, latencies_in, ranges_of};
ghost use Rattle.latency_ranges.specs.Tables.{Shows, handed_within, is_far};

use crate::joins::join_edges;
use crate::passes::pass_clients;
use jack_types::{Delay, Edge, Mode, Port, Range};

/// Makes all ranges (0, 0).
fn clear(table: &mut [Range])
    ensures { table.new ≡ replicate (length table.old) no_range }
{
    for place in 0..table.len() {
        table[place] = Range { min: 0, max: 0 };
    }
}

/// Goes over edges and clients in turn until no range over a client is another than before.
fn settle(ports: &[Port], edges: &[Edge], delays: &[Delay], mode: Mode, table: &mut [Range])
    requires room { length table.old ≡ length ports.now }
    requires graph { IsGraph ports.now edges.now }
    requires delays { All (λ (delay : DelayRecord). delay.frames ≤ 4096) delays.now }
    requires none { table.old ≡ replicate (length ports.now) no_range }
    ensures room { length table.new ≡ length ports.now }
    ensures far { Shows (is_far mode) (handed_within ports.now edges.now delays.now mode (length ports.now)) ports.now table.new }
{
    for depth in 0..ports.len() {
        let _clients: usize = depth;
        join_edges(ports, edges, mode, table);
        if !pass_clients(ports, delays, mode, table) {
            return;
        }
    }
}

/// Sets the range of each port, at its place, in frames: since capture, or until playback.
///
/// Ports and edges are those of a graph, each edge from an output to an input of the ports. A node
/// without a delay has 0. It takes no memory.
pub fn ranges(ports: &[Port], edges: &[Edge], delays: &[Delay], mode: Mode, out: &mut [Range])
    requires room { length out.old ≡ length ports.now }
    requires graph { IsGraph ports.now edges.now }
    requires delays { All (λ (delay : DelayRecord). delay.frames ≤ 4096) delays.now }
    ensures ranges { out.new ≡ ranges_of ports.now edges.now delays.now mode }
    ensures states { (state : State) → IsStateOf state ports.now edges.now delays.now → out.new ≡ latencies_in state mode ports.now }
{
    clear(out);
    settle(ports, edges, delays, mode, out);
    join_edges(ports, edges, mode, out);
}

//! The two ends of edges: a range is joined over edges at one of them, and over a client at the other.

ghost use Rattle.std.specs.Prelude.{◌≡◌, ◌<◌, ◌^◌};
ghost use Rattle.session_model.specs.Commands.{is_input};
ghost use Rattle.session_model.specs.Ids.{open_port};
ghost use Rattle.latency_ranges.specs.Tables.{far_end as far_end_of, is_beside as is_beside_node, is_edge_at as is_edge_at_port, is_near as is_near_in, near_end as near_end_of};

use bitflags::Flags;
use jack_types::{Edge, Mark, Mode, Node, Port, PortFlags, PortId};

/// Whether data goes into the port.
fn takes_data(port: &Port) -> bool
    ensures { result ≡ is_input (open_port port.now) }
{
    port.flags.contains(PortFlags::IS_INPUT)
}

/// The id of a number.
fn numbered(number: u16) -> PortId
    ensures value { result ≡ record { 0 = number } }
    ensures fits { number < 2 ^ 16 }
{
    PortId(number)
}

/// The port's id.
pub(crate) fn id_of(port: &Port) -> PortId
    ensures value { result ≡ port.now.id }
    ensures fits { result.0 < 2 ^ 16 }
{
    numbered(port.id.0)
}

/// Whether the port's range is the join over its own edges: since capture an input's is, until
/// playback an output's.
pub(crate) fn is_near(mode: Mode, port: &Port) -> bool
    ensures { result ≡ is_near_in mode port.now }
{
    match mode {
        Mode::Capture => takes_data(port),
        Mode::Playback => !takes_data(port),
    }
}

/// The end of an edge whose range is the join over its edges.
fn near_end(mode: Mode, edge: &Edge) -> PortId
    ensures { result ≡ near_end_of mode edge.now }
{
    match mode {
        Mode::Capture => edge.destination,
        Mode::Playback => edge.source,
    }
}

/// The other end.
pub(crate) fn far_end(mode: Mode, edge: &Edge) -> PortId
    ensures { result ≡ far_end_of mode edge.now }
{
    match mode {
        Mode::Capture => edge.source,
        Mode::Playback => edge.destination,
    }
}

/// Whether it is a direct edge over which the port's range is joined.
pub(crate) fn is_edge_at(mode: Mode, id: PortId, edge: &Edge) -> bool
    ensures { result ≡ is_edge_at_port mode id edge.now }
{
    edge.mark == Mark::Direct && near_end(mode, edge) == id
}

/// Whether a node's client has the port, and the port's range is joined over its edges.
pub(crate) fn is_beside(mode: Mode, node: Node, port: &Port) -> bool
    ensures { result ≡ is_beside_node mode node port.now }
{
    port.node == node && is_near(mode, port)
}

//! Joins of ranges over edges.

ghost use Rattle.std.specs.Prelude.{◌≡◌, ◌<◌, ◌^◌, true, false, Some, length, map, filter, position, slice_get, slice_index_or};
ghost use Rattle.jack_types.specs.declared.ports.Edge.{Edge as EdgeRecord};
ghost use Rattle.jack_types.specs.declared.ports.Port.{Port as PortRecord};
ghost use Rattle.jack_types.specs.declared.ports.Range.{Range as RangeRecord};
ghost use Rattle.session_model.specs.Latencies.{joined, no_range};
ghost use Rattle.latency_ranges.specs.Graphs.{IsGraph};
ghost use Rattle.latency_ranges.specs.Tables.{HaveIds, IsSameElsewhere, Shows, at_port, bears, brought, far_end as far_end_of, is_edge_at as is_edge_at_port, is_far, is_near as is_near_in, join_with, or_none as or_no_range};

use crate::sides::{far_end, id_of, is_edge_at, is_near};
use jack_types::{Edge, Mode, Port, PortId, Range};

/// What was joined so far, if anything, with one more range.
pub(crate) fn joined_to(so_far: Option<Range>, next: Range) -> Range
    ensures { result ≡ join_with so_far next }
{
    match so_far {
        Some(range) => Range {
            min: range.min.min(next.min),
            max: range.max.max(next.max),
        },
        None => next,
    }
}

/// The join, (0, 0) of nothing.
pub(crate) fn or_none(so_far: Option<Range>) -> Range
    ensures { result ≡ or_no_range so_far }
{
    match so_far {
        Some(range) => range,
        None => Range { min: 0, max: 0 },
    }
}

/// The place of the port with this id.
fn place_of(ports: &[Port], id: PortId) -> Option<usize>
    ensures { result ≡ position (bears id) ports.now }
{
    ports.iter().position(|port| port.id == id)
}

/// The range that stands at the port with this id.
fn range_at(ports: &[Port], id: PortId, table: &[Range]) -> Range
    requires { length table.now ≡ length ports.now }
    ensures { result ≡ at_port ports.now table.now id }
{
    match place_of(ports, id) {
        Some(place) => table[place],
        None => Range { min: 0, max: 0 },
    }
}

/// The join over a port's edges, of the ranges at their other ends.
#[tactic(auto, using(crate::proofs::JoinLemmas::joined_or_none, crate::proofs::JoinLemmas::joined_step, crate::proofs::JoinLemmas::joined_skip))]
fn join_along(ports: &[Port], edges: &[Edge], mode: Mode, id: PortId, table: &[Range]) -> Range
    requires { length table.now ≡ length ports.now }
    ensures { result ≡ joined (map (λ (edge : EdgeRecord). at_port ports.now table.now (far_end_of mode edge)) (filter (is_edge_at_port mode id) edges.now)) }
{
    let mut so_far = None;
    for edge in edges {
        if is_edge_at(mode, id, edge) {
            so_far = Some(joined_to(so_far, range_at(ports, far_end(mode, edge), table)));
        }
    }
    or_none(so_far)
}

/// Joins the ranges over the edges of the port at this place, where its range is such a join.
fn join_place(ports: &[Port], edges: &[Edge], mode: Mode, place: usize, table: &mut [Range])
    requires room { length table.old ≡ length ports.now }
    requires place { place < length ports.now }
    requires graph { IsGraph ports.now edges.now }
    ensures room { length table.new ≡ length ports.now }
    ensures ids { (port : PortRecord) → slice_get ports.now place ≡ Some port → port.id.0 < 2 ^ 16 }
    ensures elsewhere { IsSameElsewhere place table.old table.new }
    ensures far { (port : PortRecord) → slice_get ports.now place ≡ Some port → is_near_in mode port ≡ false → table.new ≡ table.old }
    ensures near { (port : PortRecord) → slice_get ports.now place ≡ Some port → is_near_in mode port ≡ true
        → (range : PortRecord → RangeRecord) → Shows (is_far mode) range ports.now table.old → slice_index_or table.new place no_range ≡ brought ports.now edges.now mode range port }
{
    let port = &ports[place];
    let id = id_of(port);
    if is_near(mode, port) {
        table[place] = join_along(ports, edges, mode, id, table);
    }
}

/// Joins the ranges over edges, of all ports whose ranges are such joins.
pub(crate) fn join_edges(ports: &[Port], edges: &[Edge], mode: Mode, table: &mut [Range])
    requires room { length table.old ≡ length ports.now }
    requires graph { IsGraph ports.now edges.now }
    ensures room { length table.new ≡ length ports.now }
    ensures ids { HaveIds (length ports.now) ports.now }
    ensures far { (range : PortRecord → RangeRecord) → Shows (is_far mode) range ports.now table.old → Shows (is_far mode) range ports.now table.new }
    ensures near { (range : PortRecord → RangeRecord) → Shows (is_far mode) range ports.now table.old → Shows (is_near_in mode) (brought ports.now edges.now mode range) ports.now table.new }
{
    for place in 0..ports.len() {
        join_place(ports, edges, mode, place, table);
    }
}

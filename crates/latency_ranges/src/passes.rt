//! Ranges over clients: the join of a client's ports, plus its delay.

ghost use Rattle.std.specs.Prelude.{◌≡◌, ◌<◌, true, false, Some, length, slice_get, slice_index_or};
ghost use Rattle.jack_types.specs.declared.ports.Port.{Port as PortRecord};
ghost use Rattle.jack_types.specs.declared.ports.Range.{Range as RangeRecord};
ghost use Rattle.session_model.specs.Ids.{delay_at, same_id_node};
ghost use Rattle.session_model.specs.Latencies.{later_by, no_range};
ghost use Rattle.latency_ranges.specs.Graphs.{is_device as is_device_node};
ghost use Rattle.latency_ranges.specs.Tables.{IsSameElsewhere, Shows, beside, capped, held, is_far, is_near as is_near_in};

use crate::joins::{joined_to, or_none};
use crate::sides::{is_beside, is_near};
use jack_types::{Delay, Mode, Node, Port, Range};

/// Whether it is a node of `system`.
fn is_device(node: Node) -> bool
    ensures { result ≡ is_device_node node }
{
    match node {
        Node::Client(_) => false,
        _ => true,
    }
}

/// Whether it is the delay of the node.
fn is_of(delay: &Delay, node: Node) -> bool
    ensures { result ≡ same_id_node (delay.now.node) node }
{
    delay.node == node
}

/// By how many frames a node is late.
fn delay_of(delays: &[Delay], node: Node) -> u32
    ensures { result ≡ delay_at delays.now node }
{
    for delay in delays {
        if is_of(delay, node) {
            return delay.frames;
        }
    }
    0
}

/// A range, so many frames later.
fn later(range: Range, frames: u32) -> Range
    ensures { result ≡ capped (later_by frames range) }
{
    Range {
        min: range.min.saturating_add(frames),
        max: range.max.saturating_add(frames),
    }
}

/// The join of a client's ports that are joined over their edges.
fn join_beside(ports: &[Port], mode: Mode, node: Node, table: &[Range]) -> Range
    requires { length table.now ≡ length ports.now }
    ensures { (range : PortRecord → RangeRecord) → Shows (is_near_in mode) range ports.now table.now → result ≡ beside ports.now mode range node }
{
    let mut so_far = None;
    for place in 0..ports.len() {
        if is_beside(mode, node, &ports[place]) {
            so_far = Some(joined_to(so_far, table[place]));
        }
    }
    or_none(so_far)
}

/// The range over a node's client, of its ports on the other side; none of `system`.
fn passed(ports: &[Port], delays: &[Delay], mode: Mode, node: Node, table: &[Range]) -> Range
    requires { length table.now ≡ length ports.now }
    ensures { (range : PortRecord → RangeRecord) → Shows (is_near_in mode) range ports.now table.now → result ≡ held ports.now delays.now mode range node }
{
    if is_device(node) {
        return Range { min: 0, max: 0 };
    }
    // No sum reaches the limit: no range is joined over more clients than there are ports.
    later(
        join_beside(ports, mode, node, table),
        delay_of(delays, node),
    )
}

/// Sets a range, and says whether it is another than before.
fn set_range(table: &mut [Range], place: usize, range: Range) -> bool
    requires { place < length table.old }
    ensures room { length table.new ≡ length table.old }
    ensures elsewhere { IsSameElsewhere place table.old table.new }
    ensures at { slice_index_or table.new place no_range ≡ range }
    ensures same { result ≡ false → table.new ≡ table.old }
{
    if table[place] == range {
        return false;
    }
    table[place] = range;
    true
}

/// Passes a range over the client of the port at this place, where its range is not a join over its
/// edges. Says whether it is another than before.
fn pass_place(
    ports: &[Port],
    delays: &[Delay],
    mode: Mode,
    place: usize,
    table: &mut [Range],
) -> bool
    requires room { length table.old ≡ length ports.now }
    requires place { place < length ports.now }
    ensures room { length table.new ≡ length ports.now }
    ensures elsewhere { IsSameElsewhere place table.old table.new }
    ensures near { (port : PortRecord) → slice_get ports.now place ≡ Some port → is_near_in mode port ≡ true → table.new ≡ table.old }
    ensures far { (port : PortRecord) → slice_get ports.now place ≡ Some port → is_near_in mode port ≡ false
        → (range : PortRecord → RangeRecord) → Shows (is_near_in mode) range ports.now table.old → slice_index_or table.new place no_range ≡ held ports.now delays.now mode range port.node }
    ensures same { result ≡ false → table.new ≡ table.old }
{
    let port = &ports[place];
    if is_near(mode, port) {
        return false;
    }
    let range = passed(ports, delays, mode, port.node, table);
    set_range(table, place, range)
}

/// Passes ranges over clients, of all ports whose ranges are no joins over edges. Says whether one is
/// another than before.
pub(crate) fn pass_clients(
    ports: &[Port],
    delays: &[Delay],
    mode: Mode,
    table: &mut [Range],
) -> bool
    requires { length table.old ≡ length ports.now }
    ensures room { length table.new ≡ length ports.now }
    ensures far { (range : PortRecord → RangeRecord) → Shows (is_near_in mode) range ports.now table.old → Shows (is_far mode) (λ (port : PortRecord). held ports.now delays.now mode range port.node) ports.now table.new }
    ensures same { result ≡ false → table.new ≡ table.old }
{
    let mut changed = false;
    for place in 0..ports.len() {
        if pass_place(ports, delays, mode, place, table) {
            changed = true;
        }
    }
    changed
}

//! Copies of a client's outputs.

ghost use Rattle.std.specs.Prelude.{◌≡◌, ◌+◌, ◌*◌, ◌<◌, ◌≤◌, ◌++◌, All, drop, length, map, slice_range, take, vec_capacity};
ghost use Rattle.client_kinds.specs.Buffers.{buffers_of, with_buffer};
ghost use Rattle.client_benches.specs.Rooms.{signal_of, with_output};
ghost use Rattle.client_benches.specs.Routes.{carried_by, HasOutput, IsBelow};

use crate::values::Route;
use client_kinds::Shape;

/// Copies samples to a place.
fn put_at(buffers: &mut [i32], first: usize, samples: &[i32])
    requires { first + length samples.now ≤ length buffers.old }
    ensures { buffers.new ≡ take first buffers.old ++ (samples.now ++ drop (first + length samples.now) buffers.old) }
{
    buffers[first..first + samples.len()].copy_from_slice(samples);
}

/// Copies an output to its place among sixteen.
fn copy_output(buffers: &mut [i32], ports: Shape, outputs: &[i32], output: u16)
    requires port { output < ports.outputs }
    requires room { ports.outputs * ports.period ≤ length buffers.old }
    requires outputs { ports.outputs * ports.period ≤ length outputs.now }
    ensures { buffers.new ≡ with_buffer ports.period output buffers.old (slice_range outputs.now (output * ports.period) (output * ports.period + ports.period)) }
{
    let first = usize::from(output) * ports.period as usize;
    put_at(
        buffers,
        first,
        &outputs[first..first + ports.period as usize],
    );
}

/// Copies what a connection carries, if it carries audio.
fn copy_carried(buffers: &mut [i32], ports: Shape, outputs: &[i32], output: Option<u16>)
    requires port { IsBelow ports.outputs output }
    requires room { ports.outputs * ports.period ≤ length buffers.old }
    requires outputs { ports.outputs * ports.period ≤ length outputs.now }
    ensures { buffers.new ≡ with_output ports.period outputs.now buffers.old output }
{
    if let Some(output) = output {
        copy_output(buffers, ports, outputs, output);
    }
}

/// Copies the outputs that the connections of a link carry, and lists which these are.
pub(crate) fn copy_routes(
    carried: &mut Vec<Option<u16>>,
    buffers: &mut [i32],
    routes: &[Route],
    link: u32,
    ports: Shape,
    outputs: &[i32],
)
    requires few { length routes.now ≤ 512 }
    requires routes { All (HasOutput ports.outputs) routes.now }
    requires capacity { 512 ≤ vec_capacity carried.old }
    requires room { ports.outputs * ports.period ≤ length buffers.old }
    requires outputs { ports.outputs * ports.period ≤ length outputs.now }
    ensures capacity { vec_capacity carried.new ≡ vec_capacity carried.old }
    ensures room { length buffers.new ≡ length buffers.old }
    ensures ports { All (IsBelow ports.outputs) carried.new.items }
    ensures signals { map (signal_of ports.period buffers.new) carried.new.items ≡ carried_by ports.period (buffers_of ports.outputs ports.period outputs.now) link routes.now }
{
    carried.clear();
    for route in routes {
        if route.link == link {
            copy_carried(buffers, ports, outputs, route.output);
            carried.push_reserved(route.output);
        }
    }
}

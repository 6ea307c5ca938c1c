//! Planar buffers.

ghost use Rattle.std.specs.Prelude.{◌≡◌, ℕ, ◌+◌, ◌*◌, ◌<◌, ◌≤◌, List, ℤ, length, replicate, slice_range, take};
ghost use Rattle.port_mixer.specs.session_model.specs.Kinds.{input_at};
ghost use Rattle.port_mixer.specs.session_model.specs.Samples.{silence};
ghost use Rattle.client_kinds.specs.Buffers.{buffers_of, with_buffer};

use crate::guests::Shape;
use crate::sounds::fill_silence;

/// The buffer at a place.
#[tactic(auto, using(crate::proofs::BufferLemmas::place_within))]
pub(crate) fn buffer_at(ports: Shape, input: &[i32], place: usize) -> &[i32]
    requires input { length input.now ≡ ports.inputs * ports.period }
    requires place { place < ports.inputs }
    ensures length { length result.now ≡ ports.period }
    ensures value { result.now ≡ slice_range input.now (place * ports.period) (place * ports.period + ports.period) }
{
    let first = place * ports.period as usize;
    &input[first..first + ports.period as usize]
}

/// The samples of an input, silence where there is no input at the place.
#[tactic(auto, using(crate::proofs::BufferLemmas::buffer_within, crate::proofs::BufferLemmas::buffer_past, crate::proofs::BufferLemmas::take_silence))]
pub(crate) fn heard<'a>(
    ports: Shape,
    input: &'a [i32],
    place: usize,
    silent: &'a [i32],
) -> &'a [i32]
    requires input { length input.now ≡ ports.inputs * ports.period }
    requires room { ports.period ≤ length silent.now }
    requires silent { silent.now ≡ silence (length silent.now) }
    ensures length { length result.now ≡ ports.period }
    ensures value { result.now ≡ input_at ports.period (buffers_of ports.inputs ports.period input.now) place }
{
    if place < usize::from(ports.inputs) {
        buffer_at(ports, input, place)
    } else {
        &silent[..ports.period as usize]
    }
}

/// Copies the first buffer to another place.
fn copy_first(output: &mut [i32], period: usize, place: usize)
    requires first { period ≤ place * period }
    requires room { place * period + period ≤ length output.old }
    ensures { output.new ≡ with_buffer period place output.old (take period output.old) }
{
    let (first, others) = output.split_at_mut(place * period);
    others[..period].copy_from_slice(&first[..period]);
}

/// Silence at each place.
#[tactic(auto, using(crate::proofs::BufferLemmas::silent_buffers))]
pub(crate) fn fill_silent(ports: Shape, output: &mut [i32])
    requires { length output.old ≡ ports.outputs * ports.period }
    ensures { buffers_of ports.outputs ports.period output.new ≡ replicate ports.outputs (silence ports.period) }
{
    fill_silence(output);
}

/// Copies the first buffer to all places. A guest plays the same on all its outputs.
pub fn repeat_first(ports: Shape, output: &mut [i32])
    requires { length output.old ≡ ports.outputs * ports.period }
    ensures { buffers_of ports.outputs ports.period output.new ≡ replicate ports.outputs (take ports.period output.old) }
{
    for place in 1..usize::from(ports.outputs) {
        copy_first(output, ports.period as usize, place);
    }
}

//! What a guest hears.

ghost use Rattle.std.specs.Prelude.{◌≡◌, ◌*◌, [], length, slice_index_or};
ghost use Rattle.client_kinds.specs.Buffers.{buffers_of};
ghost use Rattle.session_model.specs.Samples.{sample};

use client_kinds::Shape;

/// The samples of an input, none where there is no such input.
#[tactic(auto, using(crate::proofs::PlaceLemmas::heard_within, crate::proofs::PlaceLemmas::heard_past, client_kinds::proofs::BufferLemmas::place_within))]
pub(crate) fn heard(ports: Shape, input: &[i32], place: usize) -> &[i32]
    requires { length input.now ≡ ports.inputs * ports.period }
    ensures { result.now ≡ slice_index_or (buffers_of ports.inputs ports.period input.now) place [] }
{
    if place < usize::from(ports.inputs) {
        let period = ports.period as usize;
        &input[place * period..place * period + period]
    } else {
        &input[..0]
    }
}

/// The sample at a frame, 0 past the end.
pub(crate) fn sample_at(x: &[i32], frame: usize) -> i32
    ensures { result ≡ sample x.now frame }
{
    if frame < x.len() { x[frame] } else { 0 }
}

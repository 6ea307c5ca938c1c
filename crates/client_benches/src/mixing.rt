//! The mix of an input.

ghost use Rattle.std.specs.Prelude.{◌≡◌, ◌*◌, ◌<◌, ◌≤◌, All, IsSome, length, map};
ghost use Rattle.activation.specs.Values.{values_of};
ghost use Rattle.activation.specs.session_model.specs.Benches.{audio_part};
ghost use Rattle.activation.specs.session_model.specs.Samples.{mix};
ghost use Rattle.client_kinds.specs.Buffers.{buffers_of, with_buffer};
ghost use Rattle.client_benches.specs.Wires.{inputs_of, parts_into};

use crate::gathering::Few;
use crate::values::Rooms;
use crate::wires::Wire;
use client_kinds::Shape;
use client_kinds::port_mixer::Mixer;

/// Mixes an input from its wires, in one walk over them.
fn mix_input<'a>(
    mixer: &mut Mixer,
    padded: &mut [i32],
    wires: &'a [Wire],
    given: &'a [Option<Rooms>],
    input: u16,
    out: &mut [i32],
)
    requires given { All IsSome given.now }
    requires few { length wires.now ≤ 512 }
    requires room { length out.old ≤ mixer.old.room }
    requires frames { (length padded.old ≡ length out.old) × (length out.old ≤ 4096) }
    ensures mixed { out.new ≡ mix (length out.old) (map (audio_part (values_of given.now)) (parts_into wires.now input)) }
    ensures room { mixer.new.room ≡ mixer.old.room }
    ensures frames { length padded.new ≡ length padded.old }
{
    mixer.clear(out.len() as u32);
    let mut few = Few::new();
    for wire in wires {
        if wire.input == input {
            few.gather(mixer, padded, wire.part(wires, given));
        }
    }
    few.settle(mixer, padded, out);
}

/// Mixes an input into its place among planar buffers.
fn mix_place(
    mixer: &mut Mixer,
    padded: &mut [i32],
    wires: &[Wire],
    given: &[Option<Rooms>],
    ports: Shape,
    input: u16,
    inputs: &mut [i32],
)
    requires given { All IsSome given.now }
    requires few { length wires.now ≤ 512 }
    requires room { ports.period ≤ mixer.old.room }
    requires frames { (ports.period ≤ length padded.old) × (ports.period ≤ 4096) }
    requires input { input < ports.inputs }
    requires inputs { ports.inputs * ports.period ≤ length inputs.old }
    ensures value { inputs.new ≡ with_buffer ports.period input inputs.old (mix ports.period (map (audio_part (values_of given.now)) (parts_into wires.now input))) }
    ensures room { mixer.new.room ≡ mixer.old.room }
    ensures frames { length padded.new ≡ length padded.old }
{
    let period = ports.period as usize;
    let first = usize::from(input) * period;
    let place = &mut inputs[first..first + period];
    mix_input(mixer, &mut padded[..period], wires, given, input, place);
}

/// Mixes all inputs into planar buffers.
pub(crate) fn mix_inputs(
    mixer: &mut Mixer,
    padded: &mut [i32],
    wires: &[Wire],
    given: &[Option<Rooms>],
    ports: Shape,
    inputs: &mut [i32],
)
    requires given { All IsSome given.now }
    requires few { length wires.now ≤ 512 }
    requires room { ports.period ≤ mixer.old.room }
    requires frames { (ports.period ≤ length padded.old) × (ports.period ≤ 4096) }
    requires inputs { ports.inputs * ports.period ≤ length inputs.old }
    ensures length { length inputs.new ≡ length inputs.old }
    ensures mixed { buffers_of ports.inputs ports.period inputs.new ≡ inputs_of ports.period wires.now (values_of given.now) ports.inputs }
    ensures room { mixer.new.room ≡ mixer.old.room }
    ensures frames { length padded.new ≡ length padded.old }
{
    for input in 0..ports.inputs {
        mix_place(mixer, padded, wires, given, ports, input, inputs);
    }
}

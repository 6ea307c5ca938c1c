//! What a guest hears, and where it plays.

ghost use Rattle.std.specs.Prelude.{◌≡◌, ◌*◌, ◌≤◌, ◌*ℤ◌, length};
ghost use Rattle.std.specs.Int.{int_shr};
ghost use Rattle.session_model.specs.Kinds.{input_at};
ghost use Rattle.session_model.specs.Samples.{sample};
ghost use Rattle.client_kinds.specs.Buffers.{buffers_of};
ghost use Rattle.guests.specs.Turns.{SoundsAs};

use client_kinds::Shape;

/// The samples of the first input, none where there is no input.
pub(crate) fn first_input(ports: Shape, input: &[i32]) -> &[i32]
    requires { length input.now ≡ ports.inputs * ports.period }
    ensures { SoundsAs result.now (input_at ports.period (buffers_of ports.inputs ports.period input.now) 0) }
{
    if ports.inputs == 0 {
        &input[..0]
    } else {
        &input[..ports.period as usize]
    }
}

/// The sample at a frame, 0 past the end.
pub(crate) fn sample_at(x: &[i32], frame: usize) -> i32
    ensures { result ≡ sample x.now frame }
{
    if frame < x.len() { x[frame] } else { 0 }
}

/// The product of two numbers of 32 bits.
pub(crate) fn product(a: i32, b: i32) -> i64
    ensures { result ≡ a *ℤ b }
{
    i64::from(a) * i64::from(b)
}

/// A sum shifted right, rounded down.
pub(crate) fn shifted(sum: i64, shift: u32) -> i64
    requires { shift ≤ 31 }
    ensures { result ≡ int_shr sum shift }
{
    sum >> shift
}

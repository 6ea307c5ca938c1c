ghost use Rattle.std.specs.Prelude.{◌≡◌, ◌<◌, ◌≤◌, true};
ghost use Rattle.session_model.specs.WaveFiles.{is_width};

use samples::to_bytes;
use std::alloc::{AllocError, Global};
use std::test::Fail;

// Puts the bytes of one sample there, if it has as many.
fn put_sample(bits: u16, sample: i32, out: &mut [u8]) {
    match (bits, out.len()) {
        (8, 1) | (16, 2) | (24, 3) | (32, 4) => to_bytes(bits, &[sample], out),
        _ => {}
    }
}

// Stores 0, 1, 2 and so on in `width` bytes each.
fn count_up(bytes: &mut [u8], width: usize)
    requires { 0 < width }
{
    for (k, number) in bytes.chunks_exact_mut(width).enumerate() {
        let counted = k.to_le_bytes();
        match number {
            [low] => *low = counted[0],
            [low, high, ..] => {
                *low = counted[0];
                *high = counted[1];
            }
            [] => {}
        }
    }
}

// Steps up from the first sample, and on from the least where the most is passed.
fn ramp(samples: &mut [i32], first: i32, step: i32) {
    let mut next = first;
    for sample in samples.iter_mut() {
        *sample = next;
        next = next.wrapping_add(step);
    }
}

// Writes one sample at a time, which never is a whole block.
fn write_singly(bits: u16, width: usize, samples: &[i32], out: &mut [u8])
    requires { 0 < width }
{
    for (sample, number) in samples.iter().zip(out.chunks_exact_mut(width)) {
        put_sample(bits, *sample, number);
    }
}

// Whether a ramp is written as the numbers 0, 1, 2 and so on.
fn are_written(
    alloc: Global,
    bits: u16,
    frames: usize,
    first: i32,
    step: i32,
) -> Result<bool, AllocError>
    requires bits { is_width bits ≡ true }
    requires frames { frames ≤ 4096 }
{
    let width = usize::from(bits) / 8;
    let mut wanted = vec![in alloc; 0u8; frames * width]?;
    count_up(&mut wanted, width);
    let mut samples = vec![in alloc; 0i32; frames]?;
    ramp(&mut samples, first, step);
    let mut blocks = vec![in alloc; 7u8; frames * width]?;
    let mut singly = vec![in alloc; 7u8; frames * width]?;
    to_bytes(bits, &samples, &mut blocks);
    write_singly(bits, width, &samples, &mut singly);
    Ok(blocks == wanted && singly == wanted)
}

// The bits that a width leaves out are ones.
#[test]
fn blocks_are_written_as_single_samples_are(rt: HostRuntime) -> Result<(), Fail> {
    for frames in [0usize, 1, 3, 7, 8, 9, 17, 4096] {
        let least = i32::MIN + 16_777_215;
        assert!(rt; are_written(rt.alloc(), 8, frames, least, 16_777_216)?);
        assert!(rt; are_written(rt.alloc(), 16, frames, 65_535, 65_536)?);
        assert!(rt; are_written(rt.alloc(), 24, frames, 255, 256)?);
        assert!(rt; are_written(rt.alloc(), 32, frames, 0, 1)?);
    }
    Ok(())
}

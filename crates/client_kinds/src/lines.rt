//! The lines of a delay.

ghost use Rattle.std.specs.Prelude.{◌≡◌, ℕ, ◌+◌, ◌*◌, ◌<◌, ◌≤◌, ◌++◌, List, ℤ, All, IfOk, drop, length, map, replicate, take};
ghost use Rattle.port_mixer.specs.session_model.specs.Kinds.{delayed};
ghost use Rattle.port_mixer.specs.session_model.specs.Samples.{below, sample, silence};
ghost use Rattle.client_kinds.specs.Buffers.{buffers_of};
ghost use Rattle.circular_buffer.specs.Buffer.{buffer};
ghost use Rattle.client_kinds.specs.Lines.{AreQuiet, IsFilled, IsWhole, items_of};

use crate::buffers::heard;
use crate::guests::Shape;
use circular_buffer::HeapCircularBuffer;
use std::alloc::{AllocError, Global};

/// A line with so many zeros.
#[tactic(auto, using(crate::proofs::LineLemmas::kept_whole))]
fn silent_line(alloc: Global, zeros: &[i32]) -> Result<HeapCircularBuffer<i32>, AllocError>
    ensures { IfOk result (λ line. line ≡ buffer zeros.now (length zeros.now)) }
{
    let mut line = HeapCircularBuffer::with_capacity(alloc, zeros.len())?;
    line.extend_from_slice(zeros);
    Ok(line)
}

/// So many lines with so many zeros.
pub(crate) fn silent_lines(
    alloc: Global,
    count: usize,
    frames: u32,
) -> Result<Vec<HeapCircularBuffer<i32>>, AllocError>
    ensures { IfOk result (λ lines. lines.items ≡ replicate count (buffer (silence frames) frames)) }
{
    let zeros = vec![in alloc; 0; frames as usize]?;
    let mut lines = Vec::new(alloc);
    for i in 0..count {
        let _place: usize = i;
        lines.push(silent_line(alloc, &zeros)?)?;
    }
    Ok(lines)
}

/// Copies samples to a place.
fn put_at(part: &mut [i32], place: usize, samples: &[i32])
    requires { place + length samples.now ≤ length part.old }
    ensures { part.new ≡ take place part.old ++ (samples.now ++ drop (place + length samples.now) part.old) }
{
    part[place..place + samples.len()].copy_from_slice(samples);
}

/// Copies samples behind so many that are there, as many as there is room for. Says how many are there then.
fn copy_behind(part: &mut [i32], filled: usize, samples: &[i32]) -> usize
    requires { filled ≤ length part.old }
    ensures within { result ≤ length part.new }
    ensures length { length part.new ≡ length part.old }
    ensures filled { (before : List ℤ) → IsFilled part.old filled before → IsFilled part.new result (before ++ samples.now) }
{
    let count = samples.len().min(part.len() - filled);
    put_at(part, filled, &samples[..count]);
    filled + count
}

/// The first samples of a line in two pieces and of the input behind it.
fn fill_pieces(front: &[i32], back: &[i32], x: &[i32], part: &mut [i32])
    requires { length x.now ≡ length part.old }
    ensures { part.new ≡ take (length part.old) ((front.now ++ back.now) ++ x.now) }
{
    let filled = copy_behind(part, 0, front);
    let filled = copy_behind(part, filled, back);
    copy_behind(part, filled, x);
}

/// The first samples of a line in two pieces and of the input behind it: of the first piece alone, where it has
/// as many.
fn fill_behind(front: &[i32], back: &[i32], x: &[i32], part: &mut [i32])
    requires { length x.now ≡ length part.old }
    ensures { part.new ≡ take (length part.old) ((front.now ++ back.now) ++ x.now) }
{
    if part.len() <= front.len() {
        part.copy_from_slice(&front[..part.len()]);
    } else {
        fill_pieces(front, back, x, part);
    }
}

/// The first samples of a line and of the input behind it.
pub(crate) fn fill_delayed(line: &HeapCircularBuffer<i32>, x: &[i32], part: &mut [i32])
    requires { length x.now ≡ length part.old }
    ensures { part.new ≡ take (length part.old) (line.now.items ++ x.now) }
{
    let (front, back) = line.as_slices();
    fill_behind(front, back, x, part);
}

/// Puts the input behind a full line, and takes as many samples from its front.
#[tactic(auto, using(crate::proofs::LineLemmas::kept_last))]
fn step_line(line: &mut HeapCircularBuffer<i32>, x: &[i32])
    requires { IsWhole line.old }
    ensures items { line.new.items ≡ drop (length x.now) (line.old.items ++ x.now) }
    ensures whole { IsWhole line.new }
{
    line.extend_from_slice(x);
}

/// Steps the lines of all places, and says how many of them have got anything but silence by now.
///
/// A line that has got nothing else is silent from end to end, and stays what it is where it gets silence again.
pub(crate) fn step_lines(
    lines: &mut [HeapCircularBuffer<i32>],
    reached: usize,
    ports: Shape,
    input: &[i32],
    silent: &[i32],
) -> usize
    requires whole { All IsWhole lines.old }
    requires quiet { AreQuiet reached lines.old }
    requires input { length input.now ≡ ports.inputs * ports.period }
    requires room { ports.period ≤ length silent.now }
    requires silent { silent.now ≡ silence (length silent.now) }
    ensures whole { All IsWhole lines.new }
    ensures quiet { AreQuiet result lines.new }
    ensures count { length lines.new ≡ length lines.old }
    ensures items { items_of lines.new ≡ map (λ j. drop ports.period (delayed ports.period (items_of lines.old) (buffers_of ports.inputs ports.period input.now) j)) (below (length lines.old)) }
{
    let reached = reached.max(usize::from(ports.inputs));
    for place in 0..reached.min(lines.len()) {
        let line = &mut lines[place];
        step_line(line, heard(ports, input, place, silent));
    }
    reached
}

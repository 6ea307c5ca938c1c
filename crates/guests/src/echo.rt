//! A guest that adds an echo.

ghost use Rattle.std.specs.Prelude.{◌≡◌, ◌+ℤ◌, ◌*ℤ◌, ◌≤◌, ◌++◌, [], ◌∷◌, IfOk, drop, length, take};
ghost use Rattle.circular_buffer.specs.Buffer.{buffer};
ghost use Rattle.std.specs.Int.{int_shr};
ghost use Rattle.guests.specs.Sounds.{echoed, last};
ghost use Rattle.session_model.specs.Samples.{clamp, sample, silence};
ghost use Rattle.jack_types.specs.Taps.{IsTap};
ghost use Rattle.guests.specs.Turns.{IsLine, IsWithin, heard};

use crate::hearing::{first_input, product, sample_at, shifted};
use circular_buffer::HeapCircularBuffer;
use client_kinds::{Guest, Shape, repeat_first};
use jack_types::{Memory, Moment, Score};
use std::alloc::{AllocError, Global};
use std::marker::Model;

/// Plays what it hears, and what it played so many frames before, times a gain and shifted right.
#[derive(Drop)]
pub struct EchoGuest {
    frames: u32,
    gain: i32,
    shift: u32,
    line: HeapCircularBuffer<i32>,
}

impl Model for EchoGuest {
    ghost use Rattle.jack_types.specs.declared.kinds.Score.TheVariants.{Echo};
    ghost use Rattle.client_kinds.specs.Seats.{Playing};
    ghost use Rattle.guests.specs.Guests.{IsEchoed};
    ghost use Rattle.guests.specs.Sounds.{numbers_of};
    ghost use Rattle.guests.specs.Turns.{IsLine};

    ghost Value = { Playing };

    ghost view = { λ guest. record { score = numbers_of (Echo guest.frames guest.gain guest.shift); numbers = guest.line.items } };

    ghost invariant = { λ guest. IsEchoed guest.frames guest.gain guest.shift × IsLine guest.frames guest.line };
}

impl EchoGuest {
    ghost use Rattle.std.specs.Prelude.{◌≡◌, IfOk};
    ghost use Rattle.guests.specs.Guests.{IsEcho};
    ghost use Rattle.guests.specs.Sounds.{first_of, numbers_of};

    /// The guest of a score in its first memory.
    pub fn new(alloc: Global, score: Score) -> Result<EchoGuest, Memory>
        requires { IsEcho score }
        ensures { IfOk result (λ guest. guest ≡ record { score = numbers_of score; numbers = first_of score }) }
    {
        match score {
            Score::Echo {
                frames,
                gain,
                shift,
            } => match silent_line(alloc, frames) {
                Ok(line) => Ok(EchoGuest {
                    frames,
                    gain,
                    shift,
                    line,
                }),
                Err(_) => Err(Memory),
            },
            _ => unreachable!(),
        }
    }
}

/// Puts as many zeros behind a line as it has room for.
fn silence_line(line: &mut HeapCircularBuffer<i32>)
    requires { length line.old.items ≤ line.old.capacity }
    ensures { line.new ≡ buffer (silence line.old.capacity) line.old.capacity }
{
    for i in 0..line.capacity() {
        let _place: usize = i;
        line.push_back(0);
    }
}

/// A line of so many zeros.
fn silent_line(alloc: Global, frames: u32) -> Result<HeapCircularBuffer<i32>, AllocError>
    ensures { IfOk result (λ line. line ≡ buffer (silence frames) frames) }
{
    let mut line = HeapCircularBuffer::with_capacity(alloc, frames as usize)?;
    silence_line(&mut line);
    Ok(line)
}

/// The oldest sample of a line, 0 of an empty one.
fn oldest(line: &HeapCircularBuffer<i32>) -> i32
    ensures { result ≡ sample line.now.items 0 }
{
    match line.front() {
        Some(past) => *past,
        None => 0,
    }
}

/// The echo of a sample.
fn echo_of(past: i32, gain: i32, shift: u32) -> i64
    requires gain { IsTap gain }
    requires shift { shift ≤ 31 }
    ensures value { result ≡ int_shr (past *ℤ gain) shift }
    ensures within { IsWithin 70368744177664 result }
{
    shifted(product(past, gain), shift)
}

/// A sample and its echo.
fn sum_of(x: i32, echo: i64) -> i64
    requires { IsWithin 70368744177664 echo }
    ensures { result ≡ x +ℤ echo }
{
    i64::from(x) + echo
}

/// A sample with its echo.
fn echoed_sample(x: i32, past: i32, gain: i32, shift: u32) -> i32
    requires gain { IsTap gain }
    requires shift { shift ≤ 31 }
    ensures { result ≡ clamp (x +ℤ int_shr (past *ℤ gain) shift) }
{
    samples::clamp64(sum_of(x, echo_of(past, gain, shift)))
}

/// Plays a frame, which goes behind the line, and drops the oldest one.
fn echo_frame(line: &mut HeapCircularBuffer<i32>, gain: i32, shift: u32, x: i32) -> i32
    requires gain { IsTap gain }
    requires shift { shift ≤ 31 }
    requires whole { IsLine line.old.capacity line.old }
    requires least { 1 ≤ line.old.capacity }
    ensures value { result ≡ clamp (x +ℤ int_shr (sample line.old.items 0 *ℤ gain) shift) }
    ensures line { line.new ≡ buffer (drop 1 line.old.items ++ result ∷ []) line.old.capacity }
{
    let y = echoed_sample(x, oldest(line), gain, shift);
    line.push_back(y);
    y
}

/// Plays frames with their echo.
fn echo_into(line: &mut HeapCircularBuffer<i32>, gain: i32, shift: u32, x: &[i32], part: &mut [i32])
    requires gain { IsTap gain }
    requires shift { shift ≤ 31 }
    requires whole { IsLine line.old.capacity line.old }
    requires least { 1 ≤ line.old.capacity }
    ensures played { part.new ≡ echoed gain shift line.old.items (heard (length part.old) x.now) }
    ensures line { line.new ≡ buffer (last line.old.capacity (line.old.items ++ echoed gain shift line.old.items (heard (length part.old) x.now))) line.old.capacity }
{
    for frame in 0..part.len() {
        part[frame] = echo_frame(line, gain, shift, sample_at(x, frame));
    }
}

/// Steps the line over a period that nobody hears.
fn echo_unheard(line: &mut HeapCircularBuffer<i32>, gain: i32, shift: u32, x: &[i32], period: usize)
    requires gain { IsTap gain }
    requires shift { shift ≤ 31 }
    requires whole { IsLine line.old.capacity line.old }
    requires least { 1 ≤ line.old.capacity }
    ensures { line.new ≡ buffer (last line.old.capacity (line.old.items ++ echoed gain shift line.old.items (heard period x.now))) line.old.capacity }
{
    for frame in 0..period {
        echo_frame(line, gain, shift, sample_at(x, frame));
    }
}

/// Plays a period with its echo on the first output, if there is one.
fn echo(
    line: &mut HeapCircularBuffer<i32>,
    gain: i32,
    shift: u32,
    period: usize,
    x: &[i32],
    output: &mut [i32],
)
    requires gain { IsTap gain }
    requires shift { shift ≤ 31 }
    requires whole { IsLine line.old.capacity line.old }
    requires least { 1 ≤ line.old.capacity }
    ensures length { length output.new ≡ length output.old }
    ensures played { period ≤ length output.old → take period output.new ≡ echoed gain shift line.old.items (heard period x.now) }
    ensures line { line.new ≡ buffer (last line.old.capacity (line.old.items ++ echoed gain shift line.old.items (heard period x.now))) line.old.capacity }
{
    if period <= output.len() {
        echo_into(line, gain, shift, x, &mut output[..period]);
    } else {
        echo_unheard(line, gain, shift, x, period);
    }
}

impl Guest for EchoGuest {
    ghost use Rattle.std.specs.Prelude.{None};
    ghost use Rattle.guests.specs.Sounds.{sound_by};

    ghost score = { λ guest. guest.score };

    ghost sound = { sound_by };

    ghost numbers = { λ guest. guest.numbers };

    ghost told = { λ _. None };

    fn process(
        &mut self,
        _moment: &Moment,
        ports: Shape,
        input: &[i32],
        output: &mut [i32],
    ) -> i32 {
        let x = first_input(ports, input);
        let period = ports.period as usize;
        echo(&mut self.line, self.gain, self.shift, period, x, output);
        repeat_first(ports, output);
        0
    }

    fn reset(&mut self) {
        silence_line(&mut self.line);
    }
}

//! A tremolo.

ghost use Rattle.std.specs.Prelude.{◌≡◌, ◌+◌, ◌*◌, ◌%◌, ◌<◌, ◌≤◌, ◌^◌, ◌*ℤ◌, [], ◌∷◌, int_div, length, map, pos};
ghost use Rattle.client_kinds.specs.Buffers.{buffers_of, with_buffer};
ghost use Rattle.session_model.specs.Kinds.{outputs_by};
ghost use Rattle.session_model.specs.Samples.{below, clamp, sample};
ghost use Rattle.guest_example.specs.Tremolos.{IsHalf, first_frame_of, gain, played, rising, tremolo_sample};

use crate::hearing::{heard, sample_at};
use client_kinds::{Guest, Shape};
use jack_types::{Moment, TransportState};

/// How many samples could be copied while one is played, which takes two divisions.
const WORK: u32 = 10;

/// Plays each input on the output of its place, louder and softer in turn. While the outputs of even
/// places get louder, those of odd places get softer: so a sound on two outputs goes from side to side.
#[derive(Drop)]
pub struct Tremolo {
    half: u32,
    frame: u32,
    ghost lawful: { IsHalf half },
}

impl Tremolo {
    /// A tremolo that gets louder for so many frames, and softer for as many.
    pub fn new(half: u32) -> Tremolo
        requires { IsHalf half }
        ensures half { result.half ≡ half }
        ensures frame { result.frame ≡ 0 }
    {
        Tremolo { half, frame: 0 }
    }
}

/// The frame of the wave at which a cycle begins. While the transport rolls it is the transport's,
/// so that the wave stands the same whenever the session is at that place.
fn first_frame(moment: &Moment, frame: u32) -> u32
    ensures { result ≡ first_frame_of moment.now (pos frame ∷ []) }
{
    match moment.state {
        TransportState::Rolling => moment.frame,
        TransportState::Stopped | TransportState::Starting => frame,
    }
}

/// The frame of the wave behind a cycle.
fn frame_behind(half: u32, start: u32, period: u32) -> u32
    requires { IsHalf half }
    ensures { result ≡ (start + period) % (2 * half) }
{
    ((u64::from(start) + u64::from(period)) % (2 * u64::from(half))) as u32
}

/// How loud the outputs of even places are at a frame, out of `half`.
fn rise(half: u32, frame: u64) -> u32
    requires { IsHalf half }
    ensures value { result ≡ rising half frame }
    ensures most { result ≤ half }
{
    let wave = 2 * u64::from(half);
    let at = frame % wave;
    at.min(wave - at) as u32
}

/// How loud an output is at a frame, out of `half`.
fn gain_at(half: u32, place: usize, frame: u64) -> u32
    requires { IsHalf half }
    ensures value { result ≡ gain half place frame }
    ensures most { result ≤ half }
{
    let risen = rise(half, frame);
    if place % 2 == 0 { risen } else { half - risen }
}

/// A sample times a gain.
fn product(x: i32, gain: u32) -> i64
    requires { gain ≤ 65536 }
    ensures { result ≡ x *ℤ pos gain }
{
    i64::from(x) * i64::from(gain)
}

/// A product in whole parts of `half`.
fn quotient(product: i64, half: u32) -> i64
    requires { IsHalf half }
    ensures { result ≡ int_div product (pos half) }
{
    product / i64::from(half)
}

/// A sample as loud as its output is at a frame.
fn sample_of(half: u32, place: usize, frame: u64, x: i32) -> i32
    requires { IsHalf half }
    ensures { result ≡ tremolo_sample half place frame x }
{
    samples::clamp64(quotient(product(x, gain_at(half, place, frame)), half))
}

/// Plays an output.
#[tactic(auto, using(client_kinds::proofs::FillLemmas::fill_more))]
fn fill_output(half: u32, start: u32, place: usize, x: &[i32], part: &mut [i32])
    requires half { IsHalf half }
    requires frames { length part.old < 2 ^ 32 }
    ensures { part.new ≡ map (λ i. tremolo_sample half place (start + i) (sample x.now i)) (below (length part.old)) }
{
    for i in 0..part.len() {
        part[i] = sample_of(half, place, u64::from(start) + i as u64, sample_at(x, i));
    }
}

/// Plays the output of a place into its buffer.
#[tactic(auto, using(client_kinds::proofs::BufferLemmas::place_within))]
fn play_place(half: u32, start: u32, ports: Shape, input: &[i32], place: usize, output: &mut [i32])
    requires half { IsHalf half }
    requires frames { ports.period < 2 ^ 32 }
    requires input { length input.now ≡ ports.inputs * ports.period }
    requires place { place < ports.outputs }
    requires output { length output.old ≡ ports.outputs * ports.period }
    ensures { output.new ≡ with_buffer ports.period place output.old (played half start ports input.now place) }
{
    let first = place * ports.period as usize;
    let part = &mut output[first..first + ports.period as usize];
    fill_output(half, start, place, heard(ports, input, place), part);
}

/// Plays the outputs of all places.
fn play_places(half: u32, start: u32, ports: Shape, input: &[i32], output: &mut [i32])
    requires half { IsHalf half }
    requires frames { ports.period < 2 ^ 32 }
    requires few { ports.outputs ≤ 16 }
    requires input { length input.now ≡ ports.inputs * ports.period }
    requires output { length output.old ≡ ports.outputs * ports.period }
    ensures { buffers_of ports.outputs ports.period output.new ≡ outputs_by ports.outputs (played half start ports input.now) }
{
    for place in 0..usize::from(ports.outputs) {
        play_place(half, start, ports, input, place, output);
    }
}

impl Guest for Tremolo {
    ghost use Rattle.std.specs.Prelude.{[], ◌∷◌, None, pos};
    ghost use Rattle.guest_example.specs.Tremolos.{sound_by};

    ghost score = { λ tremolo. pos tremolo.half ∷ [] };

    ghost sound = { sound_by };

    ghost numbers = { λ tremolo. pos tremolo.frame ∷ [] };

    ghost told = { λ _. None };

    fn process(&mut self, moment: &Moment, ports: Shape, input: &[i32], output: &mut [i32]) -> i32 {
        let start = first_frame(moment, self.frame);
        play_places(self.half, start, ports, input, output);
        self.frame = frame_behind(self.half, start, ports.period);
        0
    }

    fn work(&self, ports: Shape) -> u32 {
        ports.period.saturating_mul(WORK * u32::from(ports.outputs))
    }

    fn reset(&mut self) {
        self.frame = 0;
    }
}

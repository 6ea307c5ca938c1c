//! The part of a bench that asks no guest.

ghost use Rattle.std.specs.Prelude.{◌≡◌, ℕ, ◌+◌, ◌*◌, ◌<◌, ◌≤◌, ◌^◌, ◌%◌, [], All, IfOk, fold, length, map, take};
ghost use Rattle.port_mixer.specs.session_model.specs.Kinds.{click_sample, first, input_at, peak_with};
ghost use Rattle.port_mixer.specs.session_model.specs.Samples.{below, mix, silence};
ghost use Rattle.client_kinds.specs.Buffers.{buffers_of, channels_of};
ghost use Rattle.client_kinds.specs.Lines.{AreQuiet, IsWhole, items_of};
ghost use Rattle.client_kinds.specs.Sounds.{sound};
ghost use Rattle.client_kinds.specs.Standings.{IsPlayable, IsDisk};
ghost use Rattle.client_kinds.specs.Rooms.{HasMixed, HasRoom};

use crate::buffers::{buffer_at, heard};
use crate::guests::Shape;
use crate::lines::{fill_delayed, silent_lines, step_lines};
use crate::sounds::{fill_channel, fill_click, fill_silence, fill_tone, peak_behind, play_gain};
use circular_buffer::HeapCircularBuffer;
use port_mixer::jack_types::{Kind, Moment, TransportState};
use port_mixer::{Mixer, see_samples};
use std::alloc::{AllocError, Global};
use std::marker::Model;

/// What a kind remembers, with the room that it plays in.
#[derive(Drop)]
pub(crate) struct Voice {
    kind: Kind,
    period: u32,
    silent: Vec<i32>,
    lines: Vec<HeapCircularBuffer<i32>>,
    // How many of the lines have got anything but silence.
    reached: usize,
    phase: u32,
    peak: u32,
    block: Vec<i32>,
    channels: u16,
}

impl Model for Voice {
    ghost use Rattle.client_kinds.specs.Voices.{Voiced, voiced, IsVoice};

    ghost Value = { Voiced };

    ghost view = { voiced };

    ghost invariant = { IsVoice };
}

/// The lines that a kind begins with.
fn first_lines(alloc: Global, kind: Kind) -> Result<Vec<HeapCircularBuffer<i32>>, AllocError>
    ensures items { IfOk result (λ lines. items_of lines.items ≡ (first [] kind).lines) }
    ensures whole { IfOk result (λ lines. All IsWhole lines.items) }
    ensures quiet { IfOk result (λ lines. AreQuiet 0 lines.items) }
{
    match kind {
        Kind::Delay { frames } => silent_lines(alloc, 16, frames),
        _ => Ok(Vec::new(alloc)),
    }
}

/// The room for a block of eight channels, where a kind is fed.
fn block_room(alloc: Global, kind: Kind, period: u32) -> Result<Vec<i32>, AllocError>
    ensures { IfOk result (λ block. HasRoom kind period (length block.items)) }
{
    match kind {
        Kind::Disk { .. } => vec![in alloc; 0; 8 * period as usize],
        _ => Ok(Vec::new(alloc)),
    }
}

impl Voice {
    ghost use Rattle.std.specs.Prelude.{◌≡◌, ℕ, ◌+◌, ◌*◌, ◌<◌, ◌≤◌, ◌^◌, [], IfOk, length, map};
    ghost use Rattle.port_mixer.specs.session_model.specs.Kinds.{first, outputs_by};
    ghost use Rattle.port_mixer.specs.session_model.specs.Samples.{below};
    ghost use Rattle.client_kinds.specs.Buffers.{buffers_of, channels_of, with_buffer};
    ghost use Rattle.client_kinds.specs.Sounds.{sound, stepped};
    ghost use Rattle.client_kinds.specs.Standings.{IsPlayable, IsDisk};
    ghost use Rattle.client_kinds.specs.Rooms.{IsMixed};
    ghost use Rattle.client_kinds.specs.Voices.{Voiced};

    /// The voice of a kind in its first memory, for cycles of at most so many frames.
    pub(crate) fn new(alloc: Global, kind: Kind, period: u32) -> Result<Voice, AllocError>
        requires { IsPlayable kind }
        ensures { IfOk result (λ voice. voice ≡ record { kind = kind; period = period; memory = first [] kind }) }
    {
        let silent = vec![in alloc; 0; period as usize]?;
        let lines = first_lines(alloc, kind)?;
        let block = block_room(alloc, kind, period)?;
        Ok(Voice {
            kind,
            period,
            silent,
            lines,
            reached: 0,
            phase: 0,
            peak: 0,
            block,
            channels: 0,
        })
    }

    /// The kind.
    pub(crate) fn kind(&self) -> Kind
        ensures { result ≡ self.now.kind }
    {
        self.kind
    }

    /// The peak.
    pub(crate) fn peak(&self) -> u32
        ensures { result ≡ self.now.memory.peak }
    {
        self.peak
    }

    /// Keeps a block for the next cycle.
    pub(crate) fn feed(&mut self, samples: &[i32], channels: u16)
        requires kind { IsDisk self.old.kind }
        requires channels { channels ≤ 8 }
        requires samples { length samples.now ≡ channels * self.old.period }
        ensures { self.new ≡ record self.old { memory = record self.old.memory { fed = channels_of channels self.old.period samples.now } } }
    {
        keep_block(&mut self.block, channels, self.period, samples);
        self.channels = channels;
    }

    /// Plays the output of a place.
    fn fill(
        &self,
        mixer: &Mixer,
        moment: &Moment,
        ports: Shape,
        input: &[i32],
        place: usize,
        part: &mut [i32],
    )
        requires mixed { IsMixed self.now.kind ports.inputs ports.period (buffers_of ports.inputs ports.period input.now) mixer.now.sums }
        requires rate { 8000 ≤ moment.now.rate }
        requires frames { moment.now.frame + ports.period < 2 ^ 32 }
        requires period { ports.period ≤ self.now.period }
        requires input { length input.now ≡ ports.inputs * ports.period }
        requires place { place < 16 }
        requires part { length part.old ≡ ports.period }
        ensures { part.new ≡ sound self.now.kind self.now.memory moment.now ports.period (buffers_of ports.inputs ports.period input.now) place }
    {
        match self.kind {
            Kind::Pass => part.copy_from_slice(heard(ports, input, place, &self.silent)),
            Kind::Gain { factor, shift } => {
                play_gain(
                    heard(ports, input, place, &self.silent),
                    factor,
                    shift,
                    part,
                )
            }
            Kind::Mix => fill_mix(mixer, ports, input, part),
            Kind::Delay { .. } => {
                fill_delayed(
                    &self.lines[place],
                    heard(ports, input, place, &self.silent),
                    part,
                )
            }
            Kind::Tone { half, level } => fill_tone(half, level, self.phase, part),
            Kind::Click { level } => fill_beats(level, moment, part),
            Kind::Disk { .. } => fill_fed(&self.block, self.channels, self.period, place, part),
            _ => fill_silence(part),
        }
    }

    /// Plays the outputs of all places.
    pub(crate) fn fill_all(
        &self,
        mixer: &Mixer,
        moment: &Moment,
        ports: Shape,
        input: &[i32],
        output: &mut [i32],
    )
        requires mixed { IsMixed self.now.kind ports.inputs ports.period (buffers_of ports.inputs ports.period input.now) mixer.now.sums }
        requires rate { 8000 ≤ moment.now.rate }
        requires frames { moment.now.frame + ports.period < 2 ^ 32 }
        requires period { ports.period ≤ self.now.period }
        requires input { length input.now ≡ ports.inputs * ports.period }
        requires few { ports.outputs ≤ 16 }
        requires output { length output.old ≡ ports.outputs * ports.period }
        ensures { buffers_of ports.outputs ports.period output.new ≡ outputs_by ports.outputs (sound self.now.kind self.now.memory moment.now ports.period (buffers_of ports.inputs ports.period input.now)) }
    {
        for place in 0..usize::from(ports.outputs) {
            self.fill_place(mixer, moment, ports, input, place, output);
        }
    }

    /// Plays the output of a place into its buffer.
    #[tactic(auto, using(crate::proofs::BufferLemmas::place_within))]
    fn fill_place(
        &self,
        mixer: &Mixer,
        moment: &Moment,
        ports: Shape,
        input: &[i32],
        place: usize,
        output: &mut [i32],
    )
        requires mixed { IsMixed self.now.kind ports.inputs ports.period (buffers_of ports.inputs ports.period input.now) mixer.now.sums }
        requires rate { 8000 ≤ moment.now.rate }
        requires frames { moment.now.frame + ports.period < 2 ^ 32 }
        requires period { ports.period ≤ self.now.period }
        requires input { length input.now ≡ ports.inputs * ports.period }
        requires few { ports.outputs ≤ 16 }
        requires place { place < ports.outputs }
        requires output { length output.old ≡ ports.outputs * ports.period }
        ensures value { output.new ≡ with_buffer ports.period place output.old (sound self.now.kind self.now.memory moment.now ports.period (buffers_of ports.inputs ports.period input.now) place) }
        ensures length { length (sound self.now.kind self.now.memory moment.now ports.period (buffers_of ports.inputs ports.period input.now) place) ≡ ports.period }
    {
        let first = place * ports.period as usize;
        let part = &mut output[first..first + ports.period as usize];
        self.fill(mixer, moment, ports, input, place, part);
    }

    /// Goes on to the next cycle.
    pub(crate) fn step(&mut self, ports: Shape, input: &[i32])
        requires period { ports.period ≤ self.old.period }
        requires input { length input.now ≡ ports.inputs * ports.period }
        ensures { self.new ≡ record self.old { memory = stepped self.old.kind self.old.memory ports.period (buffers_of ports.inputs ports.period input.now) } }
    {
        match self.kind {
            Kind::Delay { .. } => {
                self.reached = step_lines(&mut self.lines, self.reached, ports, input, &self.silent)
            }
            Kind::Tone { half, .. } => self.phase = phase_behind(half, self.phase, ports.period),
            Kind::Meter => self.peak = peak_of(self.peak, ports, input),
            Kind::Disk { .. } => self.channels = 0,
            _ => {}
        }
    }
}

/// The mix of the inputs. An input alone is copied, and no sum of it is looked at.
#[tactic(auto, using(crate::proofs::BufferLemmas::length_sums, crate::proofs::MixLemmas::mixed_alone))]
fn fill_mix(mixer: &Mixer, ports: Shape, input: &[i32], part: &mut [i32])
    requires mixed { HasMixed ports.inputs ports.period (buffers_of ports.inputs ports.period input.now) mixer.now.sums }
    requires input { length input.now ≡ ports.inputs * ports.period }
    requires part { length part.old ≡ ports.period }
    ensures { part.new ≡ mix ports.period (buffers_of ports.inputs ports.period input.now) }
{
    if ports.inputs == 1 {
        let only = buffer_at(ports, input, 0);
        see_samples(only);
        part.copy_from_slice(only);
    } else {
        mixer.settle(part);
    }
}

/// The level at each beat, while the transport rolls and there is a tempo.
#[tactic(auto, using(crate::proofs::ClickLemmas::click_stopped, crate::proofs::ClickLemmas::click_starting, crate::proofs::ClickLemmas::click_untimed))]
fn fill_beats(level: i32, moment: &Moment, part: &mut [i32])
    requires rate { 8000 ≤ moment.now.rate }
    requires frames { moment.now.frame + length part.old < 2 ^ 32 }
    ensures { part.new ≡ map (click_sample level moment.now) (below (length part.old)) }
{
    match moment.state {
        TransportState::Rolling => match moment.bbt {
            Some(place) => fill_click(level, place.mbpm, moment.rate, moment.frame, part),
            None => fill_silence(part),
        },
        TransportState::Stopped => fill_silence(part),
        TransportState::Starting => fill_silence(part),
    }
}

/// The front of a channel of the block that was fed, silence past the last one.
#[tactic(auto, using(crate::proofs::BufferLemmas::channel_front, crate::proofs::BufferLemmas::channel_past))]
fn fill_fed(block: &[i32], channels: u16, period: u32, place: usize, part: &mut [i32])
    requires block { channels * period ≤ length block.now }
    requires part { length part.old ≤ period }
    ensures { part.new ≡ take (length part.old) (input_at (length part.old) (channels_of channels period block.now) place) }
{
    if place < usize::from(channels) {
        fill_channel(block, usize::from(channels), place, part)
    } else {
        fill_silence(part)
    }
}

/// The frame of a wave's length behind a period.
fn phase_behind(half: u32, phase: u32, period: u32) -> u32
    requires least { 1 ≤ half }
    requires most { half ≤ 65536 }
    ensures value { result ≡ (phase + period) % (2 * half) }
    ensures within { result < 2 * half }
{
    ((u64::from(phase) + u64::from(period)) % (2 * u64::from(half))) as u32
}

/// The greatest magnitude of all inputs, or the peak before where that is greater.
fn peak_of(peak: u32, ports: Shape, input: &[i32]) -> u32
    requires { length input.now ≡ ports.inputs * ports.period }
    ensures { result ≡ fold peak_with peak (buffers_of ports.inputs ports.period input.now) }
{
    let mut most = peak;
    for place in 0..usize::from(ports.inputs) {
        most = peak_behind(most, buffer_at(ports, input, place));
    }
    most
}

/// Keeps the samples of a block in its room.
fn keep_block(block: &mut [i32], channels: u16, period: u32, samples: &[i32])
    requires samples { length samples.now ≡ channels * period }
    requires room { channels * period ≤ length block.old }
    ensures fed { channels_of channels period block.new ≡ channels_of channels period samples.now }
{
    block[..usize::from(channels) * period as usize].copy_from_slice(samples);
}

//! The capture, read by periods.

ghost use Rattle.std.specs.Prelude.{◌≡◌, ◌+◌, ◌-◌, ◌*◌, ◌%◌, ◌^◌, ◌≤◌, ◌<◌, ◌∷◌, [], false, IfOk, IfSome, IsTrue, OnErr, drop, is_err, length, min, replicate};
ghost use Rattle.jack_host.specs.Causes.{HasCause};
ghost use Rattle.wave_pcm.specs.session_model.specs.Samples.{silence};
ghost use Rattle.wave_pcm.specs.session_model.specs.WaveFiles.{frame_bytes};
ghost use Rattle.client_kinds.specs.Buffers.{buffers_of, channels_of, with_buffer};
ghost use Rattle.device_periods.specs.Blocks.{channel_of};
ghost use Rattle.wave_pcm.specs.Readings.{SameReading};
ghost use Rattle.device_periods.specs.Captures.{AreOf, Fills, Reads};

use crate::blocks::take_channel;
use jack_host::{ReadFailed, Source};
use jack_types::{Format, Memory};
use std::alloc::Global;
use std::marker::Model;
use wave_pcm::Wave;

/// A capture file that is read a period at a time, with the channels of the last period.
///
/// Contracts see the file that is read, the greatest period, and the channels of the period that was read last. Its room is
/// taken when it is made; no other call takes memory.
#[derive(Drop)]
pub struct Capture<S: Source> {
    wave: Wave<S>,
    room: u32,
    block: Vec<i32>,
    planar: Vec<i32>,
    frames: u32,
}

impl<S: Source> Model for Capture<S> {
    ghost use Rattle.std.specs.Prelude.{◌≡◌, ◌*◌, ◌≤◌, length};
    ghost use Rattle.client_kinds.specs.Buffers.{buffers_of};
    ghost use Rattle.device_periods.specs.Captures.{Captured};

    ghost Value = { Captured };

    ghost view = { λ c. record { reading = c.wave; room = c.room; channels = buffers_of c.wave.format.channels c.frames c.planar.items } };

    ghost invariant = { λ c. (c.frames ≤ c.room) × (c.room ≤ 4096) × (length c.block.items ≡ c.room * c.wave.format.channels) × (length c.planar.items ≡ c.room * c.wave.format.channels) };
}

/// Takes a channel of a block to its place among all channels.
#[tactic(auto, using(client_kinds::proofs::BufferLemmas::place_within))]
fn take_place(planar: &mut [i32], block: &[i32], channels: usize, frames: usize, place: usize)
    requires place { place < channels }
    requires planar { length planar.old ≡ channels * frames }
    requires block { length block.now ≡ frames * channels }
    ensures { planar.new ≡ with_buffer frames place planar.old (channel_of channels frames block.now place) }
{
    let first = place * frames;
    take_channel(&mut planar[first..first + frames], block, channels, place);
}

/// Takes an interleaved block apart into channels, one after the other.
fn take_apart(planar: &mut [i32], block: &[i32], channels: usize, frames: usize)
    requires planar { length planar.old ≡ channels * frames }
    requires block { length block.now ≡ frames * channels }
    ensures length { length planar.new ≡ length planar.old }
    ensures channels { buffers_of channels frames planar.new ≡ channels_of channels frames block.now }
{
    for place in 0..channels {
        take_place(planar, block, channels, frames, place);
    }
}

/// Makes all samples 0.
fn fill_silence(samples: &mut [i32])
    ensures { samples.new ≡ silence (length samples.old) }
{
    for i in 0..samples.len() {
        samples[i] = 0;
    }
}

/// Reads the next frames of a file into a whole block, with zeros past the file's end, and says how many
/// frames were read.
///
/// After a failure only `into_source` may be called.
pub fn read_block<S: Source>(wave: &mut Wave<S>, block: &mut [i32]) -> Result<usize, ReadFailed>
    requires going { wave.old.failed ≡ false }
    requires frames { length block.old % wave.old.format.channels ≡ 0 }
    ensures length { length block.new ≡ length block.old }
    ensures samples { IfOk result (λ _. Fills wave.old.left wave.new.left block.new) }
    ensures count { IfOk result (λ frames. IfSome wave.old.left (λ left. frames * wave.old.format.channels ≡ min (length block.old) (length left))) }

    // Also where the file tells nothing.
    ensures bound { IfOk result (λ frames. frames * wave.old.format.channels ≤ length block.old) }
    ensures silent { IfOk result (λ frames. drop (frames * wave.old.format.channels) block.new ≡ silence (length block.old - frames * wave.old.format.channels)) }
    ensures given { IfOk result (λ frames. wave.new.given ≡ wave.old.given + frames * frame_bytes wave.old.format) }
    ensures limit { wave.new.given < 2 ^ 32 }

    ensures same { SameReading wave.old wave.new }
    ensures failed { wave.new.failed ≡ is_err result }
    ensures cause { HasCause wave.old.faults wave.new.faults result }
{
    let frames = wave.frames_into(block)?;
    let first = frames * usize::from(wave.format().channels);
    fill_silence(&mut block[first..]);
    Ok(frames)
}

/// Takes the first frames of an interleaved block apart into the first channels of more room.
fn take_front(planar: &mut [i32], block: &[i32], channels: usize, frames: usize)
    requires planar { channels * frames ≤ length planar.old }
    requires block { length block.now ≡ frames * channels }
    ensures length { length planar.new ≡ length planar.old }
    ensures channels { buffers_of channels frames planar.new ≡ channels_of channels frames block.now }
{
    take_apart(&mut planar[..channels * frames], block, channels, frames);
}

/// Makes the first frames of all channels silent.
fn silence_front(planar: &mut [i32], channels: usize, frames: usize)
    requires { channels * frames ≤ length planar.old }
    ensures length { length planar.new ≡ length planar.old }
    ensures silent { buffers_of channels frames planar.new ≡ replicate channels (silence frames) }
{
    fill_silence(&mut planar[..channels * frames]);
}

/// Reads the next frames of a file into a block, and takes it apart into channels.
fn read_apart<S: Source>(
    wave: &mut Wave<S>,
    block: &mut [i32],
    planar: &mut [i32],
    channels: usize,
    frames: usize,
) -> Result<(), ReadFailed>
    requires going { wave.old.failed ≡ false }
    requires channels { channels ≡ wave.old.format.channels }
    requires block { frames * channels ≤ length block.old }
    requires planar { channels * frames ≤ length planar.old }
    ensures block { length block.new ≡ length block.old }
    ensures planar { length planar.new ≡ length planar.old }
    ensures shape { IfOk result (λ _. AreOf channels frames (buffers_of channels frames planar.new)) }
    ensures reads { IfOk result (λ _. Reads wave.old.left wave.new.left (buffers_of channels frames planar.new) channels frames) }
    ensures kept { OnErr result (planar.new ≡ planar.old) }
    ensures same { SameReading wave.old wave.new }
    ensures failed { wave.new.failed ≡ is_err result }
    ensures cause { HasCause wave.old.faults wave.new.faults result }
{
    let samples = frames * channels;
    read_block(wave, &mut block[..samples])?;
    take_front(planar, &block[..samples], channels, frames);
    Ok(())
}

/// How many frames are read straight into two channels at most.
const MOST_PAIRS: usize = 1024;

/// Whether so many frames are read straight into their channels: two of 16 bits.
fn is_paired(format: Format, frames: usize) -> bool
    ensures { IsTrue result → (format.channels ≡ 2) × (format.bits ≡ 16) × (frames ≤ 1024) }
{
    format.channels == 2 && format.bits == 16 && frames <= MOST_PAIRS
}

/// Reads the next frames of a stereo file of 16 bits straight into its two channels, with zeros past the file's end.
fn read_both<S: Source>(
    wave: &mut Wave<S>,
    left: &mut [i32],
    right: &mut [i32],
) -> Result<(), ReadFailed>
    requires going { wave.old.failed ≡ false }
    requires stereo { (wave.old.format.channels ≡ 2) × (wave.old.format.bits ≡ 16) }
    requires lengths { length right.old ≡ length left.old }
    requires short { length left.old ≤ 1024 }
    ensures reads { IfOk result (λ _. Reads wave.old.left wave.new.left (left.new ∷ right.new ∷ []) 2 (length left.old)) }
    ensures kept { OnErr result ((left.new ≡ left.old) × (right.new ≡ right.old)) }
    ensures same { SameReading wave.old wave.new }
    ensures failed { wave.new.failed ≡ is_err result }
    ensures cause { HasCause wave.old.faults wave.new.faults result }
{
    let frames = wave.pairs_into(left, right)?;
    fill_silence(&mut left[frames..]);
    fill_silence(&mut right[frames..]);
    Ok(())
}

/// Reads the next frames of a stereo file of 16 bits into two channels, one after the other.
fn read_pairs<S: Source>(
    wave: &mut Wave<S>,
    planar: &mut [i32],
    frames: usize,
) -> Result<(), ReadFailed>
    requires going { wave.old.failed ≡ false }
    requires stereo { (wave.old.format.channels ≡ 2) × (wave.old.format.bits ≡ 16) }
    requires short { frames ≤ 1024 }
    requires planar { length planar.old ≡ 2 * frames }
    ensures planar { length planar.new ≡ length planar.old }
    ensures reads { IfOk result (λ _. Reads wave.old.left wave.new.left (buffers_of 2 frames planar.new) 2 frames) }
    ensures kept { OnErr result (planar.new ≡ planar.old) }
    ensures same { SameReading wave.old wave.new }
    ensures failed { wave.new.failed ≡ is_err result }
    ensures cause { HasCause wave.old.faults wave.new.faults result }
{
    let (left, right) = planar.split_at_mut(frames);
    read_both(wave, left, right)
}

/// Reads the next frames of a file into its channels, with zeros past the file's end.
fn read_period<S: Source>(
    wave: &mut Wave<S>,
    block: &mut [i32],
    planar: &mut [i32],
    channels: usize,
    frames: usize,
) -> Result<(), ReadFailed>
    requires going { wave.old.failed ≡ false }
    requires channels { channels ≡ wave.old.format.channels }
    requires block { frames * channels ≤ length block.old }
    requires planar { channels * frames ≤ length planar.old }
    ensures block { length block.new ≡ length block.old }
    ensures planar { length planar.new ≡ length planar.old }
    ensures shape { IfOk result (λ _. AreOf channels frames (buffers_of channels frames planar.new)) }
    ensures reads { IfOk result (λ _. Reads wave.old.left wave.new.left (buffers_of channels frames planar.new) channels frames) }
    ensures kept { OnErr result (planar.new ≡ planar.old) }
    ensures same { SameReading wave.old wave.new }
    ensures failed { wave.new.failed ≡ is_err result }
    ensures cause { HasCause wave.old.faults wave.new.faults result }
{
    if is_paired(wave.format(), frames) {
        read_pairs(wave, &mut planar[..2 * frames], frames)
    } else {
        read_apart(wave, block, planar, channels, frames)
    }
}

impl<S: Source> Capture<S> {
    ghost use Rattle.std.specs.Prelude.{◌≡◌, ◌≤◌, ◌<◌, ◌*◌, [], false, IfErr, IfOk, OnErr, is_err, length, replicate, slice_index_or};
    ghost use Rattle.jack_host.specs.Causes.{HasCause};
    ghost use Rattle.wave_pcm.specs.session_model.specs.Samples.{silence};
    ghost use Rattle.wave_pcm.specs.Readings.{SameReading};

    /// A capture that is read from where its file stands, by periods of at most so many frames. Where memory lacks, the
    /// file comes back. No period was read yet: the channels have no frames.
    #[tactic(auto, using(crate::proofs::PeriodLemmas::no_frames))]
    pub fn new(alloc: Global, wave: Wave<S>, room: u32) -> Result<Capture<S>, (Wave<S>, Memory)>
        requires { room ≤ 4096 }
        ensures made { IfOk result (λ capture. (capture.reading ≡ wave) × (capture.room ≡ room)) }
        ensures none { IfOk result (λ capture. capture.channels ≡ replicate wave.format.channels []) }
        ensures back { IfErr result (λ refused. refused.0 ≡ wave) }
    {
        let samples = room as usize * usize::from(wave.format().channels);
        let Ok(block) = vec![in alloc; 0; samples] else {
            return Err((wave, Memory));
        };
        let Ok(planar) = vec![in alloc; 0; samples] else {
            return Err((wave, Memory));
        };
        Ok(Capture {
            wave,
            room,
            block,
            planar,
            frames: 0,
        })
    }

    /// Reads the next frames, with zeros past the capture's end. Each channel then has so many, also where the file tells
    /// nothing. After a failure only `into_wave` may be called.
    pub fn read(&mut self, frames: u32) -> Result<(), ReadFailed>
        requires going { self.old.reading.failed ≡ false }
        requires room { frames ≤ self.old.room }
        ensures shape { IfOk result (λ _. AreOf self.old.reading.format.channels frames self.new.channels) }
        ensures reads { IfOk result (λ _. Reads self.old.reading.left self.new.reading.left self.new.channels self.old.reading.format.channels frames) }
        ensures same { SameReading self.old.reading self.new.reading }
        ensures kept { OnErr result (self.new.channels ≡ self.old.channels) }
        ensures room { self.new.room ≡ self.old.room }
        ensures failed { self.new.reading.failed ≡ is_err result }
        ensures cause { HasCause self.old.reading.faults self.new.reading.faults result }
    {
        let channels = usize::from(self.wave.format().channels);
        read_period(
            &mut self.wave,
            &mut self.block,
            &mut self.planar,
            channels,
            frames as usize,
        )?;
        self.frames = frames;
        Ok(())
    }

    /// Makes all channels silent, and reads nothing.
    pub fn rest(&mut self, frames: u32)
        requires { frames ≤ self.old.room }
        ensures { self.new ≡ record self.old { channels = replicate self.old.reading.format.channels (silence frames) } }
    {
        let channels = usize::from(self.wave.format().channels);
        silence_front(&mut self.planar, channels, frames as usize);
        self.frames = frames;
    }

    /// What a channel, counted from 0, had in the last period; nothing where there is no such channel. A period has at
    /// most 4,096 frames.
    pub fn channel(&self, place: usize) -> &[i32]
        ensures samples { result.now ≡ slice_index_or self.now.channels place [] }
        ensures few { length result.now ≤ 4096 }
    {
        let frames = self.frames as usize;
        if place < usize::from(self.wave.format().channels) {
            &self.planar[place * frames..place * frames + frames]
        } else {
            &[]
        }
    }

    /// The file, as far as it was read.
    pub fn into_wave(self) -> Wave<S>
        ensures { result ≡ self.reading }
    {
        self.wave
    }
}

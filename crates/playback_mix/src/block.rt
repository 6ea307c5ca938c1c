//! The block of the playback.

use crate::channels::mix_front;
use client_benches::ClientBench;
use client_kinds::Guest;
use client_wiring::Heard;
use device_periods::Capture;
use jack_host::Source;
use jack_types::Memory;
use port_mixer::Mixer;
use std::alloc::{AllocError, Global};
use std::marker::Model;

/// The room for mixing the playback, and the block of the last mix.
///
/// Contracts see a `PlaybackRoom`: how many channels there are, the most frames of a period, and the block. All room is
/// taken when it is made; no other call takes memory.
#[derive(Drop)]
pub struct Playback {
    mixer: Mixer,
    padded: Vec<i32>,
    channel: Vec<i32>,
    block: Vec<i32>,
    channels: u16,
    room: u32,
    frames: u32,
}

impl Model for Playback {
    ghost use Rattle.playback_mix.specs.Mixes.{PlaybackRoom};

    ghost Value = { PlaybackRoom };

    ghost use Rattle.playback_mix.specs.Insides.{room_in, HasRoom};

    ghost view = { room_in };

    ghost invariant = { HasRoom };
}

impl Playback {
    ghost use Rattle.std.specs.Prelude.{◌≡◌, ◌≤◌, [], IfOk, length, map};
    ghost use Rattle.session_model.specs.Samples.{below, interleaved};
    ghost use Rattle.playback_mix.specs.Mixes.{channel_mix};

    /// Room for so many channels and periods of at most so many frames, with an empty block.
    pub fn new(alloc: Global, channels: u16, room: u32) -> Result<Playback, Memory>
        requires channels { (1 ≤ channels) × (channels ≤ 8) }
        requires room { room ≤ 4096 }
        ensures { IfOk result (λ playback. playback ≡ record { channels = channels; room = room; block = [] }) }
    {
        let mixer = Mixer::new(alloc, room)?;
        match Playback::over(alloc, mixer, channels, room) {
            Ok(playback) => Ok(playback),
            Err(_) => Err(Memory),
        }
    }

    /// The room around a mixer.
    fn over(alloc: Global, mixer: Mixer, channels: u16, room: u32) -> Result<Playback, AllocError>
        requires sums { room ≤ mixer.room }
        requires few { (channels ≤ 8) × (room ≤ 4096) }
        ensures { IfOk result (λ playback. playback ≡ record { channels = channels; room = room; block = [] }) }
    {
        let padded = vec![in alloc; 0; room as usize]?;
        let channel = vec![in alloc; 0; room as usize]?;
        let block = vec![in alloc; 0; room as usize * usize::from(channels)]?;
        Ok(Playback {
            mixer,
            padded,
            channel,
            block,
            channels,
            room,
            frames: 0,
        })
    }

    /// Mixes a period: each channel from what its connections bring, in the order of making, and all channels interleaved.
    ///
    /// A node of a connection is the place of its bench. Where there is no such bench, output or channel, a connection
    /// brings nothing; what a part lacks to the period is silence. Each sum is clamped once.
    pub fn mix<G: Guest, S: Source>(
        &mut self,
        benches: &[ClientBench<G>],
        heard: &[Heard],
        capture: &Capture<S>,
        frames: u32,
    )
        requires frames { frames ≤ self.old.room }
        requires few { length heard.now ≤ 512 }
        ensures block { self.new.block ≡ interleaved frames (map (channel_mix frames benches.now capture.now.channels heard.now) (below self.old.channels)) }
        ensures room { (self.new.channels ≡ self.old.channels) × (self.new.room ≡ self.old.room) }
    {
        mix_front(
            &mut self.mixer,
            &mut self.padded,
            &mut self.channel,
            benches,
            heard,
            capture,
            usize::from(self.channels),
            frames as usize,
            &mut self.block,
        );
        self.frames = frames;
    }

    /// The block of the last mix, frame by frame a sample of each channel; empty before the first.
    pub fn block(&self) -> &[i32]
        ensures { result.now ≡ self.now.block }
    {
        &self.block[..self.frames as usize * usize::from(self.channels)]
    }
}

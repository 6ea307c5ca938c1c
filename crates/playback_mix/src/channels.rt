//! The channels of the playback.

ghost use Rattle.std.specs.Prelude.{◌≡◌, ℕ, ◌*◌, ◌<◌, ◌≤◌, ◌∷◌, [], IsTrue, MatchOption, length, map, take};
ghost use Rattle.session_model.specs.Samples.{below, interleaved, mix};
ghost use Rattle.playback_mix.specs.Mixes.{channel_mix, sounds_on};

use crate::sounds::samples_of;
use client_benches::{ClientBench, Few};
use client_kinds::Guest;
use client_wiring::Heard;
use device_periods::{Capture, lay_channel, lay_two};
use jack_host::Source;
use port_mixer::{Mixer, see_samples};

/// The samples of a channel that gets no more than one sound, no samples where it gets none.
///
/// No connection behind the second into this channel is looked at.
fn only_sound<'a, G: Guest, S: Source>(
    benches: &'a [ClientBench<G>],
    heard: &[Heard],
    capture: &'a Capture<S>,
    channel: usize,
) -> Option<&'a [i32]>
    ensures { MatchOption result (1 < length (sounds_on heard.now channel)) (λ samples. (frames : ℕ) → channel_mix frames benches.now capture.now.channels heard.now channel ≡ mix frames (samples.now ∷ [])) }
{
    let mut only: Option<&[i32]> = None;
    for one in heard {
        if one.channel != channel {
            continue;
        }
        if only.is_some() {
            return None;
        }
        only = Some(samples_of(one.sound, benches, capture));
    }
    Some(only.unwrap_or(&[]))
}

/// Mixes a channel from what its connections bring, in one walk over them.
fn mix_channel<'a, G: Guest, S: Source>(
    mixer: &mut Mixer,
    padded: &mut [i32],
    benches: &'a [ClientBench<G>],
    heard: &[Heard],
    capture: &'a Capture<S>,
    channel: usize,
    out: &mut [i32],
)
    requires few { length heard.now ≤ 512 }
    requires room { length out.old ≤ mixer.old.room }
    requires frames { (length padded.old ≡ length out.old) × (length out.old ≤ 4096) }
    ensures mixed { out.new ≡ channel_mix (length out.old) benches.now capture.now.channels heard.now channel }
    ensures room { mixer.new.room ≡ mixer.old.room }
    ensures frames { length padded.new ≡ length padded.old }
{
    mixer.clear(out.len() as u32);
    let mut few = Few::new();
    for one in heard {
        if one.channel == channel {
            few.gather(mixer, padded, samples_of(one.sound, benches, capture));
        }
    }
    few.settle(mixer, padded, out);
}

/// Lays both channels of a stereo playback from the sounds themselves, where neither gets more than one. Says whether
/// it did.
fn lay_sounds<G: Guest, S: Source>(
    benches: &[ClientBench<G>],
    heard: &[Heard],
    capture: &Capture<S>,
    frames: usize,
    block: &mut [i32],
) -> bool
    requires { length block.old ≡ frames * 2 }
    ensures laid { IsTrue result → block.new ≡ interleaved frames (map (channel_mix frames benches.now capture.now.channels heard.now) (below 2)) }
    ensures length { length block.new ≡ length block.old }
{
    let Some(left) = only_sound(benches, heard, capture, 0) else {
        return false;
    };
    let Some(right) = only_sound(benches, heard, capture, 1) else {
        return false;
    };
    see_samples(left);
    see_samples(right);
    lay_two(block, frames, left, right);
    true
}

/// Mixes all channels, one after the other, into a block of as many frames as a channel has.
fn mix_channels<G: Guest, S: Source>(
    mixer: &mut Mixer,
    padded: &mut [i32],
    out: &mut [i32],
    benches: &[ClientBench<G>],
    heard: &[Heard],
    capture: &Capture<S>,
    channels: usize,
    block: &mut [i32],
)
    requires few { length heard.now ≤ 512 }
    requires room { length out.old ≤ mixer.old.room }
    requires frames { (length padded.old ≡ length out.old) × (length out.old ≤ 4096) }
    requires block { length block.old ≡ length out.old * channels }
    ensures block { block.new ≡ interleaved (length out.old) (map (channel_mix (length out.old) benches.now capture.now.channels heard.now) (below channels)) }
    ensures room { mixer.new.room ≡ mixer.old.room }
    ensures padded { length padded.new ≡ length padded.old }
    ensures frames { length out.new ≡ length out.old }
{
    let frames = out.len();
    if channels == 2 && lay_sounds(benches, heard, capture, frames, block) {
        return;
    }
    for channel in 0..channels {
        mix_channel(mixer, padded, benches, heard, capture, channel, out);
        lay_channel(block, frames, channels, channel, out);
    }
}

/// Mixes all channels into the front of more room.
pub(crate) fn mix_front<G: Guest, S: Source>(
    mixer: &mut Mixer,
    padded: &mut [i32],
    out: &mut [i32],
    benches: &[ClientBench<G>],
    heard: &[Heard],
    capture: &Capture<S>,
    channels: usize,
    frames: usize,
    block: &mut [i32],
)
    requires few { length heard.now ≤ 512 }
    requires room { (frames ≤ mixer.old.room) × (frames ≤ 4096) }
    requires frames { (frames ≤ length padded.old) × (frames ≤ length out.old) }
    requires block { frames * channels ≤ length block.old }
    ensures block { take (frames * channels) block.new ≡ interleaved frames (map (channel_mix frames benches.now capture.now.channels heard.now) (below channels)) }
    ensures room { mixer.new.room ≡ mixer.old.room }
    ensures padded { length padded.new ≡ length padded.old }
    ensures frames { length out.new ≡ length out.old }
    ensures length { length block.new ≡ length block.old }
{
    mix_channels(
        mixer,
        &mut padded[..frames],
        &mut out[..frames],
        benches,
        heard,
        capture,
        channels,
        &mut block[..frames * channels],
    );
}

//! Interleaved blocks.

ghost use Rattle.std.specs.Prelude.{◌≡◌, ℕ, ◌+◌, ◌*◌, ◌<◌, ◌≤◌, ◌++◌, ◌∷◌, [], List, ℤ, length, map};
ghost use Rattle.wave_pcm.specs.session_model.specs.Samples.{below, interleaved, sample};
ghost use Rattle.device_periods.specs.Blocks.{IsLaid, channel_of};

/// Takes every other sample, from the first on.
#[tactic(auto, using(client_kinds::proofs::FillLemmas::fill_more))]
fn take_every_other(channel: &mut [i32], samples: &[i32])
    requires { 2 * length channel.old ≤ length samples.now + 1 }
    ensures { channel.new ≡ map (λ i. sample samples.now (2 * i)) (below (length channel.old)) }
{
    for i in 0..channel.len() {
        channel[i] = samples[2 * i];
    }
}

/// Takes the samples of a place in each frame.
#[tactic(auto, using(client_kinds::proofs::FillLemmas::fill_more))]
fn take_each(channel: &mut [i32], block: &[i32], channels: usize, place: usize)
    requires place { place < channels }
    requires block { length channel.old * channels ≤ length block.now }
    ensures { channel.new ≡ channel_of channels (length channel.old) block.now place }
{
    for i in 0..channel.len() {
        channel[i] = block[i * channels + place];
    }
}

/// Takes a channel of an interleaved block, as many frames as there is room for. Channels are counted from 0.
pub fn take_channel(channel: &mut [i32], block: &[i32], channels: usize, place: usize)
    requires place { place < channels }
    requires block { length channel.old * channels ≤ length block.now }
    ensures { channel.new ≡ channel_of channels (length channel.old) block.now place }
{
    if channels == 2 && !channel.is_empty() {
        take_every_other(channel, &block[place..]);
    } else {
        take_each(channel, block, channels, place);
    }
}

/// Lays the next channel into an interleaved block of so many frames, with zeros past the end of its samples.
///
/// Channels are laid one after the other, from the first on.
pub fn lay_channel(block: &mut [i32], frames: usize, channels: usize, place: usize, samples: &[i32])
    requires place { place < channels }
    requires frames { length block.old ≡ frames * channels }
    ensures length { length block.new ≡ frames * channels }
    ensures laid { (buffers : List (List ℤ)) → length buffers ≡ place → IsLaid channels frames buffers block.old → IsLaid channels frames (buffers ++ samples.now ∷ []) block.new }
    ensures whole { (buffers : List (List ℤ)) → length buffers ≡ place → place + 1 ≡ channels → IsLaid channels frames buffers block.old → block.new ≡ interleaved frames (buffers ++ samples.now ∷ []) }
{
    let whole = samples.len().min(frames);
    for i in 0..whole {
        block[i * channels + place] = samples[i];
    }
    for i in whole..frames {
        block[i * channels + place] = 0;
    }
}

/// Lays a sample of each of two channels, frame by frame.
fn lay_pairs(block: &mut [i32], frames: usize, left: &[i32], right: &[i32])
    requires block { length block.old ≡ frames * 2 }
    requires frames { (frames ≤ length left.now) × (frames ≤ length right.now) }
    ensures length { length block.new ≡ frames * 2 }
    ensures laid { IsLaid 2 frames (left.now ∷ right.now ∷ []) block.new }
{
    for i in 0..frames {
        block[i * 2] = left[i];
        block[i * 2 + 1] = right[i];
    }
}

/// Lays two channels of any length.
fn lay_both(block: &mut [i32], frames: usize, left: &[i32], right: &[i32])
    requires { length block.old ≡ frames * 2 }
    ensures length { length block.new ≡ frames * 2 }
    ensures laid { IsLaid 2 frames (left.now ∷ right.now ∷ []) block.new }
{
    if frames <= left.len() && frames <= right.len() {
        lay_pairs(block, frames, left, right);
    } else {
        lay_channel(block, frames, 2, 0, left);
        lay_channel(block, frames, 2, 1, right);
    }
}

/// Lays two channels into an interleaved block of two, with zeros past the end of their samples.
pub fn lay_two(block: &mut [i32], frames: usize, left: &[i32], right: &[i32])
    requires { length block.old ≡ frames * 2 }
    ensures laid { IsLaid 2 frames (left.now ∷ right.now ∷ []) block.new }
    ensures whole { block.new ≡ interleaved frames (left.now ∷ right.now ∷ []) }
{
    lay_both(block, frames, left, right);
}

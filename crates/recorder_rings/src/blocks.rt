//! The blocks that are put next.

ghost use Rattle.std.specs.Prelude.{◌≡◌, ℕ, ◌+◌, ◌*◌, ◌<◌, ◌≤◌, ◌++◌, ◌∷◌, [], List, ℤ, length};
ghost use Rattle.session_model.specs.Samples.{interleaved, silence};
ghost use Rattle.device_periods.specs.Blocks.{IsLaid};

use crate::rings::RecorderRings;
use device_periods::lay_channel;
use record_ring::Block;

/// Makes a block so many samples of silence.
fn silence_block(block: &mut Block, samples: u32)
    requires { samples ≤ block.old.samples.room }
    ensures room { block.new.samples.room ≡ block.old.samples.room }
    ensures items { block.new.samples.items ≡ silence samples }
{
    block.samples.set_len(0);
    block.samples.set_len(samples);
}

/// Lays the next channel into a block.
fn lay_into(block: &mut Block, frames: usize, channels: usize, place: usize, samples: &[i32])
    requires place { place < channels }
    requires frames { length block.old.samples.items ≡ frames * channels }
    ensures room { block.new.samples.room ≡ block.old.samples.room }
    ensures length { length block.new.samples.items ≡ frames * channels }
    ensures laid { (buffers : List (List ℤ)) → length buffers ≡ place → IsLaid channels frames buffers block.old.samples.items → IsLaid channels frames (buffers ++ samples.now ∷ []) block.new.samples.items }
    ensures whole { (buffers : List (List ℤ)) → length buffers ≡ place → place + 1 ≡ channels → IsLaid channels frames buffers block.old.samples.items → block.new.samples.items ≡ interleaved frames (buffers ++ samples.now ∷ []) }
{
    lay_channel(
        block.samples.as_mut_slice(),
        frames,
        channels,
        place,
        samples,
    );
}

impl RecorderRings {
    ghost use Rattle.std.specs.Prelude.{◌≡◌, ℕ, ◌+◌, ◌*◌, ◌<◌, ◌≤◌, ◌++◌, ◌∷◌, [], List, ℤ, length, slice_set};
    ghost use Rattle.session_model.specs.Samples.{interleaved, silence};
    ghost use Rattle.device_periods.specs.Blocks.{IsLaid};
    ghost use Rattle.recorder_rings.specs.Sending.{block_at, channels_at};

    /// Begins the block of a recorder: so many frames of silence.
    pub fn begin(&mut self, recorder: u8, frames: u32)
        requires there { recorder < length self.old.rings }
        requires frames { frames ≤ self.old.room }
        ensures block { block_at self.new recorder ≡ silence (frames * channels_at self.old recorder) }
        ensures after { self.new ≡ record self.old { blocks = slice_set self.old.blocks recorder (silence (frames * channels_at self.old recorder)) } }
    {
        let place = usize::from(recorder);
        let samples = frames * u32::from(self.channels[place]);
        silence_block(&mut self.blocks[place], samples);
    }

    /// Lays the next channel into the block of a recorder, which has so many frames, with zeros past the end
    /// of its samples.
    ///
    /// Channels are laid one after the other, from the first on.
    pub fn lay(&mut self, recorder: u8, frames: u32, place: u16, samples: &[i32])
        requires there { recorder < length self.old.rings }
        requires place { place < channels_at self.old recorder }
        requires frames { length (block_at self.old recorder) ≡ frames * channels_at self.old recorder }
        ensures length { length (block_at self.new recorder) ≡ frames * channels_at self.old recorder }
        ensures laid { (buffers : List (List ℤ)) → length buffers ≡ place → IsLaid (channels_at self.old recorder) frames buffers (block_at self.old recorder) → IsLaid (channels_at self.old recorder) frames (buffers ++ samples.now ∷ []) (block_at self.new recorder) }
        ensures whole { (buffers : List (List ℤ)) → length buffers ≡ place → place + 1 ≡ channels_at self.old recorder → IsLaid (channels_at self.old recorder) frames buffers (block_at self.old recorder) → block_at self.new recorder ≡ interleaved frames (buffers ++ samples.now ∷ []) }
        ensures others { self.new ≡ record self.old { blocks = slice_set self.old.blocks recorder (block_at self.new recorder) } }
    {
        let at = usize::from(recorder);
        let channels = usize::from(self.channels[at]);
        lay_into(
            &mut self.blocks[at],
            frames as usize,
            channels,
            usize::from(place),
            samples,
        );
    }
}

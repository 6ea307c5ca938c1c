ghost use Rattle.std.specs.Prelude.{◌≡◌, ◌≢◌, ◌+◌, ◌*◌, ◌%◌, ◌^◌, ◌<◌, ◌≤◌, List, ℤ, Err, IfErr, IfOk, IfSome, None, Ok, OnErr, Some, drop, false, is_err, length, take, true};
ghost use Rattle.jack_host.specs.Causes.{HasCause, Rose};
ghost use Rattle.samples.specs.session_model.specs.Samples.{samples_of};
ghost use Rattle.samples.specs.session_model.specs.WaveFiles.{frame_bytes, is_width, IsWave, wave_fault};
ghost use Rattle.samples.specs.session_model.specs.WaveOpening.{opened, Opened, wave_in};
ghost use Rattle.wave_pcm.specs.Readings.{AreBytes, Gives, GivesPairs, IsReadable, SameReading};

use crate::chunks::read_header;
use crate::input::{MOST_BYTES, fill};
use crate::pairs::take_pairs;
use jack_host::{ReadFailed, Source};
use samples::from_bytes;
use samples::jack_types::{Format, WaveFault};
use std::marker::Model;

// Sets the first frames of the buffer to those that the bytes store.
fn convert(format: Format, bytes: &[u8], out: &mut [i32], frames: usize)
    requires bits { is_width format.bits ≡ true }
    requires bytes { length bytes.now ≡ frames * frame_bytes format }
    requires room { frames * format.channels ≤ length out.old }
    ensures samples { take (frames * format.channels) out.new ≡ samples_of format.bits bytes.now }
    ensures rest { drop (frames * format.channels) out.new ≡ drop (frames * format.channels) out.old }
{
    let count = frames * usize::from(format.channels);
    from_bytes(format.bits, bytes, &mut out[..count]);
}

/// A WAVE file that is read, frame after frame.
///
/// Its source may keep its bytes to itself, as a real file does: then contracts know its format, and how many
/// samples it gave.
#[derive(Drop)]
pub struct Wave<S: Source> {
    source: S,
    format: Format,
    size: u32,
    given: u32,
    failed: bool,
    // The bytes that were read last. They stay here, so that a read needs no buffer that is cleared first.
    bytes: [u8; MOST_BYTES],
}

impl<S: Source> Model for Wave<S> {
    ghost use Rattle.std.specs.Prelude.{◌-◌, ◌^◌, ◌<◌, ◌≤◌};
    ghost use Rattle.wave_pcm.specs.Readings.{IsReadable, left_of, Reading};

    ghost Value = { Reading };

    ghost view = { λ wave. record { format = wave.format; left = left_of wave.format (wave.size - wave.given) (S.left wave.source); size = wave.size; given = wave.given; failed = wave.failed; faults = S.faults wave.source } };

    ghost invariant = { λ wave. IsReadable wave.format × (wave.given ≤ wave.size) × (wave.size < 2 ^ 32) };
}

impl<S: Source> Wave<S> {
    /// Reads up to the first sample byte.
    ///
    /// A refusal hands the source back. The input is read forward in small pieces, and no byte of it is kept.
    pub fn open(mut source: S) -> Result<Wave<S>, (S, WaveFault)>
        // Where the source tells bytes, they are a wave, and the wave has all of its samples left.
        ensures wave { IfOk result (λ wave. IfSome (S.left source) (λ bytes. AreBytes bytes → (samples : List ℤ) × IsWave bytes wave.format samples × (wave.left ≡ Some samples))) }
        ensures lawful { IfOk result (λ wave. IfSome (S.left source) (λ bytes. AreBytes bytes → wave_fault bytes ≡ None)) }
        ensures opened { IfOk result (λ wave. IfSome (S.left source) (λ bytes. (told : Opened) × (opened bytes ≡ Ok told) × (wave.format ≡ told.format) × (wave.left ≡ Some (wave_in told)))) }
        ensures fresh { IfOk result (λ wave. IsReadable wave.format × (wave.given ≡ 0) × (wave.failed ≡ false)) }
        ensures later { IfOk result (λ wave. S.faults source ≤ wave.faults) }
        ensures kept { IfOk result (λ wave. wave.faults ≡ S.faults source) }

        // Each fault but that of the source is the one that the bytes have.
        ensures fault { IfErr result (λ e. e.1 ≢ WaveFault.Read → IfSome (S.left source) (λ bytes. (opened bytes ≡ Err e.1) × (AreBytes bytes → wave_fault bytes ≡ Some e.1))) }
        ensures read { IfErr result (λ e. e.1 ≡ WaveFault.Read → Rose (S.faults source) (S.faults e.0)) }
        ensures later_err { IfErr result (λ e. S.faults source ≤ S.faults e.0) }
    {
        match read_header(&mut source) {
            Ok((format, size)) => Ok(Wave {
                source,
                format,
                size,
                given: 0,
                failed: false,
                bytes: [0; MOST_BYTES],
            }),
            Err(fault) => Err((source, fault)),
        }
    }

    /// How its samples are stored.
    pub fn format(&self) -> Format
        ensures { result ≡ self.now.format }
    {
        self.format
    }

    /// Reads the next frames to the front of the buffer, interleaved, and says how many frames.
    ///
    /// They are as many as the buffer has room for, fewer only at the file's end; the rest of the buffer is
    /// left as it was. After a failure only `into_source` may be called.
    pub fn frames_into(&mut self, out: &mut [i32]) -> Result<usize, ReadFailed>
        requires going { self.old.failed ≡ false }
        requires frames { length out.old % self.old.format.channels ≡ 0 }
        ensures samples { IfOk result (λ frames. Gives self.old.left self.new.left (frames * self.old.format.channels) (length out.old) out.new) }
        ensures bound { IfOk result (λ frames. frames * self.old.format.channels ≤ length out.new) }
        ensures rest { IfOk result (λ frames. drop (frames * self.old.format.channels) out.new ≡ drop (frames * self.old.format.channels) out.old) }

        // Over every source all calls together give less than 2^32 bytes.
        ensures given { IfOk result (λ frames. self.new.given ≡ self.old.given + frames * frame_bytes self.old.format) }
        ensures limit { self.new.given < 2 ^ 32 }

        ensures same { SameReading self.old self.new }
        ensures failed { self.new.failed ≡ is_err result }
        ensures cause { HasCause self.old.faults self.new.faults result }
    {
        let most = self.most_frames();
        let frames = self.frames_left(out.len());
        let mut done = 0;
        'reading: while done < frames {
            let count = most.min(frames - done);
            let got = self.read_at(out, done, count)?;
            if got < count {
                return Ok(done + got);
            }
            done += count;
        }
        Ok(done)
    }

    // How many frames are read at a time.
    fn most_frames(&self) -> usize
        ensures some { 0 < result }
        ensures fits { result * frame_bytes self.now.format ≤ 4096 }
    {
        MOST_BYTES / self.frame()
    }

    // How many bytes a frame has.
    fn frame(&self) -> usize
        ensures value { result ≡ frame_bytes self.now.format }
        ensures some { 0 < result }
        ensures few { result ≤ 64 }
    {
        usize::from(self.format.channels) * usize::from(self.format.bits / 8)
    }

    // How many frames a buffer of so many samples has room for, of those that the header tells to be left.
    fn frames_left(&self, samples: usize) -> usize
        ensures room { result * self.now.format.channels ≤ samples }
        ensures told { self.now.given + result * frame_bytes self.now.format ≤ self.now.size }
        ensures most { self.now.size < 2 ^ 32 }
        ensures some { 0 < self.now.format.channels }
        ensures all { IfSome self.now.left (λ left. samples % self.now.format.channels ≡ 0 → result * self.now.format.channels < samples → length left ≤ result * self.now.format.channels) }
    {
        let asked = samples / usize::from(self.format.channels);
        let told = (self.size - self.given) as usize / self.frame();
        asked.min(told)
    }

    // Reads some frames to the buffer, behind so many that are there.
    fn read_at(&mut self, out: &mut [i32], done: usize, frames: usize) -> Result<usize, ReadFailed>
        requires going { self.old.failed ≡ false }
        requires room { (done + frames) * self.old.format.channels ≤ length out.old }
        requires short { frames * frame_bytes self.old.format ≤ 4096 }
        requires told { self.old.given + frames * frame_bytes self.old.format ≤ self.old.size }
        ensures front { take (done * self.old.format.channels) out.new ≡ take (done * self.old.format.channels) out.old }
        ensures samples { IfOk result (λ got. Gives self.old.left self.new.left (got * self.old.format.channels) (frames * self.old.format.channels) (drop (done * self.old.format.channels) out.new)) }
        ensures bound { IfOk result (λ got. got ≤ frames) }
        ensures rest { IfOk result (λ got. drop ((done + got) * self.old.format.channels) out.new ≡ drop ((done + got) * self.old.format.channels) out.old) }
        ensures given { IfOk result (λ got. self.new.given ≡ self.old.given + got * frame_bytes self.old.format) }
        ensures kept { OnErr result (self.new.given ≡ self.old.given) }
        ensures same { SameReading self.old self.new }
        ensures failed { self.new.failed ≡ is_err result }
        ensures cause { HasCause self.old.faults self.new.faults result }
    {
        let channels = usize::from(self.format.channels);
        let start = done * channels;
        self.read_block(&mut out[start..start + frames * channels], frames)
    }

    // Reads frames to a buffer of so many.
    fn read_block(&mut self, out: &mut [i32], frames: usize) -> Result<usize, ReadFailed>
        requires going { self.old.failed ≡ false }
        requires room { length out.old ≡ frames * self.old.format.channels }
        requires short { frames * frame_bytes self.old.format ≤ 4096 }
        requires told { self.old.given + frames * frame_bytes self.old.format ≤ self.old.size }
        ensures samples { IfOk result (λ got. Gives self.old.left self.new.left (got * self.old.format.channels) (frames * self.old.format.channels) out.new) }
        ensures bound { IfOk result (λ got. got ≤ frames) }
        ensures rest { IfOk result (λ got. drop (got * self.old.format.channels) out.new ≡ drop (got * self.old.format.channels) out.old) }
        ensures given { IfOk result (λ got. self.new.given ≡ self.old.given + got * frame_bytes self.old.format) }
        ensures kept { OnErr result (self.new.given ≡ self.old.given) }
        ensures same { SameReading self.old self.new }
        ensures failed { self.new.failed ≡ is_err result }
        ensures cause { HasCause self.old.faults self.new.faults result }
    {
        let frame = self.frame();
        let all = &mut self.bytes[..];
        let bytes = &mut all[..frames * frame];
        let filled = fill(&mut self.source, bytes);
        match filled {
            Ok(count) => {
                let got = count / frame;
                convert(self.format, &bytes[..got * frame], out, got);
                self.given += (got * frame) as u32;
                Ok(got)
            }
            Err(failed) => {
                self.failed = true;
                Err(failed)
            }
        }
    }

    /// Reads the next frames of a stereo file of 16 bits straight to the fronts of its two channels, and says how many frames.
    ///
    /// They are as many as the channels have room for, at most 1,024, and fewer only at the file's end; the rest of the
    /// channels is left as it was, and all of them where it fails. After a failure only `into_source` may be called.
    pub fn pairs_into(&mut self, left: &mut [i32], right: &mut [i32]) -> Result<usize, ReadFailed>
        requires going { self.old.failed ≡ false }
        requires stereo { (self.old.format.channels ≡ 2) × (self.old.format.bits ≡ 16) }
        requires lengths { length right.old ≡ length left.old }
        requires short { length left.old ≤ 1024 }
        ensures samples { IfOk result (λ frames. GivesPairs self.old.left self.new.left frames (length left.old) left.new right.new) }
        ensures bound { IfOk result (λ frames. frames ≤ length left.old) }
        ensures rest_left { IfOk result (λ frames. drop frames left.new ≡ drop frames left.old) }
        ensures rest_right { IfOk result (λ frames. drop frames right.new ≡ drop frames right.old) }
        ensures kept { OnErr result ((left.new ≡ left.old) × (right.new ≡ right.old)) }

        // Over every source all calls together give less than 2^32 bytes.
        ensures given { IfOk result (λ frames. self.new.given ≡ self.old.given + frames * 4) }
        ensures limit { self.new.given < 2 ^ 32 }

        ensures same { SameReading self.old self.new }
        ensures failed { self.new.failed ≡ is_err result }
        ensures cause { HasCause self.old.faults self.new.faults result }
    {
        let frames = self.frames_left(left.len() * 2);
        self.read_pairs(&mut left[..frames], &mut right[..frames])
    }

    // Reads frames to two channels of so many.
    fn read_pairs(&mut self, left: &mut [i32], right: &mut [i32]) -> Result<usize, ReadFailed>
        requires going { self.old.failed ≡ false }
        requires stereo { (self.old.format.channels ≡ 2) × (self.old.format.bits ≡ 16) }
        requires lengths { length right.old ≡ length left.old }
        requires short { length left.old ≤ 1024 }
        requires told { self.old.given + length left.old * 4 ≤ self.old.size }
        ensures samples { IfOk result (λ got. GivesPairs self.old.left self.new.left got (length left.old) left.new right.new) }
        ensures bound { IfOk result (λ got. got ≤ length left.old) }
        ensures rest_left { IfOk result (λ got. drop got left.new ≡ drop got left.old) }
        ensures rest_right { IfOk result (λ got. drop got right.new ≡ drop got right.old) }
        ensures kept { OnErr result ((left.new ≡ left.old) × (right.new ≡ right.old) × (self.new.given ≡ self.old.given)) }
        ensures given { IfOk result (λ got. self.new.given ≡ self.old.given + got * 4) }
        ensures same { SameReading self.old self.new }
        ensures failed { self.new.failed ≡ is_err result }
        ensures cause { HasCause self.old.faults self.new.faults result }
    {
        let all = &mut self.bytes[..];
        let bytes = &mut all[..left.len() * 4];
        let filled = fill(&mut self.source, bytes);
        match filled {
            Ok(count) => {
                let got = count / 4;
                take_pairs(&bytes[..got * 4], &mut left[..got], &mut right[..got]);
                self.given += (got * 4) as u32;
                Ok(got)
            }
            Err(failed) => {
                self.failed = true;
                Err(failed)
            }
        }
    }

    /// Hands the source back.
    pub fn into_source(self) -> S
        ensures { S.faults result ≡ self.faults }
    {
        self.source
    }
}

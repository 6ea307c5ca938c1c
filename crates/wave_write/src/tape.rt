ghost use Rattle.std.specs.Prelude.{◌≡◌, ◌+◌, ◌*◌, ◌%◌, ◌<◌, ◌≤◌, ◌++◌, [], List, ℤ, All, length, map, false, is_err, is_some, IfErr, IfOk, IfSome, OnErr, OnOk};
ghost use Rattle.std.specs.Option.{ForSome};
ghost use Rattle.std.specs.Int.{w32};
ghost use Rattle.std.specs.Int.RustNames.{FitsSigned};
ghost use Rattle.jack_host.specs.Causes.{HasCause, Rose};
ghost use Rattle.driver_words.specs.session_model.specs.Samples.{bytes_of, down, up, width};
ghost use Rattle.driver_words.specs.session_model.specs.WaveFiles.{IsFormat, IsWave, opening_text, wave_text};
ghost use Rattle.driver_words.specs.Tapes.{AreInOrder, Gained, GainedPart, HasFront, HasSamples, HasUnfinished, IsCut, SameFile};

use crate::finishing::{complete, write};
use crate::header::opening;
use jack_host::{Store, WriteFailed};
use jack_types::Format;
use samples::to_bytes;
use std::marker::Model;

// How many bytes are written at a time, at most.
const MOST_BYTES: usize = 4096;

/// A WAVE file that is written, sample after sample.
///
/// Until it is finished both size fields of its header are 0xFFFFFFFF.
#[derive(Drop)]
pub struct WaveOut<W: Store> {
    store: W,
    format: Format,
    written: u32,
    stopped: bool,
    // The bytes that were written last. They stay here, so that a write needs no buffer that is cleared first.
    bytes: [u8; MOST_BYTES],
}

impl<W: Store> Model for WaveOut<W> {
    ghost use Rattle.driver_words.specs.Tapes.{IsKept, Tape};

    ghost Value = { Tape };

    ghost view = { λ out. record { format = out.format; name = W.name out.store; bytes = W.content out.store; faults = W.faults out.store; written = out.written; stopped = out.stopped } };

    ghost invariant = { λ out. IsKept out.format (W.content out.store) out.written out.stopped };
}

impl<W: Store> WaveOut<W> {
    /// Writes the header of an unfinished file to an empty store, in one write.
    ///
    /// After a failure the store comes back with a front of the header.
    pub fn start(mut store: W, format: Format) -> Result<WaveOut<W>, (W, WriteFailed)>
        requires empty { ForSome (W.content store) (λ bytes. bytes ≡ []) }
        requires format { IsFormat format }
        ensures begun { IfOk result (λ out. HasSamples out []) }
        ensures format { IfOk result (λ out. (out.format ≡ format) × (out.written ≡ 0)) }
        ensures name { IfOk result (λ out. out.name ≡ W.name store) }
        ensures tells { IfOk result (λ out. is_some out.bytes ≡ is_some (W.content store)) }
        ensures later { IfOk result (λ out. W.faults store ≤ out.faults) }

        ensures front { IfErr result (λ e. IfSome (W.content e.0) (IsCut format)) }
        ensures back { IfErr result (λ e. (W.name e.0 ≡ W.name store) × (is_some (W.content e.0) ≡ is_some (W.content store))) }
        ensures cause { IfErr result (λ e. (W.faults store ≤ W.faults e.0) × Rose (W.faults store) (W.faults e.0)) }
    {
        match store.write_at(0, &opening(format)) {
            Ok(()) => Ok(WaveOut {
                store,
                format,
                written: 0,
                stopped: false,
                bytes: [0; MOST_BYTES],
            }),
            Err(_) => Err((store, WriteFailed)),
        }
    }

    /// Appends samples, which may end within a frame.
    ///
    /// No byte makes no write, up to 4,096 bytes are one write, and more are several writes of at most so
    /// many bytes. After a failure the file is stopped: only `stop` may be called.
    pub fn put(&mut self, samples: &[i32]) -> Result<(), WriteFailed>
        requires going { self.old.stopped ≡ false }
        requires room { self.old.written + length samples.now * width self.old.format.bits ≤ 4294967000 }
        ensures gained { OnOk result (Gained self.old self.new (bytes_of self.old.format.bits samples.now)) }
        ensures part { OnErr result (GainedPart self.old self.new (bytes_of self.old.format.bits samples.now)) }
        ensures stopped { self.new.stopped ≡ is_err result }

        // The samples go behind whatever samples the file had.
        ensures samples { OnOk result ((before : List ℤ) → HasSamples self.old before → HasSamples self.new (before ++ samples.now)) }
        ensures front { OnErr result ((before : List ℤ) → HasSamples self.old before → HasUnfinished self.old.format (before ++ samples.now) self.new.bytes) }

        ensures file { SameFile self.old self.new }
        ensures cause { HasCause self.old.faults self.new.faults result }
    {
        self.put_all(samples)
    }

    // Appends samples, in as many writes as they need.
    fn put_all(&mut self, samples: &[i32]) -> Result<(), WriteFailed>
        requires going { self.old.stopped ≡ false }
        requires room { self.old.written + length samples.now * width self.old.format.bits ≤ 4294967000 }
        ensures gained { OnOk result (Gained self.old self.new (bytes_of self.old.format.bits samples.now)) }
        ensures part { OnErr result (GainedPart self.old self.new (bytes_of self.old.format.bits samples.now)) }
        ensures stopped { self.new.stopped ≡ is_err result }
        ensures file { SameFile self.old self.new }
        ensures cause { HasCause self.old.faults self.new.faults result }
    {
        let most = self.most_samples();
        let mut at = 0;
        'putting: while at < samples.len() {
            let end = samples.len().min(at + most);
            self.put_piece(&samples[at..end])?;
            at = end;
        }
        Ok(())
    }

    // How many samples one write takes.
    fn most_samples(&self) -> usize
        ensures some { 0 < result }
        ensures few { result ≤ 4096 }
        ensures fits { result * width self.now.format.bits ≤ 4096 }
    {
        MOST_BYTES / usize::from(self.format.bits / 8)
    }

    // Appends samples of at most 4,096 bytes, in one write.
    fn put_piece(&mut self, samples: &[i32]) -> Result<(), WriteFailed>
        requires going { self.old.stopped ≡ false }
        requires room { self.old.written + length samples.now * width self.old.format.bits ≤ 4294967000 }
        requires short { length samples.now * width self.old.format.bits ≤ 4096 }
        ensures gained { OnOk result (Gained self.old self.new (bytes_of self.old.format.bits samples.now)) }
        ensures part { OnErr result (GainedPart self.old self.new (bytes_of self.old.format.bits samples.now)) }
        ensures stopped { self.new.stopped ≡ is_err result }
        ensures file { SameFile self.old self.new }
        ensures cause { HasCause self.old.faults self.new.faults result }
    {
        let bits = self.format.bits;
        let count = samples.len() * usize::from(bits / 8);
        let all = &mut self.bytes[..];
        let bytes = &mut all[..count];
        to_bytes(bits, samples, bytes);
        let place = 44 + u64::from(self.written);
        let written = write(&mut self.store, place, bytes);
        match written {
            Ok(()) => {
                self.written += bytes.len() as u32;
                Ok(())
            }
            Err(failed) => {
                self.stopped = true;
                Err(failed)
            }
        }
    }

    /// Finishes the file: a zero byte behind an odd number of sample bytes, then the size at 4, then the size
    /// at 40. The store comes back in each case.
    pub fn finish(self) -> (W, Result<(), WriteFailed>)
        requires { self.stopped ≡ false }
        ensures finished { OnOk result.1 ((samples : List ℤ) → HasSamples self samples → IfSome (W.content result.0) (λ text. text ≡ wave_text self.format samples)) }
        ensures front { OnErr result.1 ((samples : List ℤ) → HasSamples self samples → HasFront self.format samples (W.content result.0)) }

        // The size at 4 is written before the size at 40.
        ensures order { OnErr result.1 ((samples : List ℤ) → HasSamples self samples → IfSome (W.content result.0) (AreInOrder (opening_text self.format) (wave_text self.format samples))) }

        // A finished file of whole frames is a wave, of the samples but for the bits that the width leaves out.
        ensures wave { OnOk result.1 ((samples : List ℤ) → HasSamples self samples → length samples % self.format.channels ≡ 0 → All (FitsSigned w32) samples
            → IfSome (W.content result.0) (λ text. IsWave text self.format (map (λ x. up self.format.bits (down self.format.bits x)) samples))) }

        ensures name { W.name result.0 ≡ self.name }
        ensures tells { is_some (W.content result.0) ≡ is_some self.bytes }
        ensures cause { HasCause self.faults (W.faults result.0) result.1 }
    {
        let WaveOut {
            mut store,
            format: _,
            written,
            stopped: _,
            bytes: _,
        } = self;
        let result = complete(&mut store, written);
        (store, result)
    }

    /// Hands the store back as it is.
    pub fn stop(self) -> W
        ensures name { W.name result ≡ self.name }
        ensures bytes { W.content result ≡ self.bytes }
        ensures faults { W.faults result ≡ self.faults }
    {
        self.store
    }

    /// Whether a put has failed.
    pub fn stopped(&self) -> bool
        ensures { result ≡ self.now.stopped }
    {
        self.stopped
    }
}

//! The capture of a rehearsal.

ghost use Rattle.std.specs.Prelude.{◌≡◌, ◌^◌, [], IfOk};
ghost use Rattle.host_memory.specs.Memory.{store_bytes};
ghost use Rattle.rehearsal_laws.specs.Lines.{Adds};
ghost use Rattle.rehearsal_model.specs.Rehearsals.{capture_samples, draw, drawn, rehearsal_format, sample_drawn};
ghost use Rattle.session_model.specs.Samples.{signed, up};
ghost use Rattle.session_model.specs.WaveFiles.{AreWritable, wave_text};

use crate::drawing::draw;
use host_memory::MemoryStore;
use jack_types::{Format, Memory};
use rand_pcg::Pcg32;
use std::alloc::{AllocError, Global};
use wave_write::WaveOut;

const SAMPLES: u32 = 1_280_000;

const STEREO_16: Format = Format {
    rate: 48_000,
    channels: 2,
    bits: 16,
};

// A sample of 16 bits: the low half of a word, as two's complement.
fn draw_sample(rng: &mut Pcg32) -> i32
    ensures value { result ≡ up 16 (signed 16 (draw (2 ^ 16) rng.old).0) }
    ensures next { rng.new ≡ (draw (2 ^ 16) rng.old).1 }
{
    let low = draw(rng, 0x1_0000) as i32;
    let stored = if low < 0x8000 { low } else { low - 0x1_0000 };
    stored * 0x1_0000
}

// One sample more.
fn add_sample(samples: &mut Vec<i32>, rng: &mut Pcg32) -> Result<(), AllocError>
    ensures { IfOk result (λ _. Adds samples.old.items rng.old (sample_drawn 0 rng.old) samples.new.items rng.new) }
{
    let sample = draw_sample(rng);
    samples.push(sample)?;
    Ok(())
}

/// The samples of the capture: 640,000 frames of two channels.
pub(crate) fn draw_samples(alloc: Global, rng: &mut Pcg32) -> Result<Vec<i32>, AllocError>
    ensures { IfOk result (λ samples. Adds [] rng.old (drawn sample_drawn capture_samples 0 rng.old) samples.items rng.new) }
{
    let mut samples = Vec::new(alloc);
    for _i in 0..SAMPLES {
        add_sample(&mut samples, rng)?;
    }
    Ok(samples)
}

/// The file that they are.
pub(crate) fn file_of(alloc: Global, samples: &[i32]) -> Result<MemoryStore, Memory>
    requires { AreWritable rehearsal_format samples.now }
    ensures { IfOk result (λ store. store_bytes store ≡ wave_text rehearsal_format samples.now) }
{
    let Ok(mut out) = WaveOut::start(MemoryStore::new(alloc), STEREO_16) else {
        return Err(Memory);
    };
    if out.put(samples).is_err() {
        return Err(Memory);
    }
    match out.finish() {
        (store, Ok(())) => Ok(store),
        (_, Err(_)) => Err(Memory),
    }
}

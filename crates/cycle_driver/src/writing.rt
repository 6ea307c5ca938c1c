//! How a period is played back.

ghost use Rattle.std.specs.Prelude.{◌≡◌, ◌*◌, ◌+◌, ◌≤◌, ◌++◌, List, OnErr, OnOk, false, is_err, ℤ};
ghost use Rattle.jack_host.specs.Causes.{HasCause};
ghost use Rattle.session_model.specs.Samples.{width};
ghost use Rattle.cycle_works.specs.Gears.{mixed};
ghost use Rattle.driver_words.specs.Tapes.{HasSamples, HasUnfinished, SameFile};

use client_kinds::Guest;
use cycle_works::Works;
use jack_host::{Source, Store, WriteFailed};
use playback_mix::Playback;
use wave_write::WaveOut;

/// Mixes a period and appends it to the file.
pub(crate) fn play_back<S: Source, W: Store, G: Guest>(
    works: &Works<S, G>,
    mix: &mut Playback,
    file: &mut WaveOut<W>,
) -> Result<(), WriteFailed>
    requires period { works.now.set ≤ mix.old.room }
    requires going { file.old.stopped ≡ false }
    requires room { file.old.written + works.now.set * mix.old.channels * width file.old.format.bits ≤ 4294967000 }
    ensures samples { OnOk result ((before : List ℤ) → HasSamples file.old before → HasSamples file.new (before ++ mixed works.now mix.old.channels)) }
    ensures front { OnErr result ((before : List ℤ) → HasSamples file.old before → HasUnfinished file.old.format (before ++ mixed works.now mix.old.channels) file.new.bytes) }
    ensures written { OnOk result (file.new.written ≡ file.old.written + works.now.set * mix.old.channels * width file.old.format.bits) }
    ensures stopped { file.new.stopped ≡ is_err result }
    ensures file { SameFile file.old file.new }
    ensures room { (mix.new.channels ≡ mix.old.channels) × (mix.new.room ≡ mix.old.room) }
    ensures cause { HasCause file.old.faults file.new.faults result }
{
    works.mix(mix);
    file.put(mix.block())
}

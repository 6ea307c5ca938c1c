//! How a driver is made.

ghost use Rattle.std.specs.Prelude.{◌≡◌, ◌<◌, ◌≤◌, IfOk, None};
ghost use Rattle.driver_laws.specs.Drivers.{greatest_period};
ghost use Rattle.session_model.specs.Grammar.{IsScript};

use crate::driver::Driver;
use client_kinds::Guest;
use cycle_plan::Plan;
use cycle_works::Works;
use cycle_works::script_needs::greatest_period;
use cycle_works::session_script::Script;
use graph_word::Reader;
use jack_host::{Source, Store};
use jack_types::{Format, Memory};
use playback_mix::Playback;
use std::alloc::Global;
use wave_pcm::Wave;

/// How many seats there are for those who play a script: one for each worker, or the caller's alone.
fn seats(script: &Script) -> u32
    ensures { (0 < result) × (result ≤ 16) }
{
    match script.header().threads {
        Some(workers) => u32::from(workers),
        None => 1,
    }
}

/// The room for the playback of a script's channels.
fn make_mix(alloc: Global, script: &Script) -> Result<Playback, Memory>
    ensures { IfOk result (λ mix. (mix.channels ≡ script.now.header.playback) × (mix.room ≡ greatest_period script.now)) }
{
    Playback::new(alloc, script.header().playback, greatest_period(script))
}

/// A driver of a script's works, with this room for its playback, and with none attached.
fn around<S: Source, W: Store, G: Guest>(
    script: &Script,
    works: Works<S, G>,
    mix: Playback,
) -> Driver<S, W, G>
    requires lawful { IsScript script.now }
    requires mix { (mix.channels ≡ script.now.header.playback) × (mix.room ≡ greatest_period script.now) }
    requires script { works.script ≡ script.now }
    requires playback { works.playback ≡ None }
    ensures { result ≡ works }
{
    let header = script.header();
    Driver {
        works,
        mix,
        format: Format {
            rate: header.rate,
            channels: header.playback,
            bits: header.bits,
        },
        playback: None,
    }
}

impl<S: Source, W: Store, G: Guest> Driver<S, W, G> {
    ghost use Rattle.std.specs.Prelude.{◌≡◌, ◌*◌, ◌≤◌, [], IfErr, IfOk, false, length, map};
    ghost use Rattle.session_model.specs.Scripts.{turns};
    ghost use Rattle.driver_laws.specs.Drivers.{greatest_period};
    ghost use Rattle.driver_laws.specs.Openings.{IsNew};
    ghost use Rattle.recorder_rings.specs.Openings.{IsNew as AreNew};
    ghost use Rattle.task_laws.specs.Calls.{guests_needed};
    ghost use Rattle.cycle_works.specs.Gears.{driver_of};
    ghost use Rattle.disk_feeds.specs.Openings.{IsNew as AreNewFeeds};
    ghost use Rattle.session_model.specs.Grammar.{IsScript};

    /// The driver of a script's cycles, with these guests, over a capture of the script's channels of which nothing was read.
    /// No cycle was begun by the reader yet. All memory is taken here; where it lacks, the capture comes back.
    pub fn new(
        alloc: Global,
        script: &Script,
        reader: Reader<Plan>,
        capture: Wave<S>,
        guests: Vec<G>,
    ) -> Result<Driver<S, W, G>, (Wave<S>, Memory)>
        requires lawful { IsScript script.now }
        requires rows { reader.0.rows ≡ [] }
        requires capture { (capture.format.channels ≡ script.now.header.capture) × (capture.failed ≡ false) }
        requires guests { guests_needed script.now ≤ length guests.items }
        ensures new { IfOk result (λ driver. IsNew script.now (map G.sound (map G.score guests.items)) (driver_of G.sound driver)) }
        ensures capture { IfOk result (λ driver. driver.capture.reading ≡ capture) }
        ensures reader { IfOk result (λ driver. driver.reading ≡ reader.0) }
        ensures rings { IfOk result (λ driver. AreNew script.now.header.recorders script.now.header.ring (greatest_period script.now) (length (turns script.now) * length script.now.header.recorders) driver.rings) }
        ensures disks { IfOk result (λ driver. AreNewFeeds script.now.header.disks script.now.header.ring (greatest_period script.now) (length (turns script.now) * length script.now.header.disks) driver.disks) }
        ensures back { IfErr result (λ refused. refused.0 ≡ capture) }
    {
        let steals = script.header().steal;
        match Works::new(
            alloc,
            script,
            reader,
            capture,
            guests,
            seats(script),
            steals,
        ) {
            Ok(works) => match make_mix(alloc, script) {
                Ok(mix) => Ok(around(script, works, mix)),
                Err(memory) => Err((works.into_capture(), memory)),
            },
            Err(refused) => Err(refused),
        }
    }
}

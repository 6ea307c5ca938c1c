//! How a session's files are finished, one by one.

ghost use Rattle.std.specs.Prelude.{◌≡◌, None, OnErr, OnOk, Some, false, option_map};
ghost use Rattle.disk_recorder.specs.Recordings.{MayWrite};
ghost use Rattle.driver_words.specs.Rings.{IsPair};
ghost use Rattle.driver_words.specs.Tapes.{Tape};
ghost use Rattle.recorder_files.specs.Recorders.{Stored};
ghost use Rattle.session_works.specs.SerialWords.{IsSound};
ghost use Rattle.session_works.specs.Insides.{parts_of, seen};
ghost use Rattle.session_works.specs.Parts.{HasOpenFiles};
ghost use Rattle.session_ends.specs.Closings.{CloseFails, Closed, ClosesAll, Failed, PlaybackCloses};

use client_kinds::Guest;
use jack_host::{Source, Store, WriteFailed};
use record_ring::Producer;
use recorder_files::Recorder;
use session_works::{Driver, SessionWorks};

/// Empties a recorder's ring into its file and finishes that.
fn close_recorder<W: Store>(
    producer: &mut Producer,
    recorder: &mut Recorder<W>,
    ring: u32,
) -> Result<(), WriteFailed>
    requires pair { IsPair producer.old recorder.old.getting }
    requires file { (tape : Tape) × (recorder.old.tape ≡ Some tape) × MayWrite recorder.old.getting tape }
    ensures closed { OnOk result (Closed ring producer.old recorder.old producer.new recorder.new) }
    ensures failed { OnErr result (Failed ring producer.old recorder.old recorder.new) }
{
    recorder.give_up(producer, ring)?;
    recorder.close()
}

/// Empties each recorder's ring into its file and finishes that. The first file that fails ends it.
pub(crate) fn close_recorders<S: Source, W: Store, G: Guest>(
    works: &mut SessionWorks<S, W, G>,
    ring: u32,
) -> Result<(), WriteFailed>
    requires sound { IsSound (seen G.sound works.old) }
    requires files { HasOpenFiles (parts_of works.old) }
    requires ring { ring ≡ works.old.driver.script.header.ring }
    ensures closed { OnOk result (ClosesAll (parts_of works.old) (parts_of works.new)) }
    ensures failed { OnErr result (CloseFails (parts_of works.old) (parts_of works.new)) }
    ensures desk { works.new.desk ≡ works.old.desk }
    ensures readers { works.new.readers.items ≡ works.old.readers.items }
    ensures driver { works.new.driver ≡ record works.old.driver { rings = record works.old.driver.rings { rings = works.new.driver.rings.rings } } }
{
    for recorder in 0..works.recorders.len() {
        let one = &mut works.recorders[recorder];
        close_recorder(works.driver.producer(recorder as u8), one, ring)?;
    }
    Ok(())
}

/// Finishes the playback and keeps its store.
pub(crate) fn close_playback<S: Source, W: Store, G: Guest>(
    driver: &mut Driver<S, W, G>,
    playback: &mut Option<W>,
) -> Result<(), WriteFailed>
    requires file { (tape : Tape) × (driver.old.playback ≡ Some tape) × (tape.stopped ≡ false) }
    ensures driver { driver.new ≡ record driver.old { playback = None } }
    ensures back { (tape : Tape) → driver.old.playback ≡ Some tape → (back : Stored) × (option_map (λ w. record { name = W.name w; bytes = W.content w; faults = W.faults w }) playback.new ≡ Some back) × PlaybackCloses result tape back }
{
    let Some(file) = driver.close() else {
        return Ok(());
    };
    let (store, finished) = file.finish();
    *playback = Some(store);
    finished
}

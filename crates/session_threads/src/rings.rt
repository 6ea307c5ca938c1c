//! How the ends of the recorders' rings learn how far the other has come.

ghost use Rattle.std.specs.Prelude.{◌≡◌, ◌<◌, length, slice_set};
ghost use Rattle.driver_words.specs.Rings.{IsPair, Renews};
ghost use Rattle.recorder_rings.specs.Sending.{ring_at};
ghost use Rattle.session_works.specs.Insides.{ArePaired, Aside, Stays, parts_with, seen_with};
ghost use Rattle.session_works.specs.Parts.{HasOpenFiles};
ghost use Rattle.thread_laws.specs.Segments.{Renewed};

use client_kinds::Guest;
use jack_host::{Source, Store};
use recorder_files::Recorder;
use session_works::Driver;

/// Takes the end mark of each recorder's ring away, and tells both ends how far the other has come. It may be called behind a
/// failure too.
pub(crate) fn renew_rings<S: Source, W: Store, G: Guest>(
    driver: &mut Driver<S, W, G>,
    recorders: &mut Vec<Recorder<W>>,
)
    requires pairs { ArePaired driver.old recorders.old.items }
    ensures renewed { (aside : Aside) → Renewed (seen_with G.sound aside driver.old recorders.old.items) (seen_with G.sound aside driver.new recorders.new.items) }
    ensures stays { (aside : Aside) → HasOpenFiles (parts_with aside driver.old recorders.old.items) → Stays G.sound (parts_with aside driver.old recorders.old.items) (parts_with aside driver.new recorders.new.items) }
    ensures driver { driver.new ≡ record driver.old { rings = record driver.old.rings { rings = driver.new.rings.rings } } }
{
    for recorder in 0..recorders.len() {
        renew_one(driver, &mut recorders[recorder], recorder as u8);
    }
}

// That of one recorder.
fn renew_one<S: Source, W: Store, G: Guest>(
    driver: &mut Driver<S, W, G>,
    recorder: &mut Recorder<W>,
    place: u8,
)
    requires there { place < length driver.old.rings.rings }
    requires pair { IsPair (ring_at driver.old.rings place) recorder.old.getting }
    ensures renews { Renews (ring_at driver.old.rings place) recorder.old.getting (ring_at driver.new.rings place) recorder.new.getting }
    ensures recorder { recorder.new ≡ record recorder.old { getting = recorder.new.getting } }
    ensures driver { driver.new ≡ record driver.old { rings = record driver.old.rings { rings = slice_set driver.old.rings.rings place (ring_at driver.new.rings place) } } }
{
    recorder.renew(driver.producer(place));
}

//! How blocks leave the rings of a session's recorders.

ghost use Rattle.std.specs.Prelude.{◌≡◌, ◌≤◌, ◌<◌, OnErr, OnOk, Some, length, slice_set};
ghost use Rattle.disk_recorder.specs.Recordings.{MayWrite};
ghost use Rattle.driver_words.specs.Rings.{IsPair};
ghost use Rattle.cycle_driver.specs.recorder_rings.specs.Sending.{ring_at};
ghost use Rattle.serial_laws.specs.Faults.{BreakUp};
ghost use Rattle.serial_laws.specs.Steps.{GiveUp, IsSound};
ghost use Rattle.session_works.specs.Giving.{BrokeOff, GaveUp};
ghost use Rattle.session_works.specs.Insides.{AreAble, ArePaired, Aside, Stays, parts_with, seen_with};
ghost use Rattle.session_works.specs.Parts.{HasOpenFiles, OneRose, stores_in};
ghost use Rattle.driver_words.specs.Tapes.{Tape};

use client_kinds::Guest;
use cycle_driver::Driver;
use jack_host::{Source, Store, WriteFailed};
use recorder_files::Recorder;

/// Writes blocks of a recorder's ring into its file, at most so many.
fn give_up_one<S: Source, W: Store, G: Guest>(
    driver: &mut Driver<S, W, G>,
    recorder: &mut Recorder<W>,
    place: u8,
    most: u32,
) -> Result<(), WriteFailed>
    requires there { place < length driver.old.rings.rings }
    requires pair { IsPair (ring_at driver.old.rings place) recorder.old.getting }
    requires file { (tape : Tape) × (recorder.old.tape ≡ Some tape) × MayWrite recorder.old.getting tape }
    requires few { recorder.old.blocks ≤ length recorder.old.getting.got }
    ensures given { OnOk result (GaveUp most (ring_at driver.old.rings place) recorder.old (ring_at driver.new.rings place) recorder.new) }
    ensures broken { OnErr result (BrokeOff (ring_at driver.old.rings place) recorder.old (ring_at driver.new.rings place) recorder.new) }
    ensures driver { driver.new ≡ record driver.old { rings = record driver.old.rings { rings = slice_set driver.old.rings.rings place (ring_at driver.new.rings place) } } }
{
    recorder.give_up(driver.producer(place), most)
}

/// Writes blocks of each recorder's ring into its file, at most so many. The first file that fails ends it.
///
/// Its clauses hold whatever is beside, since the desk may be out with the lanes.
pub(crate) fn give_up<S: Source, W: Store, G: Guest>(
    driver: &mut Driver<S, W, G>,
    recorders: &mut Vec<Recorder<W>>,
    most: u32,
) -> Result<(), WriteFailed>
    requires able { AreAble G.sound driver.old recorders.old.items }
    ensures given { (aside : Aside) → IsSound (seen_with G.sound aside driver.old recorders.old.items) → OnOk result (GiveUp most (seen_with G.sound aside driver.old recorders.old.items) (seen_with G.sound aside driver.new recorders.new.items)) }
    ensures broken { (aside : Aside) → IsSound (seen_with G.sound aside driver.old recorders.old.items) → OnErr result (BreakUp most (seen_with G.sound aside driver.old recorders.old.items) (seen_with G.sound aside driver.new recorders.new.items)) }
    ensures stays { (aside : Aside) → Stays G.sound (parts_with aside driver.old recorders.old.items) (parts_with aside driver.new recorders.new.items) }
    ensures cause { (aside : Aside) → OnErr result (OneRose (stores_in (parts_with aside driver.old recorders.old.items)) (stores_in (parts_with aside driver.new recorders.new.items))) }
    ensures driver { driver.new ≡ record driver.old { rings = driver.new.rings } }
    ensures pairs { ArePaired driver.old recorders.old.items → ArePaired driver.new recorders.new.items }
{
    for recorder in 0..recorders.len() {
        give_up_one(driver, &mut recorders[recorder], recorder as u8, most)?;
    }
    Ok(())
}

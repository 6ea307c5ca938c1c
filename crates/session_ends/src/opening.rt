//! The parts of a session, made of its script.

ghost use Rattle.std.specs.Prelude.{◌≡◌, ◌*◌, ◌≤◌, ℕ, All, IfErr, IfOk, None, Some, [], false, length, map, slice_get};
ghost use Rattle.session_model.specs.Grammar.{IsScript};
ghost use Rattle.session_model.specs.Scripts.{turns};
ghost use Rattle.graph_word.specs.Publications.{IsOpening as IsPublication};
ghost use Rattle.driver_words.specs.Rings.{IsOpening};
ghost use Rattle.session_works.specs.DeskWords.{IsDesk, IsNewDesk, base_of};
ghost use Rattle.driver_laws.specs.Drivers.{greatest_period as the_greatest_period};
ghost use Rattle.recorder_files.specs.Recorders.{Recording};
ghost use Rattle.recorder_rings.specs.Openings.{IsNew as AreNew};
ghost use Rattle.recorder_rings.specs.Sending.{ring_at};
ghost use Rattle.task_laws.specs.Calls.{guests_needed};
ghost use Rattle.session_works.specs.Drivers.{driver_of};
ghost use Rattle.session_works.specs.Parts.{stores_in};
ghost use Rattle.session_works.specs.RunWords.{Playing};
ghost use Rattle.session_works.specs.Standings.{IsAttaching};
ghost use Rattle.wave_pcm.specs.Readings.{Reading};
ghost use Rattle.session_ends.specs.Openings.{AreDisks};

use crate::reading::{make_readers, make_room};
use client_kinds::Guest;
use cycle_plan::Plan;
use graph_word::{Publisher, Reader, publication};
use jack_host::{Source, Store};
use jack_types::{Header, Memory};
use recorder_files::Recorder;
use session_script::Script;
use session_works::script_needs::greatest_period;
use session_works::{Desk, Driver, SessionParts, SessionWorks, kept_by_type};
use std::alloc::Global;
use wave_pcm::Wave;

/// A publication over three plans of a script's channels, of which nothing was published.
fn open_publication(
    alloc: Global,
    header: &Header,
) -> Result<(Publisher<Plan>, Reader<Plan>), Memory>
    requires channels { (1 ≤ header.now.capture) × (header.now.capture ≤ 8) × (1 ≤ header.now.playback) × (header.now.playback ≤ 8) }
    ensures opening { IfOk result (λ ends. IsPublication (record { capture = header.now.capture; playback = header.now.playback }) ends.0.0 ends.1.0) }
    ensures plan { IfOk result (λ ends. ends.0.1.base ≡ record { capture = header.now.capture; playback = header.now.playback }) }
{
    let first = Plan::new(alloc, header.capture, header.playback)?;
    let second = Plan::new(alloc, header.capture, header.playback)?;
    let third = Plan::new(alloc, header.capture, header.playback)?;
    match publication(alloc, first, second, third) {
        Ok(ends) => Ok(ends),
        Err(_) => Err(Memory),
    }
}

/// A script's desk before its first phase, and the end of its publication that reads plans.
fn open_desk(alloc: Global, script: &Script) -> Result<(Desk, Reader<Plan>), Memory>
    ensures desk { IfOk result (λ made. IsNewDesk script.now made.0.publishing made.0) }
    ensures opening { IfOk result (λ made. IsPublication (base_of script.now) made.0.publishing made.1.0) }
    ensures kept { IfOk result (λ made. IsDesk made.0) }
{
    let header = script.header();
    let (publisher, reader) = open_publication(alloc, &header)?;
    let desk = Desk::new(alloc, script, publisher)?;
    kept_by_type(&desk);
    Ok((desk, reader))
}

/// The recorders of a script, without files, over the ends of the driver's rings that get.
fn make_recorders<S: Source, W: Store, G: Guest>(
    alloc: Global,
    script: &Script,
    driver: &mut Driver<S, W, G>,
) -> Result<Vec<Recorder<W>>, Memory>
    requires lawful { IsScript script.now }
    requires script { driver.old.script ≡ script.now }
    requires rings { AreNew script.now.header.recorders script.now.header.ring (the_greatest_period script.now) (length (turns script.now) * length script.now.header.recorders) driver.old.rings }
    ensures formats { IfOk result (λ made. map (λ (r : Recording). r.format) made.items ≡ script.now.header.recorders) }
    ensures bare { IfOk result (λ made. All (λ (r : Recording). (r.tape ≡ None) × (r.store ≡ None) × (r.blocks ≡ 0)) made.items) }
    ensures pairs { IfOk result (λ made. (i : ℕ) (r : Recording) → slice_get made.items i ≡ Some r → (capacity : ℕ) × (samples : ℕ) × (most : ℕ) × IsOpening capacity samples most (ring_at driver.old.rings i) r.getting) }
    ensures driver { driver.new ≡ record driver.old { rings = record driver.old.rings { out = driver.new.rings.out } } }
{
    let header = script.header();
    let formats = header.recorders.as_slice();
    let period = greatest_period(script);
    let mut made = Vec::new(alloc);
    for recorder in 0..formats.len() {
        let format = formats[recorder];
        let Some(consumer) = driver.consumer(recorder as u8) else {
            unreachable!()
        };
        let samples = period * u32::from(format.channels);
        let one = Recorder::new(alloc, consumer, format, samples)?;
        if made.push(one).is_err() {
            return Err(Memory);
        }
    }
    Ok(made)
}

/// The parts of a script's session with these guests, over a capture of the script's channels and a file for each of its disks,
/// of which nothing was read. All memory is taken here, but that of its lanes and its segments; where it lacks, the capture and
/// the files come back.
pub fn open<S: Source, W: Store, G: Guest>(
    alloc: Global,
    script: &Script,
    capture: Wave<S>,
    disks: Vec<Wave<S>>,
    guests: Vec<G>,
) -> Result<SessionParts<S, W, G>, (Wave<S>, Vec<Wave<S>>, Memory)>
    requires lawful { IsScript script.now }
    requires capture { (capture.format.channels ≡ script.now.header.capture) × (capture.failed ≡ false) }
    requires disks { AreDisks script.now.header.disks disks.items }
    requires guests { guests_needed script.now ≤ length guests.items }
    ensures new { IfOk result (λ parts. IsAttaching G.sound parts × (parts.attached ≡ 0) × (stores_in parts ≡ [])) }
    ensures script { IfOk result (λ parts. parts.gear.script ≡ script.now) }
    ensures scores { IfOk result (λ parts. (driver_of G.sound parts.gear).scores ≡ map G.sound (map G.score guests.items)) }
    ensures capture { IfOk result (λ parts. parts.gear.capture.reading ≡ capture) }
    ensures players { IfOk result (λ parts. (map (λ (p : Playing). p.left) parts.players ≡ map (λ (w : Reading). w.left) disks.items) × (map (λ (p : Playing). p.faults) parts.players ≡ map (λ (w : Reading). w.faults) disks.items)) }
    ensures recorders { IfOk result (λ parts. length parts.recorders ≡ length script.now.header.recorders) }
    ensures back { IfErr result (λ refused. (refused.0 ≡ capture) × (refused.1.items ≡ disks.items)) }
{
    let (desk, reader) = match open_desk(alloc, script) {
        Ok(opened) => opened,
        Err(memory) => return Err((capture, disks, memory)),
    };
    let (blocks, room) = match make_room(alloc, script) {
        Ok(made) => made,
        Err(memory) => return Err((capture, disks, memory)),
    };
    let mut driver = match Driver::new(alloc, script, reader, capture, guests) {
        Ok(driver) => driver,
        Err((capture, memory)) => return Err((capture, disks, memory)),
    };
    match make_recorders(alloc, script, &mut driver) {
        Ok(recorders) => {
            let readers = make_readers(script, &mut driver, disks, blocks, room);
            Ok(SessionParts {
                works: SessionWorks {
                    desk,
                    driver,
                    recorders,
                    readers,
                },
                playback: None,
                attached: 0,
            })
        }
        Err(memory) => Err((driver.into_capture(), disks, memory)),
    }
}

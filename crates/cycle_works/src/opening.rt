//! How the works are made.

ghost use Rattle.std.specs.Prelude.{◌≡◌, ◌<◌, ◌≤◌, IfErr, IfOk, [], ◌∷◌, false, length, map};
ghost use Rattle.std.specs.Vec.{vec_capacity};
ghost use Rattle.midi_stage.specs.driver_laws.specs.Openings.{IsNew};
ghost use Rattle.midi_stage.specs.task_laws.specs.Calls.{guests_needed};
ghost use Rattle.session_model.specs.Grammar.{IsScript};
ghost use Rattle.cycle_laws.specs.Gears.{driver_of};
ghost use Rattle.cycle_works.specs.Makings.{AreNewDisks, AreNewLists, AreNewRings, IsMade, IsNewMidi, IsNewOutfit, IsNewStage, IsNewTransport, IsOpeningPlan, IsRoom, IsUnread};

use crate::parts::Parts;
use crate::works::Works;
use client_kinds::Guest;
use client_stage::Stage;
use client_stage::device_periods::Capture;
use client_stage::disk_feeds::{DiskFeeds, new_disks_are_ready};
use graph_word::Reader;
use jack_host::Source;
use jack_types::{Memory, Moment};
use midi_stage::MidiStage;
use midi_stage::cycle_plan::Plan;
use midi_stage::laws::what_is_carried;
use midi_stage::script_needs::{cycles, greatest_period, open_kinds};
use midi_stage::session_script::Script;
use midi_stage::task_laws::scripts::kinds_are_of_the_script;
use plan_transport::PlanTransport;
use proof_notes::Log;
use recorder_rings::RecorderRings;
use std::alloc::Global;
use wave_pcm::Wave;

/// What is kept of each cycle.
#[derive(Drop)]
struct Lists {
    numbers: Vec<u32>,
    moments: Vec<Moment>,
}

/// What stands around the stage.
#[derive(Drop)]
struct Outfit {
    transport: PlanTransport,
    midi: MidiStage,
    rings: RecorderRings,
    disks: DiskFeeds,
    lists: Lists,
}

/// All memory of the works but the capture's.
#[derive(Drop)]
struct Made<G: Guest> {
    stage: Stage<G>,
    outfit: Outfit,
}

/// No number yet, with room for one of each cycle of a script.
fn no_numbers(alloc: Global, script: &Script) -> Result<Vec<u32>, Memory>
    ensures { IfOk result (λ numbers. IsRoom script.now numbers.items (vec_capacity numbers)) }
{
    match Vec::with_capacity(alloc, cycles(script) as usize) {
        Ok(numbers) => Ok(numbers),
        Err(_) => Err(Memory),
    }
}

/// No moment yet, with room for one of each cycle of a script.
fn no_moments(alloc: Global, script: &Script) -> Result<Vec<Moment>, Memory>
    ensures { IfOk result (λ moments. IsRoom script.now moments.items (vec_capacity moments)) }
{
    match Vec::with_capacity(alloc, cycles(script) as usize) {
        Ok(moments) => Ok(moments),
        Err(_) => Err(Memory),
    }
}

/// The lists of a script's cycles, before the first.
fn make_lists(alloc: Global, script: &Script) -> Result<Lists, Memory>
    ensures { IfOk result (AreNewLists script.now) }
{
    let numbers = no_numbers(alloc, script)?;
    let moments = no_moments(alloc, script)?;
    Ok(Lists { numbers, moments })
}

/// A plan without changes, of a script's channels.
fn opening_plan(alloc: Global, script: &Script) -> Result<Plan, Memory>
    ensures { IfOk result (IsOpeningPlan script.now) }
{
    let header = script.header();
    Plan::new(alloc, header.capture, header.playback)
}

/// The stage of a script's clients with so many seats, on which nobody plays yet.
fn make_stage<G: Guest>(
    alloc: Global,
    script: &Script,
    guests: Vec<G>,
    seats: u32,
    steals: bool,
) -> Result<Stage<G>, Memory>
    requires lawful { IsScript script.now }
    requires seats { (0 < seats) × (seats ≤ 16) }
    ensures { IfOk result (IsNewStage script.now (map G.score guests.items)) }
{
    kinds_are_of_the_script();
    let opening = opening_plan(alloc, script)?;
    let kinds = open_kinds(alloc, script)?;
    Stage::new(
        alloc,
        kinds.as_slice(),
        guests,
        greatest_period(script),
        seats,
        steals,
        &opening,
    )
}

/// The rings of a script's recorders, with room for an overrun of each in each cycle.
fn make_rings(alloc: Global, script: &Script) -> Result<RecorderRings, Memory>
    ensures { IfOk result (AreNewRings script.now) }
{
    let header = script.header();
    let recorders = header.recorders.as_slice();
    let overruns = cycles(script) as usize * recorders.len();
    RecorderRings::new(
        alloc,
        recorders,
        header.ring,
        greatest_period(script),
        overruns,
    )
}

/// The rings of a script's disks, with room for an underrun of each in each cycle.
fn make_disks(alloc: Global, script: &Script) -> Result<DiskFeeds, Memory>
    ensures { IfOk result (AreNewDisks script.now) }
{
    let header = script.header();
    let disks = header.disks.as_slice();
    let underruns = cycles(script) as usize * disks.len();
    DiskFeeds::new(
        alloc,
        disks,
        header.ring,
        greatest_period(script),
        underruns,
    )
}

/// The MIDI clients of a script, of which none played yet.
fn make_midi(alloc: Global, script: &Script) -> Result<MidiStage, Memory>
    ensures { IfOk result (IsNewMidi script.now) }
{
    MidiStage::new(alloc, script)
}

/// A transport of a script's rate, before the first cycle.
fn make_transport(script: &Script) -> PlanTransport
    ensures { IsNewTransport script.now result }
{
    PlanTransport::new(script.header().rate)
}

/// What stands around the stage of a script's clients, before the first cycle.
fn make_outfit(alloc: Global, script: &Script) -> Result<Outfit, Memory>
    ensures { IfOk result (IsNewOutfit script.now) }
{
    let midi = make_midi(alloc, script)?;
    let rings = make_rings(alloc, script)?;
    let disks = make_disks(alloc, script)?;
    let lists = make_lists(alloc, script)?;
    Ok(Outfit {
        transport: make_transport(script),
        midi,
        rings,
        disks,
        lists,
    })
}

/// Takes all memory of a script's works but the capture's.
fn make<G: Guest>(
    alloc: Global,
    script: &Script,
    guests: Vec<G>,
    seats: u32,
    steals: bool,
) -> Result<Made<G>, Memory>
    requires lawful { IsScript script.now }
    requires seats { (0 < seats) × (seats ≤ 16) }
    ensures { IfOk result (IsMade script.now (map G.score guests.items)) }
{
    let stage = make_stage(alloc, script, guests, seats, steals)?;
    let outfit = make_outfit(alloc, script)?;
    Ok(Made { stage, outfit })
}

/// A script, noted for proofs.
fn note(script: &Script) -> Log<(), Script>
    ensures { result.items ≡ (tt, script.now) ∷ [] }
{
    Log::new().and(&(), script)
}

/// Works of their parts, before the first cycle.
fn assemble<S: Source, G: Guest>(
    script: &Script,
    reader: Reader<Plan>,
    capture: Capture<S>,
    made: Made<G>,
) -> Works<S, G>
    requires lawful { IsScript script.now }
    requires rows { reader.0.rows ≡ [] }
    requires capture { IsUnread script.now capture }
    requires made { IsMade script.now made.stage.staged.owned.scores made }
    requires guests { guests_needed script.now ≤ length made.stage.staged.owned.scores }
    ensures new { IsNew script.now (map G.sound made.stage.staged.owned.scores) (driver_of G.sound result) }
    ensures capture { result.capture ≡ capture }
    ensures reader { result.reading ≡ reader.0 }
    ensures rings { result.rings ≡ made.outfit.rings }
    ensures disks { result.disks ≡ made.outfit.disks }
{
    new_disks_are_ready();
    what_is_carried();
    let Outfit {
        transport,
        midi,
        rings,
        disks,
        lists,
    } = made.outfit;
    let Lists { numbers, moments } = lists;
    Works {
        script: note(script),
        parts: Parts {
            reader,
            stage: made.stage,
            midi,
            capture,
            disks,
            transport,
            rings,
            numbers,
            moments,
            set: script.header().period,
        },
        failed: false,
    }
}

/// Works of their parts over a file, before the first cycle; the file comes back where its channels find no memory.
fn over<S: Source, G: Guest>(
    alloc: Global,
    script: &Script,
    reader: Reader<Plan>,
    capture: Wave<S>,
    made: Made<G>,
) -> Result<Works<S, G>, (Wave<S>, Memory)>
    requires lawful { IsScript script.now }
    requires rows { reader.0.rows ≡ [] }
    requires capture { (capture.format.channels ≡ script.now.header.capture) × (capture.failed ≡ false) }
    requires made { IsMade script.now made.stage.staged.owned.scores made }
    requires guests { guests_needed script.now ≤ length made.stage.staged.owned.scores }
    ensures new { IfOk result (λ works. IsNew script.now (map G.sound made.stage.staged.owned.scores) (driver_of G.sound works)) }
    ensures capture { IfOk result (λ works. works.capture.reading ≡ capture) }
    ensures reader { IfOk result (λ works. works.reading ≡ reader.0) }
    ensures rings { IfOk result (λ works. works.rings ≡ made.outfit.rings) }
    ensures disks { IfOk result (λ works. works.disks ≡ made.outfit.disks) }
    ensures back { IfErr result (λ refused. refused.0 ≡ capture) }
{
    match Capture::new(alloc, capture, greatest_period(script)) {
        Ok(capture) => Ok(assemble(script, reader, capture, made)),
        Err(refused) => Err(refused),
    }
}

impl<S: Source, G: Guest> Works<S, G> {
    ghost use Rattle.std.specs.Prelude.{◌≡◌, ◌*◌, ◌<◌, ◌≤◌, [], IfErr, IfOk, false, length, map};
    ghost use Rattle.session_model.specs.Scripts.{turns};
    ghost use Rattle.midi_stage.specs.driver_laws.specs.Drivers.{greatest_period};
    ghost use Rattle.midi_stage.specs.driver_laws.specs.Openings.{IsNew};
    ghost use Rattle.recorder_rings.specs.Openings.{IsNew as AreNew};
    ghost use Rattle.midi_stage.specs.task_laws.specs.Calls.{guests_needed};
    ghost use Rattle.cycle_laws.specs.Gears.{driver_of};
    ghost use Rattle.client_stage.specs.disk_feeds.specs.Openings.{IsNew as AreNewFeeds};
    ghost use Rattle.session_model.specs.Grammar.{IsScript};

    /// The works of a script's cycles, with these guests and so many seats for those who play, which take each other's clients
    /// where they steal, over a capture of the script's channels of which nothing was read. No cycle was begun by the reader
    /// yet. All memory is taken here; where it lacks, the capture comes back.
    pub fn new(
        alloc: Global,
        script: &Script,
        reader: Reader<Plan>,
        capture: Wave<S>,
        guests: Vec<G>,
        seats: u32,
        steals: bool,
    ) -> Result<Works<S, G>, (Wave<S>, Memory)>
        requires lawful { IsScript script.now }
        requires rows { reader.0.rows ≡ [] }
        requires capture { (capture.format.channels ≡ script.now.header.capture) × (capture.failed ≡ false) }
        requires guests { guests_needed script.now ≤ length guests.items }
        requires seats { (0 < seats) × (seats ≤ 16) }
        ensures new { IfOk result (λ works. IsNew script.now (map G.sound (map G.score guests.items)) (driver_of G.sound works)) }
        ensures capture { IfOk result (λ works. works.capture.reading ≡ capture) }
        ensures reader { IfOk result (λ works. works.reading ≡ reader.0) }
        ensures rings { IfOk result (λ works. AreNew script.now.header.recorders script.now.header.ring (greatest_period script.now) (length (turns script.now) * length script.now.header.recorders) works.rings) }
        ensures disks { IfOk result (λ works. AreNewFeeds script.now.header.disks script.now.header.ring (greatest_period script.now) (length (turns script.now) * length script.now.header.disks) works.disks) }
        ensures back { IfErr result (λ refused. refused.0 ≡ capture) }
    {
        match make(alloc, script, guests, seats, steals) {
            Ok(made) => over(alloc, script, reader, capture, made),
            Err(memory) => Err((capture, memory)),
        }
    }
}

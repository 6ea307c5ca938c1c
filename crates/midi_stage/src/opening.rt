//! How the stage of MIDI clients is made.

ghost use Rattle.std.specs.Prelude.{◌≡◌, ◌++◌, ◌∷◌, All, IfOk, OnOk, [], filter, is_some, map, replicate};
ghost use Rattle.std.specs.Vec.{vec_capacity};
ghost use Rattle.midi_player.specs.Standings.{IsMidi};
ghost use Rattle.midi_seats.specs.Owning.{midi_kinds};
ghost use Rattle.midi_seats.specs.Seating.{midi_code};
ghost use Rattle.midi_stage.specs.Openings.{AreForScript, AreNew, AreNewSounds, IsRoomy, new_owned, new_standing};

use crate::parts::Parts;
use crate::playing::Rooms;
use crate::sounds::{Output, Sounds};
use jack_types::{Kind, Memory};
use midi_player::MidiBench;
use midi_ports::{EventList, Events};
use midi_seats::Owned;
use midi_seats::seating::code_of;
use midi_wiring::MidiWiring;
use script_needs::open_kinds;
use script_needs::session_script::Script;
use std::alloc::Global;

/// The greatest number of nodes.
const MOST_NODES: usize = 64;

/// The greatest number of ports, and so of MIDI outputs.
const MOST_PORTS: usize = 2064;

/// The number of a script's lists.
const LISTS: u8 = 16;

/// Puts an item behind the others.
fn add<T: Drop>(items: &mut Vec<T>, item: T) -> Result<(), Memory>
    ensures { OnOk result (items.new.items ≡ items.old.items ++ item ∷ []) }
{
    match items.push(item) {
        Ok(()) => Ok(()),
        Err(_) => Err(Memory),
    }
}

/// Those of these kinds that are of MIDI clients.
fn only_midi(alloc: Global, kinds: &[Kind]) -> Result<Vec<Kind>, Memory>
    ensures { IfOk result (λ midi. midi.items ≡ filter (λ kind. is_some (midi_code kind)) kinds.now) }
{
    let mut midi = Vec::new(alloc);
    for kind in kinds {
        if code_of(*kind).is_some() {
            add(&mut midi, *kind)?;
        }
    }
    Ok(midi)
}

/// The kinds of the MIDI clients that a script opens.
fn kinds_of(alloc: Global, script: &Script) -> Result<Vec<Kind>, Memory>
    ensures { IfOk result (λ kinds. kinds.items ≡ midi_kinds script.now) }
{
    let all = open_kinds(alloc, script)?;
    only_midi(alloc, all.as_slice())
}

/// A bench for each of these kinds.
fn make_benches(alloc: Global, kinds: &[Kind]) -> Result<Vec<MidiBench>, Memory>
    requires { All IsMidi kinds.now }
    ensures { IfOk result (λ benches. benches.items ≡ map new_standing kinds.now) }
{
    let mut benches = Vec::new(alloc);
    for kind in kinds {
        let bench = MidiBench::new(alloc, *kind)?;
        add(&mut benches, bench)?;
    }
    Ok(benches)
}

/// A bench for this kind, which nobody owns.
fn owned(kind: Kind) -> Owned
    ensures { result ≡ new_owned kind }
{
    match code_of(kind) {
        Some(code) => Owned { code, owner: None },
        None => Owned {
            code: 0,
            owner: None,
        },
    }
}

/// Who owns the benches for these kinds: nobody.
fn make_owners(alloc: Global, kinds: &[Kind]) -> Result<Vec<Owned>, Memory>
    ensures { IfOk result (λ owners. owners.items ≡ map new_owned kinds.now) }
{
    let mut owners = Vec::new(alloc);
    for kind in kinds {
        add(&mut owners, owned(*kind))?;
    }
    Ok(owners)
}

/// So many lists of no event.
fn make_events(alloc: Global, count: usize) -> Result<Vec<Events>, Memory>
    ensures { IfOk result (λ all. all.items ≡ replicate count []) }
{
    let mut all = Vec::new(alloc);
    for _ in 0..count {
        let events = Events::new(alloc)?;
        add(&mut all, events)?;
    }
    Ok(all)
}

/// An empty list with room for an output of each port.
fn no_outputs(alloc: Global) -> Result<Vec<Output>, Memory>
    ensures { IfOk result (λ outputs. IsRoomy 2064 outputs.items (vec_capacity outputs)) }
{
    match Vec::with_capacity(alloc, MOST_PORTS) {
        Ok(outputs) => Ok(outputs),
        Err(_) => Err(Memory),
    }
}

/// An empty list with room for a seat of each node.
fn no_seats(alloc: Global) -> Result<Vec<Option<usize>>, Memory>
    ensures { IfOk result (λ seats. IsRoomy 64 seats.items (vec_capacity seats)) }
{
    match Vec::with_capacity(alloc, MOST_NODES) {
        Ok(seats) => Ok(seats),
        Err(_) => Err(Memory),
    }
}

/// What so many benches give before the first cycle.
fn make_sounds(alloc: Global, count: usize) -> Result<Sounds, Memory>
    ensures { IfOk result (AreNewSounds count) }
{
    Ok(Sounds {
        seats: no_seats(alloc)?,
        gives: make_events(alloc, count)?,
        gave: make_events(alloc, count)?,
        outputs: no_outputs(alloc)?,
        earlier: no_outputs(alloc)?,
        nothing: Events::new(alloc)?,
    })
}

/// The lists of a script.
fn make_lists(alloc: Global, script: &Script) -> Result<Vec<EventList>, Memory>
    ensures { IfOk result (λ lists. lists.items ≡ script.now.events) }
{
    let mut lists = Vec::new(alloc);
    for list in 0..LISTS {
        let events = EventList::new(alloc, script.events(list))?;
        add(&mut lists, events)?;
    }
    Ok(lists)
}

/// Room for what a node hears, and for merges.
fn make_rooms(alloc: Global) -> Result<Rooms, Memory> {
    Ok(Rooms {
        input: Events::new(alloc)?,
        heard: Events::new(alloc)?,
        spare: Events::new(alloc)?,
    })
}

/// The parts for clients of these kinds.
fn make(alloc: Global, script: &Script, kinds: &[Kind]) -> Result<Parts, Memory>
    requires { All IsMidi kinds.now }
    ensures { IfOk result (AreNew script.now kinds.now) }
{
    Ok(Parts {
        benches: make_benches(alloc, kinds)?,
        owners: make_owners(alloc, kinds)?,
        sounds: make_sounds(alloc, kinds.len())?,
        wiring: MidiWiring::new(alloc)?,
        lists: make_lists(alloc, script)?,
        unlisted: EventList::new(alloc, &[])?,
        rooms: make_rooms(alloc)?,
        number: None,
        is_staffed: false,
    })
}

/// The parts for the MIDI clients of a script; none where it opens no such client.
pub(crate) fn make_parts(alloc: Global, script: &Script) -> Result<Option<Parts>, Memory>
    ensures parts { IfOk result (AreForScript script.now) }
{
    let kinds = kinds_of(alloc, script)?;
    if kinds.is_empty() {
        return Ok(None);
    }
    let parts = make(alloc, script, kinds.as_slice())?;
    Ok(Some(parts))
}

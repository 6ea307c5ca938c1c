//! What the stage of MIDI clients is made of.

use crate::playing::Rooms;
use crate::sounds::Sounds;
use midi_player::MidiBench;
use midi_ports::EventList;
use midi_seats::Owned;
use midi_wiring::MidiWiring;

/// The benches, and by bench who owns it; what they give and gave; how the clients of the last plan are wired; the script's lists
/// of events, and one without an event; room for merges; the number of the last plan, None before the first, and whether each of
/// its MIDI clients has a bench.
#[derive(Drop)]
pub(crate) struct Parts {
    pub benches: Vec<MidiBench>,
    pub owners: Vec<Owned>,
    pub sounds: Sounds,
    pub wiring: MidiWiring,
    pub lists: Vec<EventList>,
    pub unlisted: EventList,
    pub rooms: Rooms,
    pub number: Option<u32>,
    pub is_staffed: bool,
}

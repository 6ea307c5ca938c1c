//! A cycle of all clients that have benches.

ghost use Rattle.std.specs.Prelude.{◌≡◌, ◌+◌, ◌<◌, ◌≤◌, ◌^◌, ℕ, [], None, Some, length, slice_index_or};
ghost use Rattle.port_registry.specs.Registered.{system_entry};
ghost use Rattle.driver_words.specs.Hearings.{listed_for};
ghost use Rattle.midi_stage.specs.Sounding.{AreLower, AreSeated, HavePlayed, no_standing, sounded};

use crate::playing::{Rooms, play_node};
use crate::sounds::{Sounds, seat_of};
use jack_types::{Client, Kind, Moment};
use midi_player::MidiBench;
use midi_ports::EventList;
use midi_wiring::MidiWiring;

/// The list that a client of this kind plays.
fn list_for<'a>(lists: &'a [EventList], unlisted: &'a EventList, kind: Kind) -> &'a EventList
    requires { unlisted.now ≡ [] }
    ensures { result.now ≡ listed_for lists.now kind }
{
    let Kind::Midiplay { list } = kind else {
        return unlisted;
    };
    let place = usize::from(list);
    if place < lists.len() {
        return &lists[place];
    }
    unlisted
}

/// The list that the client of a node plays.
fn list_of<'a>(
    lists: &'a [EventList],
    unlisted: &'a EventList,
    nodes: &[Client],
    node: usize,
) -> &'a EventList
    requires unlisted { unlisted.now ≡ [] }
    requires node { node < length nodes.now }
    ensures { result.now ≡ listed_for lists.now (slice_index_or nodes.now node system_entry).kind }
{
    list_for(lists, unlisted, nodes[node].kind)
}

/// Plays all clients that have benches, node by node: direct edges go upward.
pub fn play_nodes(
    benches: &mut [MidiBench],
    sounds: &mut Sounds,
    wiring: &MidiWiring,
    nodes: &[Client],
    lists: &[EventList],
    unlisted: &EventList,
    moment: &Moment,
    period: u32,
    rooms: &mut Rooms,
)
    requires nothing { sounds.old.nothing ≡ [] }
    requires unlisted { unlisted.now ≡ [] }
    requires seated { AreSeated (sounded sounds.old) (length benches.old) }
    requires lower { AreLower wiring.now.joints }
    requires nodes { length sounds.old.seats.items ≤ length nodes.now }
    requires widths { length sounds.old.seats.items ≤ length wiring.now.widths }
    requires frames { moment.now.frame + period < 2 ^ 32 }
    ensures played { HavePlayed lists.now nodes.now wiring.now moment.now period (length sounds.old.seats.items) benches.old benches.new (sounded sounds.new) }
    ensures others { (b : ℕ) → ((n : ℕ) → slice_index_or sounds.old.seats.items n None ≡ Some b → ⊥) → slice_index_or benches.new b no_standing ≡ slice_index_or benches.old b no_standing }
    ensures kinds { (b : ℕ) → (slice_index_or benches.new b no_standing).kind ≡ (slice_index_or benches.old b no_standing).kind }
    ensures benches { length benches.new ≡ length benches.old }
    ensures gives { length sounds.new.gives.items ≡ length sounds.old.gives.items }
    ensures seats { sounds.new.seats ≡ sounds.old.seats }
    ensures gave { sounds.new.gave ≡ sounds.old.gave }
    ensures outputs { sounds.new.outputs ≡ sounds.old.outputs }
    ensures earlier { sounds.new.earlier ≡ sounds.old.earlier }
    ensures nothing { sounds.new.nothing ≡ [] }
{
    for node in 0..sounds.seats.len() {
        if let Some(bench) = seat_of(&sounds.seats, node) {
            play_node(
                benches,
                sounds,
                wiring,
                node,
                bench,
                list_of(lists, unlisted, nodes, node),
                moment,
                period,
                rooms,
            );
        }
    }
}

//! What a client plays on its bench.

ghost use Rattle.std.specs.Prelude.{◌≡◌, ◌≢◌, ◌+◌, ◌<◌, ◌^◌, ℕ, List, [], length, slice_index_or};
ghost use Rattle.jack_types.specs.declared.events.Event.{Event as EventValue};
ghost use Rattle.session_model.specs.Events.{merge};
ghost use Rattle.midi_wiring.specs.Hearings.{inputs_at};
ghost use Rattle.midi_player.specs.Standings.{Standing};
ghost use Rattle.midi_stage.specs.Sounding.{PlaysOn, all_heard, no_standing, sounded};

use crate::hearing::hear;
use crate::sounds::Sounds;
use jack_types::Moment;
use midi_player::MidiBench;
use midi_player::laws::one_stands_for_all;
use midi_ports::{EventList, Events};
use midi_wiring::MidiWiring;
use std::slice;

/// Room for what a node hears, and for merges.
#[derive(Drop)]
pub struct Rooms {
    pub input: Events,
    pub heard: Events,
    pub spare: Events,
}

/// Plays a client on the merge of its inputs: each of its outputs has what `out` is set to. `spare` is left with anything.
fn play_on(
    bench: &mut MidiBench,
    moment: &Moment,
    period: u32,
    list: &EventList,
    input: &Events,
    out: &mut Events,
    spare: &mut Events,
)
    requires { moment.now.frame + period < 2 ^ 32 }
    ensures kind { bench.new.kind ≡ bench.old.kind }
    ensures plays { PlaysOn list.now moment.now period input.now bench.old bench.new out.new }
{
    one_stands_for_all();
    bench.process(
        moment,
        period,
        list,
        slice::from_ref(input),
        slice::from_mut(out),
        spare,
    );
}

/// How many MIDI inputs the client of a node has.
fn inputs_of(wiring: &MidiWiring, node: usize) -> usize
    requires { node < length wiring.now.widths }
    ensures { result ≡ inputs_at wiring.now node }
{
    wiring.widths()[node].inputs
}

/// Sets the room of the input to the merge of what all inputs of a node hear.
fn hear_node(sounds: &Sounds, wiring: &MidiWiring, node: usize, rooms: &mut Rooms)
    requires nothing { sounds.now.nothing ≡ [] }
    requires widths { node < length wiring.now.widths }
    ensures { rooms.new.input ≡ merge (all_heard (sounded sounds.now) wiring.now node) }
{
    hear(
        sounds,
        wiring.joints(),
        node,
        inputs_of(wiring, node),
        &mut rooms.input,
        &mut rooms.heard,
        &mut rooms.spare,
    );
}

/// Plays the client of a node on its bench, on what its wiring brings.
pub fn play_node(
    benches: &mut [MidiBench],
    sounds: &mut Sounds,
    wiring: &MidiWiring,
    node: usize,
    bench: usize,
    list: &EventList,
    moment: &Moment,
    period: u32,
    rooms: &mut Rooms,
)
    requires nothing { sounds.old.nothing ≡ [] }
    requires widths { node < length wiring.now.widths }
    requires bench { bench < length benches.old }
    requires gives { bench < length sounds.old.gives.items }
    requires frames { moment.now.frame + period < 2 ^ 32 }
    ensures kind { (slice_index_or benches.new bench no_standing).kind ≡ (slice_index_or benches.old bench no_standing).kind }
    ensures plays { PlaysOn list.now moment.now period (merge (all_heard (sounded sounds.old) wiring.now node)) (slice_index_or benches.old bench no_standing) (slice_index_or benches.new bench no_standing) (slice_index_or sounds.new.gives.items bench []) }
    ensures other_benches { (b : ℕ) (d : Standing) → b ≢ bench → slice_index_or benches.new b d ≡ slice_index_or benches.old b d }
    ensures other_events { (b : ℕ) (d : List EventValue) → b ≢ bench → slice_index_or sounds.new.gives.items b d ≡ slice_index_or sounds.old.gives.items b d }
    ensures benches { length benches.new ≡ length benches.old }
    ensures gives { length sounds.new.gives.items ≡ length sounds.old.gives.items }
    ensures seats { sounds.new.seats ≡ sounds.old.seats }
    ensures gave { sounds.new.gave ≡ sounds.old.gave }
    ensures outputs { sounds.new.outputs ≡ sounds.old.outputs }
    ensures earlier { sounds.new.earlier ≡ sounds.old.earlier }
    ensures nothing { sounds.new.nothing ≡ [] }
{
    hear_node(sounds, wiring, node, rooms);
    play_on(
        &mut benches[bench],
        moment,
        period,
        list,
        &rooms.input,
        &mut sounds.gives[bench],
        &mut rooms.spare,
    );
}

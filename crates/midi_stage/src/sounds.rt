//! What MIDI outputs carry.

ghost use Rattle.std.specs.Prelude.{◌≡◌, [], None, slice_index_or};
ghost use Rattle.midi_stage.specs.Sounding.{bench_born, brings, events_at, sounded};

use midi_ports::Events;
use midi_wiring::MidiFrom;

/// A MIDI output of a client that has a bench: the birth of its port, and the bench.
#[derive(Clone, Copy, PartialEq, Eq, Debug)]
pub struct Output {
    pub birth: u32,
    pub bench: usize,
}

/// By node of the plan its client's bench, if that is a MIDI client; by bench what it gives in this cycle, and what it gave in
/// the last one; the MIDI outputs of this cycle, and those of the last one, as far as feedback edges have them; no event.
#[derive(Drop)]
pub struct Sounds {
    pub seats: Vec<Option<usize>>,
    pub gives: Vec<Events>,
    pub gave: Vec<Events>,
    pub outputs: Vec<Output>,
    pub earlier: Vec<Output>,
    pub nothing: Events,
}

/// The bench of the output of this birth, if there is one.
fn bench_of(outputs: &[Output], birth: u32) -> Option<usize>
    ensures { result ≡ bench_born outputs.now birth }
{
    for output in outputs {
        if output.birth == birth {
            return Some(output.bench);
        }
    }
    None
}

/// The bench of a node's client.
pub(crate) fn seat_of(seats: &[Option<usize>], node: usize) -> Option<usize>
    ensures { result ≡ slice_index_or seats.now node None }
{
    if node < seats.len() {
        return seats[node];
    }
    None
}

/// The events of a bench, `nothing` where none is told.
fn events_of<'a>(events: &'a [Events], bench: Option<usize>, nothing: &'a Events) -> &'a Events
    requires { nothing.now ≡ [] }
    ensures { result.now ≡ events_at events.now bench }
{
    let Some(place) = bench else {
        return nothing;
    };
    if place < events.len() {
        return &events[place];
    }
    nothing
}

/// What a connection brings.
pub(crate) fn brought(sounds: &Sounds, from: MidiFrom) -> &Events
    requires { sounds.now.nothing ≡ [] }
    ensures { result.now ≡ brings (sounded sounds.now) from }
{
    match from {
        MidiFrom::Played(node) => events_of(
            &sounds.gives,
            seat_of(&sounds.seats, node),
            &sounds.nothing,
        ),
        MidiFrom::Kept(birth) => events_of(
            &sounds.gave,
            bench_of(&sounds.earlier, birth),
            &sounds.nothing,
        ),
        MidiFrom::Nothing => &sounds.nothing,
    }
}

//! The MIDI outputs of clients that have benches.

ghost use Rattle.std.specs.Prelude.{◌≡◌, ◌+◌, ◌<◌, ◌≤◌, [], ◌++◌, filter_map, length};
ghost use Rattle.std.specs.List.{cons_option};
ghost use Rattle.std.specs.Vec.{vec_capacity};
ghost use Rattle.midi_stage.specs.Sounding.{output_from};

use crate::sounds::{Output, seat_of};
use midi_wiring::MidiGiven;

/// The bench that an output has its events from, if its client has one.
fn output_of(seats: &[Option<usize>], given: &MidiGiven) -> Option<Output>
    ensures { result ≡ output_from seats.now given.now }
{
    match seat_of(seats, given.node) {
        Some(bench) => Some(Output {
            birth: given.birth,
            bench,
        }),
        None => None,
    }
}

/// Adds an output, if there is one. There is room for it.
fn put_some(outputs: &mut Vec<Output>, output: Option<Output>)
    requires { length outputs.old.items < vec_capacity outputs.old }
    ensures items { outputs.new.items ≡ outputs.old.items ++ cons_option output [] }
    ensures few { length outputs.new.items ≤ length outputs.old.items + 1 }
    ensures room { vec_capacity outputs.new ≡ vec_capacity outputs.old }
{
    if let Some(output) = output {
        outputs.push_reserved(output);
    }
}

/// Makes anew the outputs of a plan's clients that have benches. There is room for all.
pub fn carry(outputs: &mut Vec<Output>, given: &[MidiGiven], seats: &[Option<usize>])
    requires { length given.now ≤ vec_capacity outputs.old }
    ensures outputs { outputs.new.items ≡ filter_map (output_from seats.now) given.now }
    ensures room { vec_capacity outputs.new ≡ vec_capacity outputs.old }
{
    outputs.clear();
    for output in given {
        put_some(outputs, output_of(seats, output));
    }
}

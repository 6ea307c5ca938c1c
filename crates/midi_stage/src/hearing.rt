//! What the MIDI inputs of a node hear.

ghost use Rattle.std.specs.Prelude.{◌≡◌, ◌==◌, ◌&&◌, [], ◌∷◌, map, if◌then◌else◌};
ghost use Rattle.session_model.specs.Events.{merge};
ghost use Rattle.session_model.specs.Samples.{below};
ghost use Rattle.midi_stage.specs.Sounding.{brings, heard_on, sounded};

use crate::sounds::{Sounds, brought};
use midi_ports::Events;
use midi_wiring::MidiJoint;

/// Whether a connection goes into an input of a node.
fn is_into(joint: &MidiJoint, node: usize, input: usize) -> bool
    ensures { result ≡ (joint.now.node == node && joint.now.input == input) }
{
    joint.node == node && joint.input == input
}

/// Merges into `out` what a connection brings, if it goes into this input of a node.
fn add(
    sounds: &Sounds,
    joint: &MidiJoint,
    node: usize,
    input: usize,
    out: &mut Events,
    spare: &mut Events,
)
    requires { sounds.now.nothing ≡ [] }
    ensures { out.new ≡ (if joint.now.node == node && joint.now.input == input then merge (out.old ∷ brings (sounded sounds.now) joint.now.from ∷ []) else out.old) }
{
    if is_into(joint, node, input) {
        out.merge(brought(sounds, joint.from), spare);
    }
}

/// Sets `out` to what an input of a node hears: the merge of its connections, in the order of making.
fn hear_input(
    sounds: &Sounds,
    joints: &[MidiJoint],
    node: usize,
    input: usize,
    out: &mut Events,
    spare: &mut Events,
)
    requires { sounds.now.nothing ≡ [] }
    ensures { out.new ≡ heard_on (sounded sounds.now) joints.now node input }
{
    out.clear();
    for joint in joints {
        add(sounds, joint, node, input, out, spare);
    }
}

/// Sets `out` to the merge of what all inputs of a node hear, in order of birth. `heard` and `spare` are left with anything.
pub fn hear(
    sounds: &Sounds,
    joints: &[MidiJoint],
    node: usize,
    inputs: usize,
    out: &mut Events,
    heard: &mut Events,
    spare: &mut Events,
)
    requires { sounds.now.nothing ≡ [] }
    ensures { out.new ≡ merge (map (heard_on (sounded sounds.now) joints.now node) (below inputs)) }
{
    out.clear();
    for input in 0..inputs {
        hear_input(sounds, joints, node, input, heard, spare);
        out.merge(heard, spare);
    }
}

//! The MIDI wiring of a plan.

ghost use Rattle.std.specs.Prelude.{◌≡◌, ◌≤◌, [], IfOk, length};
ghost use Rattle.std.specs.Vec.{vec_capacity};
ghost use Rattle.midi_wiring.specs.Ends.{widths_by};
ghost use Rattle.midi_wiring.specs.Setting.{SetsEvents};
ghost use Rattle.midi_wiring.specs.Wirings.{midi_wired_of};

use crate::giving::give_outputs;
use crate::joining::join_edges;
use crate::joints::{MidiGiven, MidiJoint, MidiWidths};
use crate::ports::count_midi;
use client_wiring::cycle_plan::Plan;
use feedback_edges::MOST_PORTS;
use jack_types::{Client, Memory, Node, Port, Way};
use std::alloc::Global;
use std::marker::Model;

/// The greatest number of nodes.
const MOST_NODES: usize = 64;

/// The greatest number of connections.
const MOST_CONNECTIONS: usize = 512;

/// How the MIDI ports of a plan's clients are wired, in memory that is taken once.
#[derive(Drop)]
pub struct MidiWiring {
    widths: Vec<MidiWidths>,
    joints: Vec<MidiJoint>,
    given: Vec<MidiGiven>,
}

impl Model for MidiWiring {
    ghost use Rattle.std.specs.Prelude.{◌≤◌, length};
    ghost use Rattle.std.specs.Vec.{vec_capacity};
    ghost use Rattle.midi_wiring.specs.Wirings.{MidiWired};

    ghost Value = { MidiWired };

    ghost view = { λ w. record { widths = w.widths.items; joints = w.joints.items; given = w.given.items } };

    ghost invariant = { λ w. (64 ≤ vec_capacity w.widths) × (512 ≤ vec_capacity w.joints) × (2064 ≤ vec_capacity w.given) × (length w.given.items ≤ 2064) };
}

/// How many MIDI inputs and outputs a client has.
fn widths_of(client: &Client, ports: &[Port]) -> MidiWidths
    ensures { result ≡ widths_by ports.now client.now }
{
    MidiWidths {
        inputs: count_midi(ports, Node::Client(client.id), Way::In),
        outputs: count_midi(ports, Node::Client(client.id), Way::Out),
    }
}

/// Makes the widths of the nodes anew.
fn count_widths(widths: &mut Vec<MidiWidths>, plan: &Plan, ports: &[Port])
    requires room { 64 ≤ vec_capacity widths.old }
    requires ports { ports.now ≡ plan.now.network.held.ports }
    ensures widths { widths.new.items ≡ (midi_wired_of plan.now).widths }
    ensures room { vec_capacity widths.old ≤ vec_capacity widths.new }
{
    widths.clear();
    for client in plan.nodes() {
        widths.push_reserved(widths_of(client, ports));
    }
}

impl MidiWiring {
    /// A wiring of nothing. It takes room for 64 nodes, 512 connections and 2,064 ports.
    pub fn new(alloc: Global) -> Result<MidiWiring, Memory>
        ensures { IfOk result (λ wiring. wiring ≡ record { widths = []; joints = []; given = [] }) }
    {
        let Ok(widths) = Vec::with_capacity(alloc, MOST_NODES) else {
            return Err(Memory);
        };
        let Ok(joints) = Vec::with_capacity(alloc, MOST_CONNECTIONS) else {
            return Err(Memory);
        };
        let Ok(given) = Vec::with_capacity(alloc, MOST_PORTS) else {
            return Err(Memory);
        };
        Ok(MidiWiring {
            widths,
            joints,
            given,
        })
    }

    /// Makes the wiring of a plan, anew. It takes no memory.
    pub fn fill(&mut self, plan: &Plan)
        ensures wired { self.new ≡ midi_wired_of plan.now }
        ensures events { SetsEvents plan.now self.new }
    {
        let ports = plan.ports();
        count_widths(&mut self.widths, plan, ports);
        join_edges(&mut self.joints, plan);
        give_outputs(&mut self.given, plan);
    }

    /// How many MIDI inputs and outputs the client of each node has.
    pub fn widths(&self) -> &[MidiWidths]
        ensures { result.now ≡ self.now.widths }
    {
        &self.widths
    }

    /// The connections into MIDI inputs of nodes, in the order of making.
    pub fn joints(&self) -> &[MidiJoint]
        ensures { result.now ≡ self.now.joints }
    {
        &self.joints
    }

    /// The MIDI outputs of the nodes' clients, in order of birth: at most 2,064.
    pub fn given(&self) -> &[MidiGiven]
        ensures given { result.now ≡ self.now.given }
        ensures few { length result.now ≤ 2064 }
    {
        &self.given
    }
}

//! The wiring of a plan.

ghost use Rattle.std.specs.Prelude.{◌≡◌, ◌≤◌, [], IfOk, length};
ghost use Rattle.std.specs.Vec.{vec_capacity};
ghost use Rattle.client_wiring.specs.Tables.{AreCounts, widths_by};
ghost use Rattle.client_wiring.specs.Wirings.{SetsPlayback, SetsTasks, wired_of};

use crate::adding::put;
use crate::giving::give_outputs;
use crate::joining::join_edges;
use crate::joints::{Carried, Given, Heard, Joint, Widths};
use crate::tables::{MOST_CLASSES, class_of, count_ports, tables_of};
use cycle_plan::Plan;
use cycle_plan::feedback_edges::MOST_PORTS;
use jack_types::{Client, Memory, Node, PortKind, Way};
use std::alloc::Global;
use std::marker::Model;

/// The greatest number of nodes.
const MOST_NODES: usize = 64;

/// The greatest number of connections.
const MOST_CONNECTIONS: usize = 512;

/// How the clients of a plan are wired, in memory that is taken once.
#[derive(Drop)]
pub struct Wiring {
    widths: Vec<Widths>,
    joints: Vec<Joint>,
    carried: Vec<Carried>,
    given: Vec<Given>,
    heard: Vec<Heard>,
}

impl Model for Wiring {
    ghost use Rattle.std.specs.Prelude.{◌≤◌};
    ghost use Rattle.std.specs.Vec.{vec_capacity};
    ghost use Rattle.client_wiring.specs.Wirings.{Wired};

    ghost Value = { Wired };

    ghost view = { λ w. record { widths = w.widths.items; joints = w.joints.items; carried = w.carried.items; given = w.given.items; heard = w.heard.items } };

    ghost invariant = { λ w. (64 ≤ vec_capacity w.widths) × (512 ≤ vec_capacity w.joints) × (512 ≤ vec_capacity w.carried) × (2064 ≤ vec_capacity w.given) × (512 ≤ vec_capacity w.heard) };
}

/// How many audio inputs and outputs a client has.
fn widths_of(client: &Client, counts: &[usize; MOST_CLASSES]) -> Widths
    requires { client.now.id.0 ≤ 64 }
    ensures { result ≡ widths_by counts.now client.now }
{
    let node = Node::Client(client.id);
    Widths {
        inputs: counts[class_of(node, PortKind::Audio, Way::In)],
        outputs: counts[class_of(node, PortKind::Audio, Way::Out)],
    }
}

/// Makes the widths of the nodes anew.
fn count_widths(widths: &mut Vec<Widths>, plan: &Plan, counts: &[usize; MOST_CLASSES])
    requires room { 64 ≤ vec_capacity widths.old }
    requires counts { AreCounts plan.now.network.held.ports counts.now }
    ensures widths { widths.new.items ≡ (wired_of plan.now).widths }
    ensures room { vec_capacity widths.old ≤ vec_capacity widths.new }
{
    widths.clear();
    for client in plan.nodes() {
        put(widths, widths_of(client, counts));
    }
}

impl Wiring {
    /// A wiring of nothing. It takes room for 64 nodes, 512 connections and 2,064 ports.
    pub fn new(alloc: Global) -> Result<Wiring, Memory>
        ensures widths { IfOk result (λ wiring. wiring.widths ≡ []) }
        ensures joints { IfOk result (λ wiring. wiring.joints ≡ []) }
        ensures carried { IfOk result (λ wiring. wiring.carried ≡ []) }
        ensures given { IfOk result (λ wiring. wiring.given ≡ []) }
        ensures heard { IfOk result (λ wiring. wiring.heard ≡ []) }
    {
        let Ok(widths) = Vec::with_capacity(alloc, MOST_NODES) else {
            return Err(Memory);
        };
        let Ok(joints) = Vec::with_capacity(alloc, MOST_CONNECTIONS) else {
            return Err(Memory);
        };
        let Ok(carried) = Vec::with_capacity(alloc, MOST_CONNECTIONS) else {
            return Err(Memory);
        };
        let Ok(given) = Vec::with_capacity(alloc, MOST_PORTS) else {
            return Err(Memory);
        };
        let Ok(heard) = Vec::with_capacity(alloc, MOST_CONNECTIONS) else {
            return Err(Memory);
        };
        Ok(Wiring {
            widths,
            joints,
            carried,
            given,
            heard,
        })
    }

    /// Makes the wiring of a plan, anew. It takes no memory.
    pub fn fill(&mut self, plan: &Plan)
        ensures wired { self.new ≡ wired_of plan.now }
        ensures tasks { SetsTasks plan.now self.new }
        ensures playback { SetsPlayback plan.now self.new }
        ensures few_given { length self.new.given ≤ 2064 }
        ensures few_heard { length self.new.heard ≤ 512 }
    {
        let ports = plan.ports();
        count_widths(&mut self.widths, plan, &count_ports(ports));
        let tables = tables_of(ports);
        give_outputs(&mut self.given, plan, &tables);
        join_edges(
            &mut self.joints,
            &mut self.carried,
            &mut self.heard,
            plan,
            &tables,
        );
    }

    /// How many audio inputs and outputs the client of each node has.
    pub fn widths(&self) -> &[Widths]
        ensures { result.now ≡ self.now.widths }
    {
        &self.widths
    }

    /// The connections into audio inputs of nodes, in the order of making.
    pub fn joints(&self) -> &[Joint]
        ensures { result.now ≡ self.now.joints }
    {
        &self.joints
    }

    /// The connections that links carry, in the order of making.
    pub fn carried(&self) -> &[Carried]
        ensures { result.now ≡ self.now.carried }
    {
        &self.carried
    }

    /// The audio outputs of the nodes' clients, in order of birth: at most 2,064.
    pub fn given(&self) -> &[Given]
        ensures { result.now ≡ self.now.given }
    {
        &self.given
    }

    /// The connections into playback ports, in the order of making: at most 512.
    pub fn heard(&self) -> &[Heard]
        ensures { result.now ≡ self.now.heard }
    {
        &self.heard
    }
}

//! The calls made so far with their replies, and the graph behind them.

ghost use Rattle.std.specs.Prelude.{◌≡◌, ◌≤◌, ◌<◌, ◌++◌, ◌∷◌, [], IfOk, length, slice_get};
ghost use Rattle.std.specs.Vec.{vec_capacity};
ghost use Rattle.std.specs.Option.{option_map};
ghost use Rattle.lane_calls.specs.Plans.{plan_of};
ghost use Rattle.session_model.specs.Grammar.{IsScript};
ghost use Rattle.session_model.specs.Histories.{LegalSoFar, accepted};
ghost use Rattle.session_model.specs.Scripts.{planned_of};
ghost use Rattle.session_model.specs.Serial.{answered};
ghost use Rattle.control_desk.specs.Desks.{made};
ghost use Rattle.control_desk.specs.Past.{IsNext};

use call_laws::cycle_plan::Graph;
use graph_replies::{Latencies, answer};
use jack_types::{Call, Change, Entry, Memory, Reply};
use lane_calls::session_script::Script;
use lane_calls::{LaneCalls, PlannedCall};
use std::alloc::Global;
use std::marker::Model;

/// The greatest number of calls of a script.
const MOST_CALLS: usize = 4096;

const LANES: usize = 5;

/// The calls made so far with their replies.
///
/// Contracts see the script and the entries. The graph is the replay of what was accepted.
#[derive(Drop)]
pub struct History {
    script: Script,
    calls: LaneCalls,
    // Of each lane, how many calls it made.
    made: [u32; LANES],
    entries: Vec<Entry>,
    changes: Vec<Change>,
    graph: Graph,
    latencies: Latencies,
}

impl Model for History {
    ghost use Rattle.std.specs.Prelude.{◌≤◌};
    ghost use Rattle.std.specs.Vec.{vec_capacity};
    ghost use Rattle.call_laws.specs.cycle_plan.specs.Graphs.{state_of};
    ghost use Rattle.control_desk.specs.Past.{IsPast, Past};

    ghost Value = { Past };

    ghost view = { λ h. record { script = h.script; history = h.entries.items } };

    ghost invariant = { λ h. IsPast (record { script = h.script; history = h.entries.items }) h.calls h.made h.changes.items (state_of h.graph)
        × (4096 ≤ vec_capacity h.entries) × (4096 ≤ vec_capacity h.changes) };
}

/// Puts what the call made of the graph behind the changes, if it was accepted.
fn keep_change(changes: &mut Vec<Change>, call: &Call, reply: Reply)
    requires { length changes.old.items < vec_capacity changes.old }
    ensures changes { changes.new.items ≡ changes.old.items ++ accepted (record { call = call.now; reply = reply } ∷ []) }
    ensures room { vec_capacity changes.old ≤ vec_capacity changes.new }
{
    if let Reply::Accepted(number) = reply {
        changes.push_reserved(Change {
            number,
            command: call.command,
        });
    }
}

impl History {
    /// No call, and room for all of the script's.
    pub fn new(alloc: Global, script: &Script) -> Result<History, Memory>
        ensures { IfOk result (λ h. h ≡ record { script = script.now; history = [] }) }
    {
        let header = script.header();
        let graph = Graph::new(alloc, header.capture, header.playback)?;
        let script = script.copy(alloc)?;
        let calls = LaneCalls::of(alloc, &script)?;
        let latencies = Latencies::new(alloc)?;
        let Ok(entries) = Vec::with_capacity(alloc, MOST_CALLS) else {
            return Err(Memory);
        };
        let Ok(changes) = Vec::with_capacity(alloc, MOST_CALLS) else {
            return Err(Memory);
        };
        Ok(History {
            script,
            calls,
            made: [0; LANES],
            entries,
            changes,
            graph,
            latencies,
        })
    }

    /// The calls with their replies.
    pub fn entries(&self) -> &[Entry]
        ensures value { result.now ≡ self.now.history }
        ensures script { IsScript self.now.script }
        ensures legal { LegalSoFar self.now.script self.now.history }
    {
        &self.entries
    }

    /// The accepted changes.
    pub fn changes(&self) -> &[Change]
        ensures value { result.now ≡ accepted self.now.history }
        ensures script { IsScript self.now.script }
        ensures legal { LegalSoFar self.now.script self.now.history }
    {
        &self.changes
    }

    /// The call that the lane makes next, in whatever phase.
    pub fn next(&self, lane: usize) -> Option<PlannedCall>
        requires { lane ≤ 4 }
        ensures next { option_map plan_of result ≡ slice_get (planned_of self.now.script lane) (made self.now.history lane) }
        ensures script { IsScript self.now.script }
    {
        self.calls.get(lane, self.made[lane] as usize)
    }

    /// Makes a call, and answers it.
    pub fn answer(&mut self, planned: &PlannedCall) -> Reply
        requires { IsNext self.old.script self.old.history (plan_of planned.now) }
        ensures history { self.new ≡ record self.old { history = self.old.history ++ answered self.old.script self.old.history planned.now.call ∷ [] } }
        ensures reply { result ≡ (answered self.old.script self.old.history planned.now.call).reply }
    {
        let call = planned.call;
        let number = self.changes.len() as u32 + 1;
        let reply = answer(&mut self.graph, &mut self.latencies, number, &call.command);
        keep_change(&mut self.changes, &call, reply);
        self.entries.push_reserved(Entry { call, reply });
        self.made[call.lane as usize] += 1;
        reply
    }
}

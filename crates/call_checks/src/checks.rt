//! The calls that were right so far, and the graph behind them.

ghost use Rattle.std.specs.Prelude.{◌≡◌, ◌↔◌, ◌≤◌, ◌<◌, ◌++◌, ◌∷◌, [], true, false, Some, IfOk, IsTrue, count_by, length, map, slice_get, take};
ghost use Rattle.std.specs.Option.{option_map};
ghost use Rattle.std.specs.Vec.{vec_capacity};
ghost use Rattle.jack_types.specs.declared.replies.Entry.{Entry as EntryValue};
ghost use Rattle.lane_calls.specs.Plans.{plan_of};
ghost use Rattle.session_model.specs.Grammar.{IsScript};
ghost use Rattle.session_model.specs.Histories.{LegalSoFar, accepted, accepted_below, plan_of as plan_for};
ghost use Rattle.session_model.specs.Scripts.{planned_of};
ghost use Rattle.call_checks.specs.Checks.{Answers, told};
ghost use Rattle.call_checks.specs.Kept.{Enters, Finds, HasEarlier, IsDue, IsNext, is_below, made};

use cycle_plan::Graph;
use graph_replies::{Latencies, answer};
use jack_types::{Call, Change, Memory, Reply};
use lane_calls::{LaneCalls, PlannedCall};
use session_script::Script;
use std::alloc::Global;
use std::marker::Model;

/// The greatest number of calls of a script.
const MOST_CALLS: usize = 4096;

const LANES: usize = 5;

/// A call that was right, with its reply and how many calls before it were accepted.
#[derive(Clone, Copy)]
struct RightCall {
    planned: PlannedCall,
    reply: Reply,
    before: u32,
}

/// Checks the calls of a report, in the report's order, against a script and its graph.
///
/// Contracts see the script, the entries of the calls that were right, and whether a call was wrong. Only `new` takes memory.
#[derive(Drop)]
pub struct CallChecks {
    script: Script,
    calls: LaneCalls,
    // Of each lane, how many calls were right.
    made: [u32; LANES],
    right: Vec<RightCall>,
    changes: Vec<Change>,
    graph: Graph,
    latencies: Latencies,
    wrong: bool,
    // The reply of the graph to the call that was wrong, if it was asked.
    wanted: Option<Reply>,
}

impl Model for CallChecks {
    ghost use Rattle.std.specs.Prelude.{◌≤◌, map};
    ghost use Rattle.std.specs.Vec.{vec_capacity};
    ghost use Rattle.cycle_plan.specs.Graphs.{state_of};
    ghost use Rattle.call_checks.specs.Checks.{Checks};
    ghost use Rattle.call_checks.specs.Kept.{IsKept, entry_of};

    ghost Value = { Checks };

    ghost view = { λ c. record { script = c.script; history = map entry_of c.right.items; wrong = c.wrong } };

    ghost invariant = { λ c. IsKept (record { script = c.script; history = map entry_of c.right.items; wrong = c.wrong }) c.calls c.made c.right.items c.changes.items (state_of c.graph)
        × (4096 ≤ vec_capacity c.right) × (4096 ≤ vec_capacity c.changes) };
}

/// Puts what the call made of the graph behind the changes, if it was accepted.
fn keep_change(changes: &mut Vec<Change>, call: &Call, reply: Reply)
    requires { length changes.old.items < vec_capacity changes.old }
    ensures changes { changes.new.items ≡ changes.old.items ++ accepted (record { call = call.now; reply = reply } ∷ []) }
    ensures room { vec_capacity changes.old ≤ vec_capacity changes.new }
{
    if let Reply::Accepted(number) = reply {
        changes.push_reserved(Change {
            number,
            command: call.command,
        });
    }
}

/// Whether it is an accepted call of a lower stage than this.
fn is_accepted_below(call: &RightCall, stage: u32) -> bool
    ensures { result ≡ is_below stage call.now }
{
    match call.reply {
        Reply::Accepted(_) => call.planned.stage < stage,
        _ => false,
    }
}

/// How many of these are accepted calls of a lower stage.
fn count_below(calls: &[RightCall], stage: u32) -> u32
    requires { length calls.now ≤ 4096 }
    ensures { result ≡ count_by (is_below stage) calls.now }
{
    let mut count = 0;
    for place in 0..calls.len() {
        if is_accepted_below(&calls[place], stage) {
            count += 1;
        }
    }
    count
}

impl CallChecks {
    /// No call was checked. It takes room for all of the script's calls.
    pub fn new(alloc: Global, script: &Script) -> Result<CallChecks, Memory>
        ensures { IfOk result (λ checks. checks ≡ record { script = script.now; history = []; wrong = false }) }
    {
        let header = script.header();
        let graph = Graph::new(alloc, header.capture, header.playback)?;
        let script = script.copy(alloc)?;
        let calls = LaneCalls::of(alloc, &script)?;
        let latencies = Latencies::new(alloc)?;
        let Ok(right) = Vec::with_capacity(alloc, MOST_CALLS) else {
            return Err(Memory);
        };
        let Ok(changes) = Vec::with_capacity(alloc, MOST_CALLS) else {
            return Err(Memory);
        };
        Ok(CallChecks {
            script,
            calls,
            made: [0; LANES],
            right,
            changes,
            graph,
            latencies,
            wrong: false,
            wanted: None,
        })
    }

    /// Whether a report's next call is right: it is the script's, the next of its lane, behind all calls of lower stages,
    /// and its reply is the graph's.
    ///
    /// Behind a call that is wrong no later one is right; nothing else changes by it. It takes no memory.
    pub fn call(&mut self, lane: u64, index: u64, reply: &Reply) -> bool
        ensures { Answers self.old (told lane index reply.now) result self.new }
    {
        if self.wrong {
            return false;
        }
        match self.find(lane, index) {
            Some(planned) => self.enter(&planned, reply),
            None => {
                self.wrong = true;
                false
            }
        }
    }

    /// The graph's reply to the call that was wrong, if only its reply was. It is for people: no clause rests on it.
    pub fn wanted(&self) -> Option<Reply> {
        self.wanted
    }

    /// What the calls that were right changed of the graph, in their order.
    pub fn changes(&self) -> &[Change]
        ensures value { result.now ≡ accepted self.now.history }
        ensures script { IsScript self.now.script }
        ensures legal { LegalSoFar self.now.script self.now.history }
    {
        &self.changes
    }

    /// How many of the calls before this one were accepted. The calls are counted from 0.
    pub fn accepted_before(&self, call: usize) -> u32
        requires { call < length self.now.history }
        ensures { result ≡ length (accepted (take call self.now.history)) }
    {
        self.right[call].before
    }

    /// What the script plans for this call: its stage, and for how many cycles it waits. The calls are counted from 0.
    pub fn planned(&self, call: usize) -> PlannedCall
        requires { call < length self.now.history }
        ensures { (entry : EntryValue) → slice_get self.now.history call ≡ Some entry → plan_for self.now.script entry.call ≡ Some (plan_of result) }
    {
        self.right[call].planned
    }

    /// How many calls of lower stages than this were accepted. It goes over all calls.
    pub fn accepted_below(&self, stage: u32) -> u32
        ensures { result ≡ accepted_below self.now.script self.now.history stage }
    {
        count_below(&self.right, stage)
    }

    /// The script's call of this lane and index, if it may come next.
    fn find(&self, lane: u64, index: u64) -> Option<PlannedCall>
        ensures { Finds self.now.script self.now.history lane index (option_map plan_of result) }
    {
        if lane > 4 {
            return None;
        }
        let planned = self.lane_next(lane as usize)?;
        if u64::from(planned.call.index) != index {
            return None;
        }
        if !self.is_due(planned.stage) {
            return None;
        }
        Some(planned)
    }

    /// The lane's next call, if it has one left.
    fn lane_next(&self, lane: usize) -> Option<PlannedCall>
        requires { lane ≤ 4 }
        ensures next { option_map plan_of result ≡ slice_get (planned_of self.now.script lane) (made self.now.history lane) }
        ensures script { IsScript self.now.script }
        ensures legal { LegalSoFar self.now.script self.now.history }
    {
        self.calls.get(lane, self.made[lane] as usize)
    }

    /// Whether the lane's next call is of a lower stage than this.
    fn is_behind(&self, lane: usize, stage: u32) -> bool
        requires { lane ≤ 4 }
        ensures { IsTrue result ↔ HasEarlier self.now.script self.now.history stage lane }
    {
        match self.lane_next(lane) {
            Some(planned) => planned.stage < stage,
            None => false,
        }
    }

    /// Whether no lane's next call is of a lower stage than this.
    fn is_due(&self, stage: u32) -> bool
        ensures { IsTrue result ↔ IsDue self.now.script self.now.history stage }
    {
        for lane in 0..LANES {
            if self.is_behind(lane, stage) {
                return false;
            }
        }
        true
    }

    /// Answers a call by the graph, and enters it where that is the reply told.
    fn enter(&mut self, planned: &PlannedCall, told: &Reply) -> bool
        requires next { IsNext self.old.script self.old.history (plan_of planned.now) }
        requires right { self.old.wrong ≡ false }
        ensures { Enters self.old (plan_of planned.now) told.now result self.new }
    {
        let call = planned.call;
        let before = self.changes.len() as u32;
        let reply = answer(
            &mut self.graph,
            &mut self.latencies,
            before + 1,
            &call.command,
        );
        if reply != *told {
            self.wrong = true;
            self.wanted = Some(reply);
            return false;
        }
        keep_change(&mut self.changes, &call, reply);
        self.made[call.lane as usize] += 1;
        self.right.push_reserved(RightCall {
            planned: *planned,
            reply,
            before,
        });
        true
    }
}

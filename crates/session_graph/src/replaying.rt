//! The replay of a report's calls.

ghost use Rattle.std.specs.Prelude.{◌≡◌, ◌==◌, ◌+◌, ◌<◌, ◌≤◌, ◌++◌, ◌↔◌, [], ◌∷◌, IfErr, IfOk, IsFalse, IsTrue, count_by, length, map};
ghost use Rattle.std.specs.Option.{option_map};
ghost use Rattle.cycle_plan.specs.Graphs.{state_of};
ghost use Rattle.lane_calls.specs.Plans.{plan_of};
ghost use Rattle.report_reader.specs.Reports.{reply_row};
ghost use Rattle.report_reader.specs.declared.rows.CallLine.{CallLine as CallValue};
ghost use Rattle.session_graph.specs.Replays.{IsOfReplay, IsReplay};
ghost use Rattle.session_graph.specs.Told.{IsRight, IsUsed, call_told};
ghost use Rattle.jack_types.specs.declared.commands.Call.{Call as CalledValue};
ghost use Rattle.session_model.specs.Histories.{accepted};
ghost use Rattle.session_model.specs.Samples.{below};
ghost use Rattle.session_model.specs.Scripts.{Script as ScriptValue, planned_of};

use crate::faults::{GraphFault, wrong};
use cycle_plan::Graph;
use graph_replies::{Latencies, answer};
use jack_types::{Memory, Part, Reply};
use lane_calls::{LaneCalls, PlannedCall};
use report_reader::{CallLine, ReplyLine};
use session_script::Script;
use std::alloc::Global;

// How a report's line writes a reply.
fn row_of(reply: Reply) -> ReplyLine
    ensures { result ≡ reply_row reply }
{
    match reply {
        Reply::Accepted(number) => ReplyLine::Accepted(number),
        Reply::Refused(refusal) => ReplyLine::Refused(refusal),
        Reply::Latency(range) => ReplyLine::Latency(u64::from(range.min), u64::from(range.max)),
    }
}

// Whether a line tells this reply.
fn is_told(reply: Reply, row: ReplyLine) -> bool
    ensures { IsTrue result ↔ row ≡ reply_row reply }
{
    row == row_of(reply)
}

// How many changes a reply makes.
fn changes_by(reply: Reply) -> u32
    ensures count { (call : CalledValue) → result ≡ length (accepted (record { call = call; reply = reply } ∷ [])) }
    ensures few { result ≤ 1 }
{
    match reply {
        Reply::Accepted(_) => 1,
        Reply::Refused(_) => 0,
        Reply::Latency(_) => 0,
    }
}

// How many of the lines are of a lane.
fn made_by(lines: &[CallLine], lane: u64) -> u64
    ensures count { result ≡ count_by (λ (line : CallValue). line.lane == lane) lines.now }
    ensures few { result ≤ length lines.now }
{
    let mut made = 0;
    for line in lines {
        if line.lane == lane {
            made += 1;
        }
    }
    made
}

// The script's call that a line tells of.
fn call_told(calls: &LaneCalls, line: &CallLine) -> Option<PlannedCall>
    ensures { (script : ScriptValue) → calls.now ≡ map (planned_of script) (below 5) → option_map plan_of result ≡ call_told script line.now }
{
    if line.lane > 4 || line.index == 0 {
        return None;
    }
    calls.get(line.lane as usize, line.index as usize - 1)
}

// The graph behind right calls, with what is needed to go on.
#[derive(Drop)]
struct Replay {
    graph: Graph,
    latencies: Latencies,
    calls: LaneCalls,
    // The number that the next change gets.
    next: u32,
}

impl Replay {
    // Before the first call.
    fn new(alloc: Global, script: &Script) -> Result<Replay, Memory>
        ensures { IfOk result (λ replay. IsReplay script.now [] (state_of replay.graph) replay.calls replay.next) }
    {
        let header = script.header();
        Ok(Replay {
            graph: Graph::new(alloc, header.capture, header.playback)?,
            latencies: Latencies::new(alloc)?,
            calls: LaneCalls::of(alloc, script)?,
            next: 1,
        })
    }

    // Makes the call of a line behind others. Whether it is right.
    fn make(&mut self, script: &Script, before: &[CallLine], line: &CallLine) -> bool
        requires behind { IsReplay script.now before.now (state_of self.old.graph) self.old.calls self.old.next }
        requires few { self.old.next ≤ 4096 }
        ensures right { IsTrue result → IsReplay script.now (before.now ++ line.now ∷ []) (state_of self.new.graph) self.new.calls self.new.next }
        ensures wrong { IsFalse result → ¬ IsRight script.now before.now line.now }
        ensures step { self.new.next ≤ self.old.next + 1 }
    {
        let Some(planned) = call_told(&self.calls, line) else {
            return false;
        };
        if line.index != made_by(before, line.lane) + 1 {
            return false;
        }
        let reply = answer(
            &mut self.graph,
            &mut self.latencies,
            self.next,
            &planned.call.command,
        );
        self.next += changes_by(reply);
        is_told(reply, line.reply)
    }
}

/// The graph behind the first `number` accepted calls. Each call before is right.
pub(crate) fn replayed(
    alloc: Global,
    script: &Script,
    lines: &[CallLine],
    number: u64,
    cycle: u32,
) -> Result<Graph, GraphFault>
    requires { length lines.now ≤ 4096 }
    ensures used { IfOk result (λ graph. IsUsed script.now lines.now number (state_of graph)) }
    ensures fault { IfErr result (IsOfReplay script.now lines.now number cycle) }
{
    let mut replay = Replay::new(alloc, script)?;
    for place in 0..lines.len() {
        if u64::from(replay.next - 1) == number {
            return Ok(replay.graph);
        }
        if !replay.make(script, &lines[..place], &lines[place]) {
            return Err(wrong(Part::Call, place as u32 + 1));
        }
    }
    if u64::from(replay.next - 1) == number {
        return Ok(replay.graph);
    }
    Err(wrong(Part::Cycle, cycle))
}

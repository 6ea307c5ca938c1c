//! The lines of a report up to a cycle's.

ghost use Rattle.std.specs.Prelude.{◌≡◌, ◌≢◌, ◌≤◌, IfErr, IfOk, IfSome, IsErrOf, IsNone, OnOk, length};
ghost use Rattle.jack_host.specs.Causes.{Rose};
ghost use Rattle.session_model.specs.Scripts.{turns};
ghost use Rattle.report_reader.specs.declared.rows.CycleLine.{CycleLine as CycleValue};
ghost use Rattle.told_laws.specs.Tellings.{call_in};
ghost use Rattle.told_reports.specs.Steps.{Steps};
ghost use Rattle.session_graph.specs.Fronts.{IsFront};
ghost use Rattle.session_graph.specs.Readings.{IsOfReport, IsOfStep};

use crate::faults::{GraphFault, wrong};
use jack_host::Source;
use jack_types::Part;
use report_laws::{Limits, Place};
use report_reader::{CallLine, CycleLine, Line, Lines};
use session_script::Script;
use std::alloc::Global;
use told_reports::{ReportFault, limits_of, next_line};

/// What a report says up to the line of a cycle.
#[derive(Drop)]
pub struct Told {
    pub calls: Vec<CallLine>,
    pub cycle: CycleLine,
}

/// How many cycles a script has.
pub(crate) fn cycles_of(script: &Script) -> u32
    ensures { result ≡ length (turns script.now) }
{
    limits_of(script).cycles
}

// The next line, which is line `number` of the report, and the place behind it.
fn step<S: Source>(
    lines: &mut Lines<S>,
    limits: &Limits,
    place: Place,
    number: u32,
) -> Result<(Line, Place), GraphFault>
    ensures step { IfOk result (λ next. Steps limits.now place lines.old.left lines.new.left next.0 next.1) }
    ensures fault { IfErr result (IsOfStep limits.now place lines.old.left number) }
    ensures later { lines.old.faults ≤ lines.new.faults }
    ensures kept { OnOk result (lines.new.faults ≡ lines.old.faults) }
    ensures kept_err { IfErr result (λ fault. fault ≢ GraphFault.ReadFault → lines.new.faults ≡ lines.old.faults) }
    ensures read { IsErrOf result GraphFault.ReadFault → Rose lines.old.faults lines.new.faults }
{
    match next_line(lines, limits, place, number) {
        Ok(Some(next)) => Ok(next),
        Ok(None) => Err(wrong(Part::Report, number)),
        Err(ReportFault::Read) => Err(GraphFault::ReadFault),
        Err(ReportFault::Memory) => Err(GraphFault::NoMemory),
        Err(ReportFault::Wrong(line)) => Err(wrong(Part::Report, line)),
    }
}

// The call of a line.
fn call_in(line: &Line) -> Option<CallLine>
    ensures { result ≡ call_in line.now }
{
    match line {
        Line::Call(call) => Some(*call),
        _ => None,
    }
}

// What the line of this cycle says.
fn cycle_told(line: &Line, cycle: u32) -> Option<CycleLine>
    ensures some { IfSome result (λ told. (line.now ≡ Line.Cycle told) × (told.cycle ≡ cycle)) }
    ensures none { IsNone result → (told : CycleValue) → line.now ≡ Line.Cycle told → ¬ (told.cycle ≡ cycle) }
{
    match line {
        Line::Cycle(told) if told.cycle == u64::from(cycle) => Some(*told),
        _ => None,
    }
}

/// Reads a report up to the line of a cycle, which the script has.
pub(crate) fn read_report<S: Source>(
    alloc: Global,
    script: &Script,
    lines: &mut Lines<S>,
    cycle: u32,
) -> Result<Told, GraphFault>
    requires counted { 1 ≤ cycle }
    requires there { cycle ≤ length (turns script.now) }
    ensures front { IfOk result (λ told. IfSome lines.old.left (λ bytes. IsFront script.now bytes told.calls.items told.cycle)) }
    ensures cycle { IfOk result (λ told. told.cycle.cycle ≡ cycle) }
    ensures few { IfOk result (λ told. length told.calls.items ≤ 4096) }
    ensures fault { IfErr result (IsOfReport script.now lines.old.left cycle) }
    ensures later { lines.old.faults ≤ lines.new.faults }
    ensures kept { OnOk result (lines.new.faults ≡ lines.old.faults) }
    ensures kept_err { IfErr result (λ fault. fault ≢ GraphFault.ReadFault → lines.new.faults ≡ lines.old.faults) }
    ensures read { IsErrOf result GraphFault.ReadFault → Rose lines.old.faults lines.new.faults }
{
    let limits = limits_of(script);
    let mut calls = Vec::new(alloc);
    let mut place = Place::Start;
    let mut number = 0;
    'reading: loop {
        number += 1;
        let (line, behind) = step(lines, &limits, place, number)?;
        if let Some(told) = cycle_told(&line, cycle) {
            return Ok(Told { calls, cycle: told });
        }
        if let Some(call) = call_in(&line) {
            if calls.push(call).is_err() {
                return Err(GraphFault::NoMemory);
            }
        }
        place = behind;
    }
}

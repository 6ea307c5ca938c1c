//! Decides whether a report explains its files.

ghost use Rattle.std.specs.Prelude.{◌≡◌, ◌≤◌, ℕ, All, IsErrOf, Ok, OnOk, false, length, map};
ghost use Rattle.check_model.specs.Checking.{IsFirstWrong};
ghost use Rattle.session_model.specs.Explanations.{Explained, Given, Printed, Written};
ghost use Rattle.jack_types.specs.declared.replies.Row.{Row as RowValue};
ghost use Rattle.check_sights.specs.declared.sights.Sight.{Sight as SightValue};
ghost use Rattle.task_laws.specs.Calls.{guests_needed};
ghost use Rattle.check_walk.specs.Walkings.{IsServed};
ghost use Rattle.session_check.specs.Cases.{IsCase, IsUntouched, left_of};
ghost use Rattle.session_check.specs.Counts.{NoneFell, OneRose, counts_of};
ghost use Rattle.session_check.specs.Passes.{AreTold, CountsFaults, IsUnderway, IsWrongBehind, MayPlay, RightUpTo, passing_of};
ghost use Rattle.session_check.specs.Verdicts.{is_read, of_calls as verdict_on_calls, of_report as verdict_on_report};
ghost use Rattle.script_segments.specs.Segments.{segments as the_segments};
ghost use Rattle.told_reports.specs.Kept.{report_kept};

use crate::calling::{Ready, called};
use crate::comparing::compared;
use crate::listing::listed;
use crate::pass::{Pass, Stop};
use crate::sights::sight_of;
use crate::verdict::{CheckFault, Verdict, row_of};
use crate::walking::walked;
use check_parts::CallsFault;
use check_parts::part_laws::laws::parts_in_their_order;
use check_sights::Sight;
use check_walk::Walk;
use check_walk::script_needs::limits::samples_are_few;
use client_kinds::Guest;
use driver_laws::endings::{all_is_played_back, blocks_kept_are_recorded};
use file_compare::Compare;
use jack_host::{Gate, Source};
use jack_types::{Part, Row};
use report_reader::Lines;
use script_segments::Segment;
use session_script::Script;
use std::alloc::Global;
use std::thread::Threads;
use told_reports::laws::{rows_are_a_report, rows_are_in_place};
use told_reports::{ReportFault, Told, read_whole};
use wave_pcm::Wave;

/// The verdict, and the sources that a check was given.
#[derive(Drop)]
pub struct Checked<S: Source> {
    pub verdict: Result<Verdict, CheckFault>,
    pub capture: Wave<S>,
    pub report: Lines<S>,
    pub playback: Compare<S>,
    pub records: Vec<Compare<S>>,
}

fn wrong(row: Row, sight: Sight) -> Result<Verdict, CheckFault>
    ensures { result ≡ Ok (Verdict.Wrong row sight) }
{
    Ok(Verdict::Wrong(row, sight))
}

// What a report that is not whole answers.
fn of_report(fault: ReportFault) -> Result<Verdict, CheckFault>
    ensures { result ≡ verdict_on_report fault }
{
    match fault {
        ReportFault::Read => Err(CheckFault::Read),
        ReportFault::Memory => Err(CheckFault::Memory),
        ReportFault::Wrong(number) => wrong(row_of(Part::Report, number), Sight::Nothing),
    }
}

// What calls that are not right answer.
fn of_calls(fault: CallsFault) -> Result<Verdict, CheckFault>
    ensures { result ≡ verdict_on_calls fault }
{
    match fault {
        CallsFault::Memory => Err(CheckFault::Memory),
        CallsFault::Wrong(number, sight) => wrong(row_of(Part::Call, number), sight),
    }
}

// The verdict behind the calls: by the cycles, the lines behind these, and the files.
fn judged<S: Source, G: Guest + Send, T: Threads + Sync, K: Gate>(
    threads: &T,
    gate: &K,
    script: &Script,
    segments: &[Segment],
    told: &Told,
    pass: &mut Pass<S, G>,
) -> Result<Verdict, CheckFault>
    requires told { AreTold script.now told.now }
    requires segments { segments.now ≡ the_segments script.now }
    requires underway { IsUnderway script.now told.now (passing_of pass.old) }
    requires set { pass.old.walk.gear.set ≡ script.now.header.period }
    requires first { pass.old.done ≡ 0 }
    requires fresh { IsUntouched pass.old.playback × All IsUntouched pass.old.records.items }
    ensures explained { result ≡ Ok Verdict.Explained → (given : Given) (written : Written)
        → MayPlay G.sound script.now given written (report_kept told.now) (passing_of pass.old)
        → RightUpTo given written (report_kept told.now) 10 }
    ensures wrong { (row : RowValue) (sight : SightValue) → result ≡ Ok (Verdict.Wrong row sight) → (given : Given) (written : Written)
        → MayPlay G.sound script.now given written (report_kept told.now) (passing_of pass.old)
        → IsWrongBehind given written (report_kept told.now) row }
    ensures counted { CountsFaults (passing_of pass.old) (passing_of pass.new) (is_read result) }
{
    rows_are_a_report();
    rows_are_in_place();
    samples_are_few();
    blocks_kept_are_recorded();
    all_is_played_back();
    parts_in_their_order();
    let begun = pass.begin();
    if begun.is_err() {
        return Err(CheckFault::Read);
    }
    match walked(threads, gate, script, segments, told, pass) {
        Ok(()) => {}
        Err(Stop::Cycle(number, sight)) => return wrong(row_of(Part::Cycle, number), sight),
        Err(Stop::Read) => return Err(CheckFault::Read),
    }
    let found = listed(script, segments, told, pass);
    if let Some(row) = found {
        let sight = sight_of(script, segments, told, pass, &row);
        return wrong(row, sight);
    }
    let header = script.header();
    match compared(&header, &mut pass.records, &mut pass.playback) {
        Ok(None) => Ok(Verdict::Explained),
        Ok(Some(row)) => {
            let sight = sight_of(script, segments, told, pass, &row);
            wrong(row, sight)
        }
        Err(_) => Err(CheckFault::Read),
    }
}

/// Decides whether the report explains the files.
pub fn check<S: Source, G: Guest + Send, T: Threads + Sync, K: Gate>(
    threads: &T,
    gate: &K,
    alloc: Global,
    script: &Script,
    capture: Wave<S>,
    guests: Vec<G>,
    mut report: Lines<S>,
    playback: Compare<S>,
    records: Vec<Compare<S>>,
) -> Checked<S>
    requires served { IsServed script.now }
    requires capture { (capture.format.channels ≡ script.now.header.capture) × (capture.failed ≡ false) }
    requires guests { guests_needed script.now ≤ length guests.items }
    requires records { length records.items ≡ length script.now.header.recorders }
    requires fresh { IsUntouched playback × All IsUntouched records.items }
    ensures explained { (given : Given) (written : Written)
        → IsCase script.now capture.left (map G.sound (map G.score guests.items)) report.left playback.left (map left_of records.items) given written
        → result.verdict ≡ Ok Verdict.Explained → (printed : Printed) × Explained given printed written }
    ensures wrong { (given : Given) (written : Written)
        → IsCase script.now capture.left (map G.sound (map G.score guests.items)) report.left playback.left (map left_of records.items) given written
        → (row : RowValue) (sight : SightValue) → result.verdict ≡ Ok (Verdict.Wrong row sight) → IsFirstWrong given written row }
    ensures read { IsErrOf result.verdict CheckFault.Read
        → OneRose (counts_of capture.faults report.faults playback records.items)
        (counts_of result.capture.faults result.report.faults result.playback result.records.items) }
    ensures later { NoneFell (counts_of capture.faults report.faults playback records.items)
        (counts_of result.capture.faults result.report.faults result.playback result.records.items) }
    ensures kept { OnOk result.verdict
        (counts_of result.capture.faults result.report.faults result.playback result.records.items
        ≡ counts_of capture.faults report.faults playback records.items) }
{
    rows_are_a_report();
    rows_are_in_place();
    parts_in_their_order();
    let told = match read_whole(alloc, script, &mut report) {
        Ok(told) => told,
        Err(fault) => {
            return Checked {
                verdict: of_report(fault),
                capture,
                report,
                playback,
                records,
            };
        }
    };
    let Ready {
        calls,
        segments,
        takings,
    } = match called(alloc, script, &told) {
        Ok(ready) => ready,
        Err(fault) => {
            return Checked {
                verdict: of_calls(fault),
                capture,
                report,
                playback,
                records,
            };
        }
    };
    let walk = match Walk::new(alloc, script, capture, guests) {
        Ok(walk) => walk,
        Err((capture, _)) => {
            return Checked {
                verdict: Err(CheckFault::Memory),
                capture,
                report,
                playback,
                records,
            };
        }
    };
    let mut pass = Pass {
        calls,
        walk,
        takings,
        playback,
        records,
        done: 0,
        last: 0,
    };
    let verdict = judged(threads, gate, script, segments.as_slice(), &told, &mut pass);
    let Pass {
        walk,
        playback,
        records,
        ..
    } = pass;
    Checked {
        verdict,
        capture: walk.into_capture(),
        report,
        playback,
        records,
    }
}

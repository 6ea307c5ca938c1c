//! A check whose files are named.

ghost use Rattle.std.specs.Prelude.{◌≡◌, ◌+◌, ◌<◌, ◌≤◌, ◌⊎◌, IfErr, IfOk, IsErrOf, OnOk, length, map};
ghost use Rattle.jack_host.specs.Causes.{Adds, Rose};
ghost use Rattle.jack_host.specs.Files.{SameFiles};
ghost use Rattle.play_inputs.specs.Answers.{HasOwnFault};
ghost use Rattle.check_command.specs.Cases.{IfCase, LacksCase};
ghost use Rattle.check_command.specs.Files.{faults_of};
ghost use Rattle.check_command.specs.Scripts.{CheckOpening};
ghost use Rattle.check_command.specs.Verdicts.{IsVerdict, answer_of as answer};

use crate::files::{WrittenFiles, back_records, open_written};
use crate::opening::{CheckInputs, open_checked};
use client_kinds::Guest;
use jack_host::{Gate, Host};
use play_inputs::Status;
use play_words::CheckNames;
use session_check::{CheckFault, Checked, Verdict, check};
use std::alloc::Global;
use std::thread::Threads;

// What a check answers, where it has no verdict its status.
fn answer_of(verdict: Result<Verdict, CheckFault>) -> Result<Verdict, Status>
    ensures { result ≡ answer verdict }
{
    match verdict {
        Ok(verdict) => Ok(verdict),
        Err(CheckFault::Read) => Err(Status::ReadFault),
        Err(CheckFault::Memory) => Err(Status::NoMemory),
    }
}

// Hands the sources of a check back to the host, and answers its verdict.
fn hand_back<H: Host>(host: &mut H, checked: Checked<H::In>) -> Result<Verdict, Status>
    requires { 3 + length checked.records.items ≤ H.lent host.old }
    ensures answer { result ≡ answer checked.verdict }
    ensures reads { Adds (H.read_faults host.old) (faults_of checked) (H.read_faults host.new) }
    ensures no_more { H.read_faults host.new ≤ H.read_faults host.old + faults_of checked }
    ensures writes { H.write_faults host.new ≡ H.write_faults host.old }
    ensures files { SameFiles (H.files host.old) (H.files host.new) }
    ensures lent { H.lent host.new + 3 + length checked.records.items ≡ H.lent host.old }
{
    let Checked {
        verdict,
        capture,
        report,
        playback,
        records,
    } = checked;
    back_records(host, records);
    host.back(playback.into_source());
    host.back(report.into_source());
    host.back(capture.into_source());
    answer_of(verdict)
}

/// Opens the files of a check, decides, and hands them back.
pub(crate) fn decide<T: Threads + Sync, H: Host, G: Guest + Send, A: Gate>(
    threads: &T,
    alloc: Global,
    names: &CheckNames<'_>,
    host: &mut H,
    guests: Vec<G>,
    gate: &A,
) -> Result<Verdict, Status>
    requires { H.lent host.old < 900 }
    ensures verdict { IfOk result (λ verdict.
        IfCase (H.files host.old) (map G.sound (map G.score guests.items)) names.now (IsVerdict verdict)) }
    ensures fault { IfErr result
        (CheckOpening (H.files host.old) (map G.sound (map G.score guests.items)) names.now.play) }
    ensures own { IfErr result HasOwnFault }
    ensures read { IsErrOf result Status.ReadFault →
        Rose (H.read_faults host.old) (H.read_faults host.new)
        ⊎ LacksCase (H.files host.old) (map G.sound (map G.score guests.items)) names.now }

    ensures later { H.read_faults host.old ≤ H.read_faults host.new }
    ensures kept { OnOk result (H.read_faults host.new ≡ H.read_faults host.old) }
    ensures writes { H.write_faults host.new ≡ H.write_faults host.old }
    ensures files { SameFiles (H.files host.old) (H.files host.new) }
    ensures lent { H.lent host.new ≡ H.lent host.old }
{
    let CheckInputs { script, capture } = open_checked(alloc, host, &names.play, guests.len())?;
    let written = match open_written(alloc, host, names.report, &names.play) {
        Ok(written) => written,
        Err(status) => {
            host.back(capture.into_source());
            return Err(status);
        }
    };
    let WrittenFiles {
        report,
        playback,
        records,
    } = written;
    let checked = check(
        threads, gate, alloc, &script, capture, guests, report, playback, records,
    );
    hand_back(host, checked)
}

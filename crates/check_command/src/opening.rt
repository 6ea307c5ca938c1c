//! The script of a check, and its capture.

ghost use Rattle.std.specs.Prelude.{◌≡◌, ◌+◌, ◌<◌, ◌≤◌, ◌⊎◌, List, IfErr, IfOk, IsErrOf, IsTrue, OnErr, OnOk, false, length, ◌↔◌};
ghost use Rattle.jack_host.specs.Causes.{Rose};
ghost use Rattle.jack_host.specs.Files.{IsThere, SameFiles};
ghost use Rattle.play_inputs.specs.script_needs.specs.task_laws.specs.Calls.{guests_needed};
ghost use Rattle.session_model.specs.Grammar.{IsScript, Spells};
ghost use Rattle.session_model.specs.Kinds.{Sound};
ghost use Rattle.play_inputs.specs.Answers.{HasOwnFault, IsScriptFault};
ghost use Rattle.play_inputs.specs.Inputs.{IfBytes, IsScriptOf};
ghost use Rattle.check_command.specs.Scripts.{CheckOpening, CheckScriptStatus, GivesCheck, HasNoDisk, LacksPlay, RefusesScript, line_at, undecided};

use jack_host::{Host, Source};
use jack_types::{Cause, ScriptFault};
use play_inputs::script_words::Lines;
use play_inputs::session_script::Script;
use play_inputs::wave_pcm::Wave;
use play_inputs::{Status, load_script, open_fitting, script_in};
use play_words::Names;
use std::alloc::Global;

// The place of the version's line among those that are said.
const VERSION_PLACE: usize = 0;

/// The script of a check, and its capture, at its first frame.
#[derive(Drop)]
pub(crate) struct CheckInputs<S: Source> {
    pub script: Script,
    pub capture: Wave<S>,
}

// Whether a script is one that is checked: without a disk.
fn is_decided(script: &Script) -> bool
    ensures { IsTrue result ↔ HasNoDisk script.now }
{
    script.header().disks.as_slice().is_empty()
}

// The number of the line at a place among those that are said. Where there is none, 0.
fn line_at(text: &[u8], place: usize) -> u32
    requires { length text.now ≤ 1048576 }
    ensures { result ≡ line_at text.now place }
{
    let mut lines = Lines::of(text);
    let mut left = place;
    'lines: while let Some(line) = lines.take() {
        if left == 0 {
            return line.number;
        }
        left -= 1;
    }
    0
}

// The fault of a script with a disk, which these bytes spell.
fn fault_of(bytes: &[u8]) -> ScriptFault
    requires { length bytes.now ≤ 1048576 }
    ensures fault { result ≡ undecided bytes.now }
    ensures own { IsScriptFault result }
{
    ScriptFault {
        line: line_at(bytes, VERSION_PLACE),
        cause: Cause::Choice(3),
    }
}

// The script that these bytes spell, if it is checked.
fn decided_in(alloc: Global, bytes: &[u8]) -> Result<Script, Status>
    ensures script { IfOk result (λ script. Spells bytes.now script × HasNoDisk script) }
    ensures lawful { IfOk result (λ script. IsScript script) }
    ensures fault { IfErr result (RefusesScript bytes.now) }
    ensures own { IfErr result HasOwnFault }
{
    match script_in(alloc, bytes) {
        Ok(script) => {
            if is_decided(&script) {
                Ok(script)
            } else {
                Err(Status::BadScript(fault_of(bytes)))
            }
        }
        Err(status) => Err(status),
    }
}

// Reads a script, and answers it if it is checked.
fn read_decided<H: Host>(alloc: Global, host: &mut H, name: &str) -> Result<Script, Status>
    requires { H.lent host.old < 1000 }
    ensures script { IfOk result (λ script. IfBytes (H.files host.old) name.now (λ bytes. IsScriptOf bytes script)) }
    ensures decided { IfOk result (λ script. IsScript script × HasNoDisk script) }
    ensures fault { IfErr result (CheckScriptStatus (H.files host.old) name.now) }
    ensures own { IfErr result HasOwnFault }
    ensures read { IsErrOf result Status.ReadFault →
        Rose (H.read_faults host.old) (H.read_faults host.new) ⊎ ¬ IsThere (H.files host.old) name.now }

    ensures later { H.read_faults host.old ≤ H.read_faults host.new }
    ensures kept { OnOk result (H.read_faults host.new ≡ H.read_faults host.old) }
    ensures writes { H.write_faults host.new ≡ H.write_faults host.old }
    ensures files { SameFiles (H.files host.old) (H.files host.new) }
    ensures lent { H.lent host.new ≡ H.lent host.old }
{
    match load_script(alloc, host, name) {
        Ok(bytes) => decided_in(alloc, &bytes),
        Err(status) => Err(status),
    }
}

/// Reads the script, and refuses one with a disk; then compares it with so many guests and with the names, and opens the capture,
/// as a play does. Then one object of the host is out: the capture.
pub(crate) fn open_checked<H: Host>(
    alloc: Global,
    host: &mut H,
    names: &Names<'_>,
    guests: usize,
) -> Result<CheckInputs<H::In>, Status>
    requires { H.lent host.old < 900 }
    ensures opened { IfOk result (λ inputs. (scores : List Sound) → length scores ≡ guests →
        GivesCheck (H.files host.old) scores names.now inputs.script inputs.capture.left) }
    ensures decided { IfOk result (λ inputs. IsScript inputs.script × HasNoDisk inputs.script) }
    ensures fits { IfOk result (λ inputs. (guests_needed inputs.script ≤ guests)
        × (length inputs.script.header.recorders ≡ length names.now.records)) }
    ensures format { IfOk result (λ inputs.
        (inputs.capture.format.channels ≡ inputs.script.header.capture) × (inputs.capture.failed ≡ false)) }
    ensures fault { IfErr result (λ status. (scores : List Sound) → length scores ≡ guests →
        CheckOpening (H.files host.old) scores names.now status) }
    ensures own { IfErr result HasOwnFault }
    ensures read { IsErrOf result Status.ReadFault → (scores : List Sound) → length scores ≡ guests →
        Rose (H.read_faults host.old) (H.read_faults host.new) ⊎ LacksPlay (H.files host.old) scores names.now }

    ensures later { H.read_faults host.old ≤ H.read_faults host.new }
    ensures kept { OnOk result (H.read_faults host.new ≡ H.read_faults host.old) }
    ensures fresh { IfOk result (λ inputs. inputs.capture.faults ≡ 0) }
    ensures writes { H.write_faults host.new ≡ H.write_faults host.old }
    ensures files { SameFiles (H.files host.old) (H.files host.new) }
    ensures out { OnOk result (H.lent host.new ≡ H.lent host.old + 1) }
    ensures back { OnErr result (H.lent host.new ≡ H.lent host.old) }
{
    let script = read_decided(alloc, host, names.script)?;
    let capture = open_fitting(host, names, guests, &script)?;
    Ok(CheckInputs { script, capture })
}

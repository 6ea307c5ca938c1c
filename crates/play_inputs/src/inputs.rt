//! All that is read before a session or a check is made.

ghost use Rattle.std.specs.Prelude.{◌≡◌, ◌+◌, ◌<◌, ◌≤◌, ◌⊎◌, List, IfErr, IfOk, IsErrOf, None, OnErr, OnOk, false, length, map};
ghost use Rattle.jack_host.specs.Causes.{Rose};
ghost use Rattle.jack_host.specs.Files.{IsThere, SameFiles};
ghost use Rattle.disk_inputs.specs.Openings.{AreFresh};
ghost use Rattle.script_needs.specs.task_laws.specs.Calls.{guests_needed};
ghost use Rattle.session_model.specs.Grammar.{IsScript};
ghost use Rattle.session_model.specs.Kinds.{Sound};
ghost use Rattle.play_inputs.specs.Answers.{HasOwnFault, LacksInput};
ghost use Rattle.play_inputs.specs.Captures.{IsOpened};
ghost use Rattle.play_inputs.specs.Inputs.{first_difference};
ghost use Rattle.play_inputs.specs.Openings.{FittingStatus, GivesInput, OpeningStatus};

use crate::Status;
use crate::captures::open_capture;
use crate::comparing::difference_of;
use crate::disks::open_files;
use crate::scripts::read_script;
use jack_host::{Host, Source};
use play_words::Names;
use session_script::Script;
use std::alloc::Global;
use wave_pcm::Wave;

/// The script of a play, and its capture and its disk files, each at its first frame.
#[derive(Drop)]
pub struct Inputs<S: Source> {
    pub script: Script,
    pub capture: Wave<S>,
    pub disks: Vec<Wave<S>>,
}

/// Compares a script with so many guests and with the names, and opens the capture, if its rate and channels are the script's.
/// Then one object of the host is out: the capture.
pub fn open_fitting<H: Host>(
    host: &mut H,
    names: &Names<'_>,
    guests: usize,
    script: &Script,
) -> Result<Wave<H::In>, Status>
    requires { H.lent host.old < 1000 }
    ensures opened { IfOk result (λ wave. IsOpened (H.files host.old) names.now.capture script.now.header wave.left) }
    ensures same { OnOk result (first_difference script.now guests (length names.now.records) (length names.now.disks) ≡ None) }
    ensures fits { OnOk result ((guests_needed script.now ≤ guests)
        × (length script.now.header.recorders ≡ length names.now.records)
        × (length script.now.header.disks ≡ length names.now.disks)) }
    ensures format { IfOk result (λ wave. (wave.format.channels ≡ script.now.header.capture) × (wave.failed ≡ false)) }
    ensures fault { IfErr result (FittingStatus (H.files host.old) names.now guests script.now) }
    ensures own { IfErr result HasOwnFault }
    ensures read { IsErrOf result Status.ReadFault → Rose (H.read_faults host.old) (H.read_faults host.new)
        ⊎ ((first_difference script.now guests (length names.now.records) (length names.now.disks) ≡ None)
        × ¬ IsThere (H.files host.old) names.now.capture) }

    ensures later { H.read_faults host.old ≤ H.read_faults host.new }
    ensures kept { OnOk result (H.read_faults host.new ≡ H.read_faults host.old) }
    ensures fresh { IfOk result (λ wave. wave.faults ≡ 0) }
    ensures writes { H.write_faults host.new ≡ H.write_faults host.old }
    ensures files { SameFiles (H.files host.old) (H.files host.new) }
    ensures out { OnOk result (H.lent host.new ≡ H.lent host.old + 1) }
    ensures back { OnErr result (H.lent host.new ≡ H.lent host.old) }
{
    if let Some(difference) = difference_of(script, guests, names.records(), names.disks()) {
        return Err(Status::Differs(difference));
    }
    let header = script.header();
    open_capture(host, names.capture, &header)
}

/// Reads the script, compares it with so many guests and with the names, and opens the capture and the disk files, if their rates
/// and channels are the script's. Then so many objects of the host are out: the capture, and the disk files.
pub fn open_inputs<H: Host>(
    alloc: Global,
    host: &mut H,
    names: &Names<'_>,
    guests: usize,
) -> Result<Inputs<H::In>, Status>
    requires { H.lent host.old < 900 }
    ensures opened { IfOk result (λ inputs. (scores : List Sound) → length scores ≡ guests →
        GivesInput (H.files host.old) scores names.now inputs.script inputs.capture.left
        (map (λ wave. wave.left) inputs.disks.items)) }
    ensures lawful { IfOk result (λ inputs. IsScript inputs.script) }
    ensures fits { IfOk result (λ inputs. (guests_needed inputs.script ≤ guests)
        × (length inputs.script.header.recorders ≡ length names.now.records)
        × (length inputs.script.header.disks ≡ length names.now.disks)) }
    ensures format { IfOk result (λ inputs.
        (inputs.capture.format.channels ≡ inputs.script.header.capture) × (inputs.capture.failed ≡ false)) }
    ensures disks { IfOk result (λ inputs.
        AreFresh inputs.script.header.rate inputs.script.header.disks inputs.disks.items) }
    ensures fault { IfErr result (λ status. (scores : List Sound) → length scores ≡ guests →
        OpeningStatus (H.files host.old) scores names.now status) }
    ensures own { IfErr result HasOwnFault }
    ensures read { IsErrOf result Status.ReadFault → (scores : List Sound) → length scores ≡ guests →
        Rose (H.read_faults host.old) (H.read_faults host.new) ⊎ LacksInput (H.files host.old) scores names.now }

    ensures later { H.read_faults host.old ≤ H.read_faults host.new }
    ensures kept { OnOk result (H.read_faults host.new ≡ H.read_faults host.old) }
    ensures fresh { IfOk result (λ inputs. inputs.capture.faults ≡ 0) }
    ensures writes { H.write_faults host.new ≡ H.write_faults host.old }
    ensures files { SameFiles (H.files host.old) (H.files host.new) }
    ensures out { IfOk result (λ inputs. H.lent host.new ≡ H.lent host.old + 1 + length inputs.disks.items) }
    ensures back { OnErr result (H.lent host.new ≡ H.lent host.old) }
{
    let script = read_script(alloc, host, names.script)?;
    let capture = open_fitting(host, names, guests, &script)?;
    let header = script.header();
    match open_files(alloc, host, names, &header) {
        Ok(disks) => Ok(Inputs {
            script,
            capture,
            disks,
        }),
        Err(status) => {
            host.back(capture.into_source());
            Err(status)
        }
    }
}

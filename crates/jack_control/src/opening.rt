//! All that a play reads and takes before it makes a file.

ghost use Rattle.std.specs.Prelude.{◌≡◌, ◌+◌, ◌<◌, ◌≤◌, ◌⊎◌, IfErr, IfOk, IsErrOf, OnErr, OnOk, length, map};
ghost use Rattle.jack_host.specs.Causes.{Rose};
ghost use Rattle.jack_host.specs.Files.{SameFiles};
ghost use Rattle.play_inputs.specs.Answers.{HasOwnFault, LacksInput};
ghost use Rattle.play_inputs.specs.Openings.{OpeningStatus};
ghost use Rattle.jack_control.specs.Openings.{IsSessionOf, NoFaults};

use crate::disks::back_waves;
use client_kinds::Guest;
use jack_host::Host;
use play_inputs::{Inputs, Status, open_inputs};
use play_words::Names;
use session_run::Session;
use std::alloc::Global;

/// Reads the script, compares what it is played with, opens the capture and the disk files, and takes all memory of the session.
/// Then so many objects of the host are out: the capture, and the disk files.
pub(crate) fn open_session<H: Host, G: Guest>(
    alloc: Global,
    names: &Names<'_>,
    host: &mut H,
    guests: Vec<G>,
) -> Result<Session<H::In, H::Out, G>, Status>
    requires { H.lent host.old < 900 }
    ensures opened { IfOk result (λ session. IsSessionOf G.sound (H.files host.old) (map G.sound (map G.score guests.items)) names.now session) }
    ensures fault { IfErr result (OpeningStatus (H.files host.old) (map G.sound (map G.score guests.items)) names.now) }
    ensures own { IfErr result HasOwnFault }
    ensures read { IsErrOf result Status.ReadFault →
        Rose (H.read_faults host.old) (H.read_faults host.new) ⊎ LacksInput (H.files host.old) (map G.sound (map G.score guests.items)) names.now }

    ensures later { H.read_faults host.old ≤ H.read_faults host.new }
    ensures kept { OnOk result (H.read_faults host.new ≡ H.read_faults host.old) }
    ensures fresh { IfOk result (λ session. NoFaults session) }
    ensures few { IfOk result (λ session. length session.players ≤ 4) }
    ensures writes { H.write_faults host.new ≡ H.write_faults host.old }
    ensures files { SameFiles (H.files host.old) (H.files host.new) }
    ensures out { IfOk result (λ session. H.lent host.new ≡ H.lent host.old + 1 + length session.players) }
    ensures back { OnErr result (H.lent host.new ≡ H.lent host.old) }
{
    let Inputs {
        script,
        capture,
        disks,
    } = open_inputs(alloc, host, names, guests.len())?;
    match Session::new(alloc, &script, capture, disks, guests) {
        Ok(session) => Ok(session),
        Err((capture, disks, _)) => {
            back_waves(host, disks);
            host.back(capture.into_source());
            Err(Status::NoMemory)
        }
    }
}

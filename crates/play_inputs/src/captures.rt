//! The capture of a play.

ghost use Rattle.std.specs.Prelude.{◌≡◌, ◌+◌, ◌<◌, ◌≤◌, ◌⊎◌, IfErr, IfOk, IsErrOf, OnErr, OnOk, false};
ghost use Rattle.jack_host.specs.Causes.{Rose};
ghost use Rattle.jack_host.specs.Files.{IsThere, SameFiles};
ghost use Rattle.play_inputs.specs.Answers.{HasOwnFault};
ghost use Rattle.play_inputs.specs.Captures.{CaptureStatus, IsOpened, status_of_wave};

use crate::Status;
use crate::comparing::difference_with;
use jack_host::Host;
use jack_types::{Header, WaveFault};
use wave_pcm::Wave;

// The status of a fault that the reading of a header met.
fn status_of(fault: WaveFault) -> Status
    ensures status { result ≡ status_of_wave fault }
    ensures own { HasOwnFault result }
{
    match fault {
        WaveFault::Read => Status::ReadFault,
        _ => Status::BadWave(fault),
    }
}

/// Opens the capture, and answers it if its rate and channels are the script's. Then one object of the host is out.
pub(crate) fn open_capture<H: Host>(
    host: &mut H,
    name: &str,
    header: &Header,
) -> Result<Wave<H::In>, Status>
    requires { H.lent host.old < 1000 }
    ensures opened { IfOk result (λ wave. IsOpened (H.files host.old) name.now header.now wave.left) }
    ensures format { IfOk result (λ wave. (wave.format.channels ≡ header.now.capture) × (wave.failed ≡ false)) }
    ensures fault { IfErr result (CaptureStatus (H.files host.old) name.now header.now) }
    ensures own { IfErr result HasOwnFault }
    ensures read { IsErrOf result Status.ReadFault →
        Rose (H.read_faults host.old) (H.read_faults host.new) ⊎ ¬ IsThere (H.files host.old) name.now }

    ensures later { H.read_faults host.old ≤ H.read_faults host.new }
    ensures kept { OnOk result (H.read_faults host.new ≡ H.read_faults host.old) }
    ensures fresh { IfOk result (λ wave. wave.faults ≡ 0) }
    ensures writes { H.write_faults host.new ≡ H.write_faults host.old }
    ensures files { SameFiles (H.files host.old) (H.files host.new) }
    ensures out { OnOk result (H.lent host.new ≡ H.lent host.old + 1) }
    ensures back { OnErr result (H.lent host.new ≡ H.lent host.old) }
{
    let Ok(source) = host.open_in(name) else {
        return Err(Status::ReadFault);
    };
    let wave = match Wave::open(source) {
        Ok(wave) => wave,
        Err((source, fault)) => {
            host.back(source);
            return Err(status_of(fault));
        }
    };
    match difference_with(header, wave.format()) {
        None => Ok(wave),
        Some(difference) => {
            host.back(wave.into_source());
            Err(Status::Differs(difference))
        }
    }
}

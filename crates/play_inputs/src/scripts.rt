//! The script of a play.

ghost use Rattle.std.specs.Prelude.{◌≡◌, ◌<◌, ◌≤◌, ◌⊎◌, IfErr, IfOk, IsErrOf, OnOk, take};
ghost use Rattle.jack_host.specs.Causes.{Rose};
ghost use Rattle.jack_host.specs.Files.{IsThere, SameFiles};
ghost use Rattle.session_model.specs.Grammar.{IsScript, Spells};
ghost use Rattle.play_inputs.specs.Answers.{HasOwnFault};
ghost use Rattle.play_inputs.specs.Inputs.{IfBytes, IsScriptOf};
ghost use Rattle.play_inputs.specs.Scripts.{RefusesBytes, ScriptStatus, status_of_script};

use crate::Status;
use crate::reading::{LoadFault, load};
use jack_host::Host;
use jack_types::{Cause, ScriptFault};
use session_script::Script;
use std::alloc::Global;

// How many bytes of a script are read: one more than it may have.
const MOST_READ: usize = 1_048_577;

// The status of a fault that the reading of a script met.
fn status_of(fault: ScriptFault) -> Status
    ensures status { result ≡ status_of_script fault }
    ensures own { HasOwnFault result }
{
    match fault.cause {
        Cause::Memory => Status::NoMemory,
        _ => Status::BadScript(fault),
    }
}

/// The bytes of a script, as many as are read of it.
pub fn load_script<H: Host>(alloc: Global, host: &mut H, name: &str) -> Result<Vec<u8>, Status>
    requires { H.lent host.old < 1000 }
    ensures bytes { IfOk result (λ bytes. IfBytes (H.files host.old) name.now (λ whole. bytes.items ≡ take 1048577 whole)) }
    ensures fault { IfErr result (λ status. (status ≡ Status.NoMemory) ⊎ (status ≡ Status.ReadFault)) }
    ensures read { IsErrOf result Status.ReadFault →
        Rose (H.read_faults host.old) (H.read_faults host.new) ⊎ ¬ IsThere (H.files host.old) name.now }

    ensures later { H.read_faults host.old ≤ H.read_faults host.new }
    ensures kept { OnOk result (H.read_faults host.new ≡ H.read_faults host.old) }
    ensures writes { H.write_faults host.new ≡ H.write_faults host.old }
    ensures files { SameFiles (H.files host.old) (H.files host.new) }
    ensures lent { H.lent host.new ≡ H.lent host.old }
{
    match load(alloc, host, name, MOST_READ) {
        Ok(bytes) => Ok(bytes),
        Err(LoadFault::Memory) => Err(Status::NoMemory),
        Err(LoadFault::Read) => Err(Status::ReadFault),
    }
}

/// The script that these bytes spell.
pub fn script_in(alloc: Global, bytes: &[u8]) -> Result<Script, Status>
    ensures script { IfOk result (λ script. Spells bytes.now script) }
    ensures fault { IfErr result (RefusesBytes bytes.now) }
    ensures own { IfErr result HasOwnFault }
    ensures lawful { IfOk result (λ script. IsScript script) }
{
    match Script::read(alloc, bytes) {
        Ok(script) => Ok(script),
        Err(fault) => Err(status_of(fault)),
    }
}

/// Reads a script.
pub(crate) fn read_script<H: Host>(
    alloc: Global,
    host: &mut H,
    name: &str,
) -> Result<Script, Status>
    requires { H.lent host.old < 1000 }
    ensures script { IfOk result (λ script. IfBytes (H.files host.old) name.now (λ bytes. IsScriptOf bytes script)) }
    ensures lawful { IfOk result (λ script. IsScript script) }
    ensures fault { IfErr result (ScriptStatus (H.files host.old) name.now) }
    ensures own { IfErr result HasOwnFault }
    ensures read { IsErrOf result Status.ReadFault →
        Rose (H.read_faults host.old) (H.read_faults host.new) ⊎ ¬ IsThere (H.files host.old) name.now }

    ensures later { H.read_faults host.old ≤ H.read_faults host.new }
    ensures kept { OnOk result (H.read_faults host.new ≡ H.read_faults host.old) }
    ensures writes { H.write_faults host.new ≡ H.write_faults host.old }
    ensures files { SameFiles (H.files host.old) (H.files host.new) }
    ensures lent { H.lent host.new ≡ H.lent host.old }
{
    match load_script(alloc, host, name) {
        Ok(bytes) => script_in(alloc, &bytes),
        Err(status) => Err(status),
    }
}

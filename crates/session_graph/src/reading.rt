//! Reading the script.

ghost use Rattle.std.specs.Prelude.{◌≡◌, ◌≢◌, ◌^◌, ◌<◌, ◌≤◌, ◌⊎◌, IfErr, IfOk, IfSome, IsErrOf, OnOk, take};
ghost use Rattle.jack_host.specs.Causes.{Rose};
ghost use Rattle.jack_host.specs.Files.{IsThere, SameFiles};
ghost use Rattle.session_model.specs.Grammar.{Spells};
ghost use Rattle.session_graph.specs.Files.{IfBytes, IsOfOutside, IsOfScript, fault_of_script};

use crate::faults::GraphFault;
use jack_host::{Host, Source};
use jack_types::{Cause, ScriptFault};
use session_script::Script;
use std::alloc::Global;

// How many bytes of a script are read: one more than it may have.
const MOST_READ: usize = 1_048_577;

// All bytes of a source, or its first `limit` bytes.
fn read_all<S: Source>(alloc: Global, source: &mut S, limit: usize) -> Result<Vec<u8>, GraphFault>
    requires { limit < 2 ^ 62 }
    ensures bytes { IfOk result (λ v. IfSome (S.left source.old) (λ xs. v.items ≡ take limit xs)) }
    ensures fault { IfErr result IsOfOutside }
    ensures later { S.faults source.old ≤ S.faults source.new }
    ensures kept { OnOk result (S.faults source.new ≡ S.faults source.old) }
    ensures kept_err { IfErr result (λ fault. fault ≢ GraphFault.ReadFault → S.faults source.new ≡ S.faults source.old) }
    ensures read { IsErrOf result GraphFault.ReadFault → Rose (S.faults source.old) (S.faults source.new) }
{
    let mut bytes = Vec::new(alloc);
    let mut chunk = [0u8; 4096];
    'reading: while bytes.len() < limit {
        let want = chunk.len().min(limit - bytes.len());
        let count = source.read(&mut chunk[..want])?;
        if count == 0 {
            break;
        }
        bytes.extend_from_slice(&chunk[..count])?;
    }
    Ok(bytes)
}

// The bytes of a file, or its first `limit` bytes.
fn load<H: Host>(
    alloc: Global,
    host: &mut H,
    name: &str,
    limit: usize,
) -> Result<Vec<u8>, GraphFault>
    requires out { H.lent host.old < 1000 }
    requires limit { limit < 2 ^ 62 }
    ensures bytes { IfOk result (λ v. IfBytes (H.files host.old) name.now (λ whole. v.items ≡ take limit whole)) }
    ensures fault { IfErr result IsOfOutside }
    ensures read { IsErrOf result GraphFault.ReadFault →
        Rose (H.read_faults host.old) (H.read_faults host.new) ⊎ ¬ IsThere (H.files host.old) name.now }

    ensures later { H.read_faults host.old ≤ H.read_faults host.new }
    ensures kept { OnOk result (H.read_faults host.new ≡ H.read_faults host.old) }
    ensures kept_err { IfErr result (λ fault. fault ≢ GraphFault.ReadFault → H.read_faults host.new ≡ H.read_faults host.old) }
    ensures writes { H.write_faults host.new ≡ H.write_faults host.old }
    ensures files { SameFiles (H.files host.old) (H.files host.new) }
    ensures lent { H.lent host.new ≡ H.lent host.old }
{
    let mut source = host.open_in(name)?;
    let read = read_all(alloc, &mut source, limit);
    host.back(source);
    read
}

// What a script's reading met.
fn fault_of(fault: ScriptFault) -> GraphFault
    ensures { result ≡ fault_of_script fault }
{
    match fault.cause {
        Cause::Memory => GraphFault::NoMemory,
        _ => GraphFault::BadScript(fault),
    }
}

/// Reads the script of this name.
pub(crate) fn read_script<H: Host>(
    alloc: Global,
    host: &mut H,
    name: &str,
) -> Result<Script, GraphFault>
    requires { H.lent host.old < 1000 }
    ensures script { IfOk result (λ script. IfBytes (H.files host.old) name.now (λ bytes. Spells (take 1048577 bytes) script)) }
    ensures fault { IfErr result (IsOfScript (H.files host.old) name.now) }
    ensures read { IsErrOf result GraphFault.ReadFault →
        Rose (H.read_faults host.old) (H.read_faults host.new) ⊎ ¬ IsThere (H.files host.old) name.now }

    ensures later { H.read_faults host.old ≤ H.read_faults host.new }
    ensures kept { OnOk result (H.read_faults host.new ≡ H.read_faults host.old) }
    ensures kept_err { IfErr result (λ fault. fault ≢ GraphFault.ReadFault → H.read_faults host.new ≡ H.read_faults host.old) }
    ensures writes { H.write_faults host.new ≡ H.write_faults host.old }
    ensures files { SameFiles (H.files host.old) (H.files host.new) }
    ensures lent { H.lent host.new ≡ H.lent host.old }
{
    let bytes = load(alloc, host, name, MOST_READ)?;
    match Script::read(alloc, &bytes) {
        Ok(script) => Ok(script),
        Err(fault) => Err(fault_of(fault)),
    }
}

//! Reading a whole file, or its first bytes.

ghost use Rattle.std.specs.Prelude.{◌≡◌, ◌^◌, ◌<◌, ◌≤◌, ◌⊎◌, IfOk, IfSome, IsErrOf, OnOk, take, vec_len};
ghost use Rattle.jack_host.specs.Causes.{Rose};
ghost use Rattle.jack_host.specs.Files.{IsThere, SameFiles};
ghost use Rattle.play_inputs.specs.Inputs.{IfBytes};

use jack_host::{Failed, Host, Source};
use std::alloc::{AllocError, Global};

/// Why a file could not be read.
#[derive(Clone, Copy, Debug, PartialEq, Eq)]
pub(crate) enum LoadFault {
    Memory,
    Read,
}

impl From<AllocError> for LoadFault {
    ghost use Rattle.play_inputs.specs.declared.reading.LoadFault.TheVariants.{Memory};

    ghost from_gives = { λ _ e. e ≡ Memory };

    fn from(_error: AllocError) -> LoadFault {
        LoadFault::Memory
    }
}

impl From<Failed> for LoadFault {
    ghost use Rattle.play_inputs.specs.declared.reading.LoadFault.TheVariants.{Read};

    ghost from_gives = { λ _ e. e ≡ Read };

    fn from(_error: Failed) -> LoadFault {
        LoadFault::Read
    }
}

// All bytes of a source, or its first `limit` bytes.
fn read_all<S: Source>(alloc: Global, source: &mut S, limit: usize) -> Result<Vec<u8>, LoadFault>
    requires { limit < 2 ^ 62 }
    ensures bytes { IfOk result (λ v. IfSome (S.left source.old) (λ xs. v.items ≡ take limit xs)) }
    ensures later { S.faults source.old ≤ S.faults source.new }
    ensures kept { OnOk result (S.faults source.new ≡ S.faults source.old) }
    ensures read { IsErrOf result LoadFault.Read → Rose (S.faults source.old) (S.faults source.new) }
{
    let mut bytes = Vec::new(alloc);
    let mut chunk = [0u8; 4096];
    'reading: while bytes.len() < limit {
        let want = chunk.len().min(limit - bytes.len());
        let count = source.read(&mut chunk[..want])?;
        if count == 0 {
            break;
        }
        bytes.extend_from_slice(&chunk[..count])?;
    }
    Ok(bytes)
}

/// The bytes of a file, or its first `limit` bytes.
pub(crate) fn load<H: Host>(
    alloc: Global,
    host: &mut H,
    name: &str,
    limit: usize,
) -> Result<Vec<u8>, LoadFault>
    requires out { H.lent host.old < 1000 }
    requires limit { limit < 2 ^ 62 }

    ensures bytes { IfOk result (λ v. IfBytes (H.files host.old) name.now (λ whole. v.items ≡ take limit whole)) }
    ensures read { IsErrOf result LoadFault.Read →
        Rose (H.read_faults host.old) (H.read_faults host.new) ⊎ ¬ IsThere (H.files host.old) name.now }

    ensures later { H.read_faults host.old ≤ H.read_faults host.new }
    ensures kept { OnOk result (H.read_faults host.new ≡ H.read_faults host.old) }
    ensures writes { H.write_faults host.new ≡ H.write_faults host.old }
    ensures files { SameFiles (H.files host.old) (H.files host.new) }
    ensures lent { H.lent host.new ≡ H.lent host.old }
{
    let mut source = host.open_in(name)?;
    let read = read_all(alloc, &mut source, limit);
    host.back(source);
    read
}

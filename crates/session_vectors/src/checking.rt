//! Checks of a session that was played, each call of the host refused in turn.

ghost use Rattle.std.specs.Prelude.{◌≡◌, IfOk};
ghost use Rattle.host_memory.specs.MemoryHost.{host_lent};

use crate::building::{add_file, wave};
use crate::faults::REPORT;
use crate::overruns::{FORMAT, SAMPLES, SERIAL, drained_host};
use crate::running::{Played, has_out, run};
use host_memory::{MemoryHost, MemorySink};
use jack_control::Status;
use std::alloc::Global;
use std::process::Abort;
use std::sync::Wait;
use std::test::Fail;
use std::thread::Threads;

/// The words of a check with one recorder.
pub const CHECK: [&str; 7] = ["check", "s", "c", "o", "p", "--record", "r"];

/// A host with a session of five cycles, its report and its playback, which is silent, and these samples as its record.
pub fn played_host(alloc: Global, samples: &[i32]) -> Result<MemoryHost, Fail>
    ensures { IfOk result (λ host. host_lent host ≡ 0) }
{
    let mut host = drained_host(alloc, SERIAL, "run 5\n")?;
    add_file(&mut host, "o", REPORT.as_bytes())?;
    add_file(&mut host, "p", &wave(alloc, FORMAT, &[0; 20])?)?;
    add_file(&mut host, "r", &wave(alloc, FORMAT, samples)?)?;
    Ok(host)
}

/// A check whose call of this number on this name is refused.
fn refusing<R: Threads + Wait + Sync + AllocGlobal + Abort>(
    rt: &R,
    name: &str,
    call: u32,
) -> Result<Played, Fail> {
    let mut host = played_host(rt.alloc(), &SAMPLES)?;
    assert!(rt; host.refuse(name, call).is_ok());
    let mut out = MemorySink::new(rt.alloc());
    let status = run(rt, &CHECK, &mut host, &mut out, Vec::new(rt.alloc()))?;
    Ok(Played { status, host, out })
}

/// Refuses each call on a name in turn, until there is none of its number.
fn each_call_fails<R: Threads + Wait + Sync + AllocGlobal + Abort>(
    rt: &R,
    name: &str,
) -> Result<(), Fail> {
    for call in 0..64_u32 {
        let checked = refusing(rt, name, call)?;
        if checked.status == Status::Ok {
            assert!(rt; call >= 2, "{name} has more than one call");
            has_out(rt, &checked, "check ok\n");
            return Ok(());
        }
        assert!(rt;
            checked.status == Status::ReadFault,
            "call {call} of {name}"
        );
        has_out(rt, &checked, "fault 3 read\n");
    }
    panic!(rt; "{name} has more than 64 calls")
}

#[test]
fn each_failing_read_of_a_check_is_told(rt: HostRuntime) -> Result<(), Fail> {
    for name in ["s", "c", "o", "p", "r"] {
        each_call_fails(&rt, name)?;
    }
    Ok(())
}

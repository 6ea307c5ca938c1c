//! Each call of the host and of the sink refused in turn.

use crate::overruns::{SERIAL, TWO_WORKERS, drained_host, play_over};
use crate::running::{Played, has_length, has_out};
use host_memory::MemorySink;
use jack_control::Status;
use std::process::Abort;
use std::sync::Wait;
use std::test::Fail;
use std::thread::Threads;

// The calls of lane 1 that wait for the last cycle.
const WAITING: &str = "\
run 20
lane 1 at 20 disconnect system:capture_1 tape:in
lane 1 at 20 connect system:capture_1 tape:in
";

/// The report of five cycles.
pub const REPORT: &str = "\
report 1
call 0 1 ok 1
call 0 2 ok 2
call 0 3 ok 3
call 0 4 ok 4
cycle 1 4 stopped 0 -
cycle 2 4 stopped 0 -
cycle 3 4 stopped 0 -
cycle 4 4 stopped 0 -
cycle 5 4 stopped 0 -
recorder 0 5 0
end
";

/// A play in this mode whose call of this number on this name is refused.
fn refusing<R: Threads + Wait + Sync + AllocGlobal>(
    rt: &R,
    mode: &str,
    name: &str,
    call: u32,
) -> Result<Played, Fail> {
    let mut host = drained_host(rt.alloc(), mode, WAITING)?;
    host.refuse(name, call).map_err(|_| "out of memory")?;
    play_over(rt, host, MemorySink::new(rt.alloc()))
}

/// Refuses each call on a name in turn, until there is none of its number. Each but the last ends in this way.
fn each_call_fails<R: Threads + Wait + Sync + AllocGlobal + Abort>(
    rt: &R,
    mode: &str,
    name: &str,
    status: Status,
    out: &str,
) -> Result<(), Fail> {
    for call in 0..64_u32 {
        let played = refusing(rt, mode, name, call)?;
        if played.status == Status::Ok {
            assert!(rt; call >= 2, "{name} has more than one call");
            return Ok(());
        }
        assert!(rt; played.status == status, "call {call} of {name}, {mode}");
        has_out(rt, &played, out);
    }
    panic!(rt; "{name} has more than 64 calls")
}

#[test]
fn each_failing_read_is_told(rt: HostRuntime) -> Result<(), Fail> {
    for mode in [SERIAL, TWO_WORKERS] {
        each_call_fails(&rt, mode, "s", Status::ReadFault, "fault 3 read\n")?;
        each_call_fails(&rt, mode, "c", Status::ReadFault, "fault 3 read\n")?;
    }
    Ok(())
}

#[test]
fn each_failing_write_ends_the_run(rt: HostRuntime) -> Result<(), Fail> {
    for mode in [SERIAL, TWO_WORKERS] {
        each_call_fails(&rt, mode, "p", Status::WriteFault, "")?;
        each_call_fails(&rt, mode, "r", Status::WriteFault, "")?;
    }
    Ok(())
}

#[test]
fn a_file_that_is_not_closed_ends_the_run(rt: HostRuntime) -> Result<(), Fail> {
    for name in ["p", "r"] {
        let mut host = drained_host(rt.alloc(), SERIAL, "run 5\n")?;
        assert!(rt; host.refuse_done(name).is_ok());
        let played = play_over(&rt, host, MemorySink::new(rt.alloc()))?;
        assert!(rt; played.status == Status::WriteFault, "{name}");
        has_out(&rt, &played, "");
    }
    Ok(())
}

#[test]
fn a_report_that_is_not_put_leaves_whole_files(rt: HostRuntime) -> Result<(), Fail> {
    let mut out = MemorySink::new(rt.alloc());
    assert!(rt; out.refuse(1).is_ok());
    let played = play_over(&rt, drained_host(rt.alloc(), SERIAL, "run 5\n")?, out)?;
    assert!(rt; played.status == Status::WriteFault);
    has_out(&rt, &played, "");
    has_length(&rt, &played, "p", 84);
    has_length(&rt, &played, "r", 84);
    Ok(())
}

#[test]
fn a_report_that_breaks_off_has_a_front(rt: HostRuntime) -> Result<(), Fail> {
    for put in 2..64_u32 {
        let mut out = MemorySink::new(rt.alloc());
        assert!(rt; out.refuse(put).is_ok());
        let played = play_over(&rt, drained_host(rt.alloc(), SERIAL, "run 5\n")?, out)?;
        has_length(&rt, &played, "p", 84);
        has_length(&rt, &played, "r", 84);
        if played.status == Status::Ok {
            assert!(rt; put > 2, "the report is put in one call");
            has_out(&rt, &played, REPORT);
            return Ok(());
        }
        assert!(rt; played.status == Status::WriteFault, "put {put}");
        let front = str::from_utf8(played.out.as_bytes()).unwrap_or("");
        assert!(rt; !front.is_empty() && REPORT.starts_with(front), "put {put}");
    }
    panic!(rt; "the report is put in more than 64 calls")
}

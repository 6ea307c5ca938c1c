//! What a recorder's file has behind a failing write.

use crate::building::unfinished_wave;
use crate::gates::{Held, HoldingGate};
use crate::overruns::{FORMAT, ONE_WORKER, SAMPLES, SERIAL, drained_host, play_over, play_under};
use crate::running::{has_file, has_length, has_out};
use host_memory::MemorySink;
use jack_control::Status;
use std::test::Fail;

#[test]
fn a_failing_write_ends_the_run(rt: HostRuntime) -> Result<(), Fail> {
    let mut host = drained_host(rt.alloc(), SERIAL, "run 5\n")?;
    assert!(rt; host.refuse("r", 4).is_ok());
    let played = play_over(&rt, host, MemorySink::new(rt.alloc()))?;
    assert!(rt; played.status == Status::WriteFault);
    let record = unfinished_wave(rt.alloc(), FORMAT, &SAMPLES[..8])?;
    has_file(&rt, &played, "r", &record);
    has_length(&rt, &played, "p", 68);
    has_out(&rt, &played, "");
    Ok(())
}

// With threads the driver's cycles go on beside it, up to the segment's end.
#[test]
fn a_failing_write_ends_the_run_behind_its_segment(rt: HostRuntime) -> Result<(), Fail> {
    let gate = HoldingGate::new(Held::EachCycle);
    let mut host = drained_host(rt.alloc(), ONE_WORKER, "run 5\nrun 5\n")?;
    assert!(rt; host.refuse("r", 4).is_ok());
    let played = play_under(&rt, host, MemorySink::new(rt.alloc()), &gate)?;
    assert!(rt; played.status == Status::WriteFault);
    let record = unfinished_wave(rt.alloc(), FORMAT, &SAMPLES[..8])?;
    has_file(&rt, &played, "r", &record);
    has_length(&rt, &played, "p", 84);
    has_out(&rt, &played, "");
    Ok(())
}

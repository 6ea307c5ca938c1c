//! Sessions in threads mode whose threads a gate brings into an order.

use crate::building::{MONO, wave};
use crate::gates::{Held, HoldingGate};
use crate::overruns::{FORMAT, ONE_WORKER, SAMPLES, TWO_WORKERS, drained_host, play_under};
use crate::running::{PLAY, Played, has_file, has_out, play, play_with};
use crate::sharing::{LONGEST_PERIOD, crowd};
use host_memory::MemorySink;
use jack_control::Status;
use std::process::Abort;
use std::sync::Wait;
use std::test::Fail;
use std::thread::Threads;

const DEVICE: &str = "\
jackd 1
rate 48000
period 4
capture 1
playback 1 16
";

// The samples of the capture of a session that plays five cycles.
const CAPTURE: [i32; 20] = [
    1, 2, 3, 4, 5, 6, 7, 8, 9, 10, 11, 12, 13, 14, 15, 16, 17, 18, 19, 20,
];

// A client that hears the capture, and is heard when lane 1 was in cycle 2.
const CHANGED: &str = "\
do open a pass
do register a:in in audio
do register a:out out audio
do activate a
do connect system:capture_1 a:in
run 5
lane 1 at 2 connect a:out system:playback_1
";

const CHANGED_CALLS: &str = "\
report 1
call 0 1 ok 1
call 0 2 ok 2
call 0 3 ok 3
call 0 4 ok 4
call 0 5 ok 5
call 1 1 ok 6
";

// Plays a script in threads mode over the capture, under a gate that nowhere gives up.
fn play_held<R: Threads + Wait + Sync + AllocGlobal + Abort>(
    rt: &R,
    script: &[&str],
    held: Held,
) -> Result<Played, Fail> {
    let gate = HoldingGate::new(held);
    let capture = wave(rt.alloc(), MONO, &CAPTURE)?;
    let played = play_with(rt, &PLAY, script, &capture, Vec::new(rt.alloc()), &gate)?;
    assert_eq!(rt; gate.given_up(), 0, "a thread was held in vain");
    assert!(rt; played.status == Status::Ok);
    Ok(played)
}

fn out_of(played: &Played) -> &str {
    str::from_utf8(played.out.as_bytes()).unwrap_or("")
}

#[test]
fn a_lanes_call_is_made_beside_the_cycles(rt: HostRuntime) -> Result<(), Fail> {
    let played = play_held(&rt, &[DEVICE, TWO_WORKERS, CHANGED], Held::Cycle)?;
    let cycles = "\
cycle 1 5 stopped 0 -
cycle 2 5 stopped 0 -
cycle 3 6 stopped 0 -
cycle 4 6 stopped 0 -
cycle 5 6 stopped 0 -
end
";
    let rest = out_of(&played).strip_prefix(CHANGED_CALLS);
    assert_eq!(rt; rest, Some(cycles));
    let mut heard = CAPTURE;
    heard[..8].fill(0);
    has_file(&rt, &played, "p", &wave(rt.alloc(), MONO, &heard)?);
    Ok(())
}

#[test]
fn cycles_go_on_beside_a_lane_that_is_held(rt: HostRuntime) -> Result<(), Fail> {
    let played = play_held(&rt, &[DEVICE, TWO_WORKERS, CHANGED], Held::Lanes)?;
    let cycles = "\
cycle 1 5 stopped 0 -
cycle 2 5 stopped 0 -
cycle 3 5 stopped 0 -
cycle 4 5 stopped 0 -
cycle 5 ";
    let rest = out_of(&played).strip_prefix(CHANGED_CALLS);
    let last = rest.and_then(|rest| rest.strip_prefix(cycles));
    let mut heard = [0; 20];
    if last == Some("6 stopped 0 -\nend\n") {
        heard[16..].copy_from_slice(&CAPTURE[16..]);
    } else {
        assert_eq!(rt; last, Some("5 stopped 0 -\nend\n"));
    }
    has_file(&rt, &played, "p", &wave(rt.alloc(), MONO, &heard)?);
    Ok(())
}

#[test]
fn clients_play_at_once(rt: HostRuntime) -> Result<(), Fail> {
    let calls = crowd(rt.alloc())?;
    let script = [LONGEST_PERIOD, TWO_WORKERS, calls.as_str(), "run 1\n"];
    play_held(&rt, &script, Held::Clients)?;
    Ok(())
}

// What a segment of 20 cycles records, with the capture of five of them.
fn recorded<R: Threads + Wait + Sync + AllocGlobal + Abort>(
    rt: &R,
    held: Held,
) -> Result<Played, Fail> {
    let gate = HoldingGate::new(held);
    let host = drained_host(rt.alloc(), ONE_WORKER, "run 20\n")?;
    let played = play_under(rt, host, MemorySink::new(rt.alloc()), &gate)?;
    assert_eq!(rt; gate.given_up(), 0, "a thread was held in vain");
    assert!(rt; played.status == Status::Ok);
    Ok(played)
}

#[test]
fn a_held_recorder_loses_the_blocks_behind_a_full_ring(rt: HostRuntime) -> Result<(), Fail> {
    let played = recorded(&rt, Held::Recorder)?;
    let lost = "\
overrun 0 3 2 0
overrun 0 4 2 0
overrun 0 5 2 0
overrun 0 6 2 0
overrun 0 7 2 0
overrun 0 8 2 0
overrun 0 9 2 0
";
    assert!(rt; out_of(&played).contains(lost));
    Ok(())
}

#[test]
fn cycles_that_are_held_for_the_recorder_lose_nothing(rt: HostRuntime) -> Result<(), Fail> {
    let played = recorded(&rt, Held::EachCycle)?;
    assert!(rt; out_of(&played).ends_with("\nrecorder 0 20 0\nend\n"));
    let mut kept = [0; 80];
    kept[..20].copy_from_slice(&SAMPLES);
    has_file(&rt, &played, "r", &wave(rt.alloc(), FORMAT, &kept)?);
    Ok(())
}

// A client between capture and playback that is deactivated when lane 1 was in cycle 2.
const DEACTIVATED: &str = "\
do open p pass
do register p:in in audio
do register p:out out audio
do activate p
do connect system:capture_1 p:in
do connect p:out system:playback_1
run 4
lane 1 at 2 deactivate p
";

const DEACTIVATED_CALLS: &str = "\
report 1
call 0 1 ok 1
call 0 2 ok 2
call 0 3 ok 3
call 0 4 ok 4
call 0 5 ok 5
call 0 6 ok 6
call 1 1 ok 7
cycle 1 6 stopped 0 -
cycle 2 6 stopped 0 -
";

// The lines of cycles 3 and 4, and how many samples are heard.
const DEACTIVATED_CYCLES: [(&str, usize); 3] = [
    ("cycle 3 7 stopped 0 -\ncycle 4 7 stopped 0 -\nend\n", 8),
    ("cycle 3 6 stopped 0 -\ncycle 4 7 stopped 0 -\nend\n", 12),
    ("cycle 3 6 stopped 0 -\ncycle 4 6 stopped 0 -\nend\n", 16),
];

#[test]
fn what_is_heard_is_that_of_the_printed_numbers(rt: HostRuntime) -> Result<(), Fail> {
    let capture = wave(rt.alloc(), MONO, &CAPTURE)?;
    let played = play(&rt, &PLAY, &[DEVICE, TWO_WORKERS, DEACTIVATED], &capture)?;
    assert!(rt; played.status == Status::Ok);
    let rest = out_of(&played).strip_prefix(DEACTIVATED_CALLS);
    for (cycles, count) in DEACTIVATED_CYCLES {
        if rest == Some(cycles) {
            let count = count.min(16);
            let mut heard = [0; 16];
            heard[..count].copy_from_slice(&CAPTURE[..count]);
            has_file(&rt, &played, "p", &wave(rt.alloc(), MONO, &heard)?);
            return Ok(());
        }
    }
    panic!(rt; "cycles 3 and 4 have numbers of their own")
}

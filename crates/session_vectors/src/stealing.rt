//! Sessions whose workers take clients from each other.

use crate::building::{MONO, wave};
use crate::gates::{Held, HoldingGate};
use crate::overruns::TWO_WORKERS;
use crate::running::{PLAY, Played, has_file, play, play_with};
use crate::sharing::{LONGEST_PERIOD, crowd};
use jack_control::Status;
use std::process::Abort;
use std::sync::Wait;
use std::test::Fail;
use std::thread::Threads;

const LONGEST_PERIOD_OF_3: &str = "\
jackd 3
rate 48000
period 4096
capture 1
playback 1 16
";

// Plays one cycle of the crowd under a gate that holds two clients of one worker for each other, so many turns at most.
fn held_for_each_other<R: Threads + Wait + Sync + AllocGlobal + Abort>(
    rt: &R,
    device: &str,
    mode: &str,
    turns: u64,
) -> Result<u64, Fail> {
    let calls = crowd(rt.alloc())?;
    let gate = HoldingGate::with_turns(Held::Pair, turns);
    let capture = wave(rt.alloc(), MONO, &[])?;
    let script = [device, mode, calls.as_str(), "run 1\n"];
    let played = play_with(rt, &PLAY, &script, &capture, Vec::new(rt.alloc()), &gate)?;
    assert!(rt; played.status == Status::Ok);
    Ok(gate.given_up())
}

#[test]
fn a_worker_takes_a_client_of_another(rt: HostRuntime) -> Result<(), Fail> {
    let given_up = held_for_each_other(&rt, LONGEST_PERIOD_OF_3, "mode steal 2\n", 300_000_000)?;
    assert_eq!(rt; given_up, 0, "no worker took the other client");
    Ok(())
}

#[test]
fn a_worker_that_does_not_steal_plays_its_own_clients(rt: HostRuntime) -> Result<(), Fail> {
    let given_up = held_for_each_other(&rt, LONGEST_PERIOD, TWO_WORKERS, 1_000)?;
    assert_eq!(rt; given_up, 1);
    Ok(())
}

// Plays two cycles of the crowd beside a connection straight through.
fn straight<R: Threads + Wait + Sync + AllocGlobal + Abort>(
    rt: &R,
    mode: &str,
) -> Result<Played, Fail> {
    let calls = crowd(rt.alloc())?;
    let capture = wave(rt.alloc(), MONO, &[1, 2, 3])?;
    let rest = "do connect system:capture_1 system:playback_1\nrun 2\n";
    let script = [LONGEST_PERIOD_OF_3, mode, calls.as_str(), rest];
    let played = play(rt, &PLAY, &script, &capture)?;
    assert!(rt; played.status == Status::Ok);
    Ok(played)
}

#[test]
fn workers_that_steal_play_as_serial_mode(rt: HostRuntime) -> Result<(), Fail> {
    let alone = straight(&rt, "mode serial\n")?;
    let file = alone.host.file("p").unwrap_or(&[]);
    for mode in ["mode steal 1\n", "mode steal 2\n", "mode steal 4\n"] {
        let shared = straight(&rt, mode)?;
        assert_eq!(rt; shared.out.as_bytes(), alone.out.as_bytes());
        has_file(&rt, &shared, "p", file);
    }
    Ok(())
}

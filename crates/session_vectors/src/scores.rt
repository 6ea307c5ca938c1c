//! A guest that fails.

use crate::building::{MONO, failing_guest, wave};
use crate::gates::{Held, HoldingGate};
use crate::overruns::{FOUR_WORKERS, ONE_WORKER, SERIAL};
use crate::running::{PLAY, has_file, play_with};
use crate::sharing::{LONGEST_PERIOD, crowd};
use jack_control::Status;
use jack_host::FreeGate;
use std::test::Fail;

const DEVICE: &str = "\
jackd 1
rate 48000
period 4
capture 1
playback 1 16
";

const FAILING: &str = "\
do open g guest 0
do register g:in in audio
do register g:out out audio
do activate g
do connect system:capture_1 g:in
do connect g:out system:playback_1
run 4
do close g
do open g guest 0
do register g:in in audio
do register g:out out audio
do activate g
do connect system:capture_1 g:in
do connect g:out system:playback_1
run 1
";

#[test]
fn a_guest_that_failed_is_silent_until_it_is_opened_again(rt: HostRuntime) -> Result<(), Fail> {
    let samples = [
        1, 2, 3, 4, 5, 6, 7, 8, 9, 10, 11, 12, 13, 14, 15, 16, 17, 18, 19, 20,
    ];
    let heard = [
        1, 2, 3, 4, 5, 6, 7, 8, 0, 0, 0, 0, 0, 0, 0, 0, 17, 18, 19, 20,
    ];
    let capture = wave(rt.alloc(), MONO, &samples)?;
    for mode in [SERIAL, ONE_WORKER, FOUR_WORKERS] {
        let guests = failing_guest(rt.alloc())?;
        let script = [DEVICE, mode, FAILING];
        let played = play_with(&rt, &PLAY, &script, &capture, guests, &FreeGate)?;
        assert!(rt; played.status == Status::Ok, "{mode}");
        has_file(&rt, &played, "p", &wave(rt.alloc(), MONO, &heard)?);
    }
    Ok(())
}

// The guest beside a crowd of clients with so much work that all workers play: its cycles are of 4,096 frames.
#[test]
fn a_guest_that_failed_on_four_workers_is_silent_too(rt: HostRuntime) -> Result<(), Fail> {
    let mut samples = Vec::new(rt.alloc());
    let mut heard = Vec::new(rt.alloc());
    for sample in 0..5 * 4096 {
        let silent = (2 * 4096..4 * 4096).contains(&sample);
        samples.push(sample)?;
        heard.push(if silent { 0 } else { sample })?;
    }
    let capture = wave(rt.alloc(), MONO, &samples)?;
    let clients = crowd(rt.alloc())?;
    let script = [LONGEST_PERIOD, FOUR_WORKERS, clients.as_str(), FAILING];
    let guests = failing_guest(rt.alloc())?;
    let gate = HoldingGate::new(Held::Clients);
    let played = play_with(&rt, &PLAY, &script, &capture, guests, &gate)?;
    assert_eq!(rt; gate.given_up(), 0, "the clients were not played at once");
    assert!(rt; played.status == Status::Ok);
    has_file(&rt, &played, "p", &wave(rt.alloc(), MONO, &heard)?);
    Ok(())
}

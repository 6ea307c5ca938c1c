//! A disk file in threads mode whose thread a gate brings into an order with the cycles.

use crate::building::{add_file, host_with, text, wave};
use crate::gates::{Held, HoldingGate};
use crate::overruns::{FORMAT, ONE_WORKER};
use crate::running::{Played, has_file, has_out, run_under};
use host_memory::MemorySink;
use jack_control::Status;
use std::test::Fail;

// The header up to its mode.
const DEVICE: &str = "\
jackd 3
rate 8000
period 4
capture 1
playback 1 16
";

// A ring of two blocks, and a client that plays the file.
const TRACK: &str = "\
ring 2
disk 1
do open track disk 0
do register track:out out audio
do activate track
do connect track:out system:playback_1
run 20
";

// The words of a play with one disk file.
const WORDS: [&str; 6] = ["play", "s", "c", "p", "--disk", "d"];

// Of a file of 20 blocks the two that were read before the segment are played in cycles 1 and 2, and the next eleven from cycle 10
// on, where the file is read again.
const REPORT: &str = "\
report 1
call 0 1 ok 1
call 0 2 ok 2
call 0 3 ok 3
call 0 4 ok 4
cycle 1 4 stopped 0 -
cycle 2 4 stopped 0 -
cycle 3 4 stopped 0 -
cycle 4 4 stopped 0 -
cycle 5 4 stopped 0 -
cycle 6 4 stopped 0 -
cycle 7 4 stopped 0 -
cycle 8 4 stopped 0 -
cycle 9 4 stopped 0 -
cycle 10 4 stopped 0 -
cycle 11 4 stopped 0 -
cycle 12 4 stopped 0 -
cycle 13 4 stopped 0 -
cycle 14 4 stopped 0 -
cycle 15 4 stopped 0 -
cycle 16 4 stopped 0 -
cycle 17 4 stopped 0 -
cycle 18 4 stopped 0 -
cycle 19 4 stopped 0 -
cycle 20 4 stopped 0 -
disk 0 13 7
underrun 0 3 2 2
underrun 0 4 2 2
underrun 0 5 2 2
underrun 0 6 2 2
underrun 0 7 2 2
underrun 0 8 2 2
underrun 0 9 2 2
end
";

#[test]
fn a_held_disk_file_is_late_by_the_cycles_in_which_it_was_held(
    rt: HostRuntime,
) -> Result<(), Fail> {
    let gate = HoldingGate::new(Held::Disk);
    let script = text(rt.alloc(), &[DEVICE, ONE_WORKER, TRACK])?;
    let mut samples = [0; 80];
    for (place, sample) in samples.iter_mut().enumerate() {
        *sample = (place as i32).saturating_add(1);
    }
    let silence = wave(rt.alloc(), FORMAT, &[])?;
    let mut host = host_with(rt.alloc(), script.as_bytes(), &silence)?;
    add_file(&mut host, "d", &wave(rt.alloc(), FORMAT, &samples)?)?;
    let mut out = MemorySink::new(rt.alloc());
    let status = run_under(
        &rt,
        &WORDS,
        &mut host,
        &mut out,
        Vec::new(rt.alloc()),
        &gate,
    )?;
    let played = Played { status, host, out };
    assert_eq!(rt; gate.given_up(), 0, "a thread was held in vain");
    assert!(rt; played.status == Status::Ok);
    has_out(&rt, &played, REPORT);
    let mut heard = [0; 80];
    for (place, sample) in heard.iter_mut().enumerate() {
        let place = place as i32;
        if place < 8 {
            *sample = place.saturating_add(1);
        } else if place >= 36 {
            *sample = place.saturating_sub(27);
        }
    }
    has_file(&rt, &played, "p", &wave(rt.alloc(), FORMAT, &heard)?);
    Ok(())
}

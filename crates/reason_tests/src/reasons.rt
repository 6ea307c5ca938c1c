use jack_types::{Part, Row};
use lost_blocks::Stream;
use refused_calls::Notes;
use std::alloc::AllocError;
use told_reasons::{
    Capture, of_capture, of_fills, of_guests, of_lost_blocks, of_refusals, of_rings, of_underruns,
    of_wrong, standing_in,
};

const SCRIPT: &[u8; 71] =
    b"jackd 1\r\n# x\ndo stop\nrun 9\nlane 2 at 1 start\ndo open g guest 3\ndo stop\n";

// The lines 3, 5 and 7 of the script have calls, and it has no fourth call of lane 0.
const REFUSED: &[u8; 273] = b"jackd: s:3: stop: refused 19 Busy (another client is the master)
jackd: s:5: start: refused 19 Busy (another client is the master)
jackd: s:7: stop: refused 19 Busy (another client is the master)
jackd: s: call 4 of lane 0: refused 19 Busy
jackd: 4 of 4 calls were refused
";

#[test]
fn frames_stand_behind_a_header_of_44_bytes(rt: HostRuntime) {
    let mut front = [0xffu8; 44];
    front[..4].copy_from_slice(b"RIFF");
    front[32..34].copy_from_slice(b"\x06\x00");
    assert_eq!(rt; standing_in(&front, 62), Some(3));
    assert_eq!(rt; standing_in(&front, 61), Some(2));
    front[40] = 0;
    assert_eq!(rt; standing_in(&front, 62), None);
}

#[test]
fn calls_are_found_by_their_lanes(rt: HostRuntime) -> Result<(), AllocError> {
    let mut notes = Notes::new();
    notes.hear(b"call 0 1 refused 19 Busy".as_slice());
    notes.hear(b"call 2 1 refused 19 Busy".as_slice());
    notes.hear(b"call 0 3 refused 19 Busy".as_slice());
    notes.hear(b"call 0 4 refused 19 Busy".as_slice());
    let reason = of_refusals(rt.alloc(), "s", SCRIPT.as_slice(), &notes)?;
    assert!(rt; reason.as_bytes() == REFUSED.as_slice());
    Ok(())
}

#[test]
fn calls_behind_the_twentieth_are_counted(rt: HostRuntime) -> Result<(), AllocError> {
    let mut notes = Notes::new();
    for _ in 0..21 {
        notes.hear(b"call 2 1 refused 19 Busy".as_slice());
    }
    let reason = of_refusals(rt.alloc(), "s", SCRIPT.as_slice(), &notes)?;
    assert!(rt;
        reason.as_bytes().ends_with(b"jackd: and 1 more; 21 of 21 calls were refused\n".as_slice())
    );
    Ok(())
}

// Cycle 3 begins behind 32 frames, and cycle 700 behind 10 times 16 and 689 times 64.
const PERIODS: &[u8; 101] =
    b"jackd 2\nrate 48000\nperiod 16\nplayback 1 16\nmode serial\nrun 4\nfreewheel 6\nperiod 64\nrun 99999\ndo stop\n";

#[test]
fn lost_blocks_are_told_by_their_first_cycle(rt: HostRuntime) -> Result<(), AllocError> {
    let stream = |missed, first| Stream {
        blocks: 5,
        missed,
        first,
    };
    let cases = [
        (
            stream(1, 3),
            "jackd: r: 1 of 6 blocks was lost, in cycle 3 (second 0.000); the file is shifted from there on\n",
        ),
        (
            stream(7, 700),
            "jackd: r: 7 of 12 blocks were lost, the first in cycle 700 (second 0.922); the file is shifted from there on\n",
        ),
    ];
    for (stream, told) in cases {
        let reason = of_lost_blocks(rt.alloc(), "r", PERIODS.as_slice(), stream)?;
        assert!(rt; reason.as_bytes() == told.as_bytes());
    }
    Ok(())
}

#[test]
fn underruns_are_told_by_their_first_cycle(rt: HostRuntime) -> Result<(), AllocError> {
    let stream = |blocks, missed, first| Stream {
        blocks,
        missed,
        first,
    };
    let cases = [
        (
            stream(1, 1, 3),
            "jackd: d: 1 underrun beside 1 block played, in cycle 3 (second 0.000); it is silent, and the track is late from there on\n",
        ),
        (
            stream(0, 7, 700),
            "jackd: d: 7 underruns beside 0 blocks played, the first in cycle 700 (second 0.922); each is silent, and the track is late from there on\n",
        ),
    ];
    for (stream, told) in cases {
        let reason = of_underruns(rt.alloc(), "d", PERIODS.as_slice(), stream)?;
        assert!(rt; reason.as_bytes() == told.as_bytes());
    }
    Ok(())
}

#[test]
fn a_capture_is_held_against_the_session(rt: HostRuntime) -> Result<(), AllocError> {
    // A header of 16 bits and one channel, and a session of 20 frames.
    let script =
        b"period 4\nplayback 1 16\ndo connect system:capture_1 system:playback_1\nrun 3\nfreewheel 9\nperiod 8\nrun 1\n".as_slice();
    let mut front = [0u8; 44];
    front[12..16].copy_from_slice(b"fmt ");
    front[16] = 16;
    front[32] = 2;
    front[36..40].copy_from_slice(b"data");
    let cases = [
        (40, 84, Some(84), ""),
        (
            40,
            61,
            Some(61),
            "jackd: c: ends inside its data: 17 of 40 bytes are there; it has 8 of the 20 frames that the session captures, and silence follows\n",
        ),
        (
            42,
            84,
            Some(86),
            "jackd: c: has 21 frames, and the session captures the first 20\n",
        ),
        (
            42,
            84,
            None,
            "jackd: c: has 21 frames, and the session captures the first 20\n",
        ),
        (
            2,
            46,
            None,
            "jackd: c: has 1 of the 20 frames that the session captures, and silence follows\n",
        ),
    ];
    for (size, read, length, told) in cases {
        front[40] = size;
        let capture = Capture {
            name: "c",
            front: &front,
            read,
            length,
        };
        match of_capture(rt.alloc(), capture, script)? {
            Some(reason) => assert!(rt; reason.as_bytes() == told.as_bytes()),
            None => assert!(rt; told.is_empty()),
        }
    }
    Ok(())
}

#[test]
fn the_way_out_goes_by_the_mode(rt: HostRuntime) -> Result<(), AllocError> {
    let cases = [
        (
            b"mode serial\nring 64\n".as_slice(),
            "jackd: \"drain 1\" loses no block, nor does a \"freewheel\" segment\n",
        ),
        (
            b"mode threads 2\nring 64\n".as_slice(),
            "jackd: a \"freewheel\" segment loses no block\n",
        ),
        (
            b"mode threads 2\nring 6\n".as_slice(),
            "jackd: \"ring 64\" holds more blocks, and a \"freewheel\" segment loses none\n",
        ),
    ];
    for (script, told) in cases {
        let reason = of_rings(rt.alloc(), script)?;
        assert!(rt; reason.as_bytes() == told.as_bytes());
    }
    Ok(())
}

#[test]
fn the_way_out_of_underruns_goes_by_the_mode(rt: HostRuntime) -> Result<(), AllocError> {
    let cases = [
        (
            b"mode serial\nring 2\nfill 0\n".as_slice(),
            "jackd: \"fill 1\" has no underrun, nor has a \"freewheel\" segment\n",
        ),
        (
            b"mode steal 2\nring 64\n".as_slice(),
            "jackd: \"mode serial\" with \"fill 1\" has no underrun, nor has a \"freewheel\" segment\n",
        ),
        (
            b"mode threads 2\nfill 0\n".as_slice(),
            "jackd: \"ring 64\" makes underruns rarer; \"mode serial\" with \"fill 1\" has none, nor has a \"freewheel\" segment\n",
        ),
    ];
    for (script, told) in cases {
        let reason = of_fills(rt.alloc(), script)?;
        assert!(rt; reason.as_bytes() == told.as_bytes());
    }
    Ok(())
}

#[test]
fn a_guest_is_found_by_its_line(rt: HostRuntime) -> Result<(), AllocError> {
    let reason = of_guests(rt.alloc(), "s", SCRIPT.as_slice(), 9, 3)?;
    assert!(rt;
        reason.as_bytes() == b"jackd: s:6: guest 3: only 0, 1 and 2 are handed in\n".as_slice()
    );
    Ok(())
}

#[test]
fn lines_are_shown_by_their_numbers(rt: HostRuntime) -> Result<(), AllocError> {
    let first = of_wrong(rt.alloc(), "r", SCRIPT.as_slice(), line_of_report(1))?;
    assert!(rt;
        first.as_bytes()
            == b"jackd: r:1: no line of this script's report, in this place\n    jackd 1\n".as_slice()
    );
    let behind = of_wrong(rt.alloc(), "r", SCRIPT.as_slice(), line_of_report(8))?;
    assert!(rt;
        behind.as_bytes()
            == b"jackd: r:8: no line of this script's report, in this place\n".as_slice()
    );
    Ok(())
}

fn line_of_report(number: u32) -> Row {
    Row {
        what: Part::Report,
        number,
        place: 0,
    }
}

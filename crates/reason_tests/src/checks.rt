use check_sights::{Number, Sight};
use jack_types::{Part, Refusal, Reply, Row};
use std::alloc::AllocError;
use told_reasons::{Channel, made_by, of_check, of_checked_file, of_feeds};

fn report() -> &'static [u8] {
    b"report 1
call 0 1 ok 1
call 0 2 refused 16 Exists
cycle 1 1 stopped 0 -
cycle 2 1 rolling 64 1|1|0
meter a 7
recorder 0 2 1
overrun 0 2 3 1
en"
        .as_slice()
}

fn script() -> &'static [u8] {
    b"jackd 2
rate 48000
period 64
capture 1
playback 2 16
mode serial
recorder 1 8
recorder 2 24
run 2
freewheel 9
period 32
run 1
"
        .as_slice()
}

fn row(what: Part, number: u32) -> Row {
    Row {
        what,
        number,
        place: 0,
    }
}

fn number(what: Number, wanted: u64, found: u64) -> Sight {
    Sight::Number {
        what,
        wanted,
        found,
    }
}

#[test]
fn a_wrong_line_is_found_by_its_part(rt: HostRuntime) -> Result<(), AllocError> {
    let refused = Sight::Reply {
        wanted: Reply::Refused(Refusal::Exists),
    };
    let cases = [
        (
            row(Part::Report, 9),
            Sight::Nothing,
            "jackd: r:9: the report breaks off before its line \"end\"\n    en\n",
        ),
        (
            row(Part::Call, 1),
            refused,
            "jackd: r:2: call 1: \"refused 16 Exists\" is expected\n    call 0 1 ok 1\n",
        ),
        (
            row(Part::Cycle, 2),
            number(Number::Frame, 63, 64),
            "jackd: r:5: cycle 2: the frame is 63, and 64 stands there\n    cycle 2 1 rolling 64 1|1|0\n",
        ),
        (
            row(Part::Meter, 2),
            Sight::Missing,
            "jackd: r: meter 2: its line is missing\n",
        ),
        (
            row(Part::Overrun, 1),
            number(Number::Taken, 2, 1),
            "jackd: r:8: overrun 1: the number of blocks taken is 2, and 1 stands there\n    overrun 0 2 3 1\n",
        ),
    ];
    for (row, sight, told) in cases {
        let reason = of_check(rt.alloc(), "r", report(), row, sight)?;
        assert!(rt; reason.as_bytes() == told.as_bytes());
    }
    Ok(())
}

#[test]
fn a_wrong_sample_is_told_by_its_place(rt: HostRuntime) -> Result<(), AllocError> {
    // The header of 160 frames of two channels and 16 bits, at 48,000 frames a second.
    let mut front = [0u8; 44];
    front[22] = 2;
    front[24..28].copy_from_slice(b"\x80\xbb\x00\x00");
    front[32] = 4;
    front[34] = 16;
    front[40..42].copy_from_slice(b"\x80\x02");
    let wanted = made_by(script(), row(Part::Playback, 0));
    let sample = Sight::Sample {
        cycle: 2,
        frame: 1,
        channel: 1,
        wanted: 1200,
        found: -3,
    };
    let byte = Sight::Byte {
        wanted: 1,
        found: 2,
    };
    let cases = [
        (
            306,
            sample,
            "jackd: p: byte 306: cycle 2, frame 1 (frame 65 of the file, second 0.001), right channel: 1200 is expected, -3 stands there\n",
        ),
        (
            40,
            byte,
            "jackd: p: byte 40, the size of the samples in its header: 1 is expected, 2 stands there\n",
        ),
        (
            124,
            Sight::Short,
            "jackd: p: it ends behind 20 of 160 frames\n",
        ),
        (
            20,
            Sight::Short,
            "jackd: p: the file ends after 20 bytes, within its header\n",
        ),
        (
            684,
            Sight::Long,
            "jackd: p: it goes on behind the 160 frames that are expected\n",
        ),
    ];
    for (place, sight, told) in cases {
        let reason = of_checked_file(rt.alloc(), "p", &front, wanted, place, sight)?;
        assert!(rt; reason.as_bytes() == told.as_bytes());
    }
    let record = made_by(script(), row(Part::Record, 1));
    let reason = of_checked_file(rt.alloc(), "q", &front, record, 34, byte)?;
    assert!(rt;
        reason.as_bytes()
            == b"jackd: q: byte 34, the bits of a sample in its header: 1 is expected, 2 stands there; it has 16 bits a sample, where the script has 24\n".as_slice()
    );
    Ok(())
}

#[test]
fn the_outputs_that_feed_a_channel_are_named(rt: HostRuntime) -> Result<(), AllocError> {
    let graph = b"cycle 2 change 5
client system device active
port system:capture_1 out audio
port system:playback_1 in audio
port system:playback_2 in audio
client tape record 1 active
port tape:clock in midi
port tape:in in audio
connected a:out system:playback_2 direct
connected b:out system:playback_2 feedback
transport stopped 0 -
end
"
        .as_slice();
    let cases = [
        (
            Part::Playback,
            1,
            "jackd: in cycle 2 system:playback_2 is fed by a:out b:out; jackd graph s 'r 1' 2 shows all\n",
        ),
        (
            Part::Record,
            0,
            "jackd: in cycle 2 tape:in is fed by nothing; jackd graph s 'r 1' 2 shows all\n",
        ),
    ];
    for (what, number, told) in cases {
        let channel = Channel {
            row: row(what, 1),
            cycle: 2,
            number,
        };
        match of_feeds(rt.alloc(), "s", "r 1", graph, channel)? {
            Some(reason) => assert!(rt; reason.as_bytes() == told.as_bytes()),
            None => assert!(rt; false),
        }
    }
    Ok(())
}

//! Lines of a report that no session has: with events and disks, and with the greatest numbers. Many calls go out by few puts.

use host_memory::MemorySink;
use jack_types::{
    Bbt, Call, ClientName, Command, Entry, Event, Logged, Moment, Range, Refusal, Reply,
    TransportState, Underrun,
};
use report_lines::{put_calls, put_cycles, put_disk, put_event, put_meter};

// A call of a lane, with its reply.
fn entry(lane: u8, index: u32, reply: Reply) -> Entry {
    let call = Call {
        lane,
        index,
        command: Command::Start,
    };
    Entry { call, reply }
}

const ROLLING: Moment = Moment {
    cycle: 12,
    state: TransportState::Rolling,
    frame: 4_294_967_295,
    rate: 48_000,
    bbt: Some(Bbt {
        bar: 1,
        beat: 4,
        tick: 959,
        mbpm: 120_000,
        beats: 4,
        ticks: 960,
    }),
};

const UNDERRUNS: [Underrun; 1] = [Underrun {
    disk: 2,
    cycle: 9,
    sent: 18_446_744_073_709_551_615,
    taken: 1,
}];

const TEXT: &[u8] = b"\
call 4 4095 refused 21 InUse
call 1 1 refused 1 NoClient
call 2 7 latency 64 4096
cycle 12 0 rolling 4294967295 1|4|959
meter in-1.x 2147483648
midi in-1.x 3 63 900aff
disk 1 4 0
disk 2 0 1
underrun 2 9 18446744073709551615 1
";

#[test]
fn lines_have_numbers_and_bytes_of_any_size(rt: HostRuntime) {
    let mut out = MemorySink::new(rt.alloc());
    let range = Range {
        min: 64,
        max: 4_096,
    };
    let calls = [
        entry(4, 4_095, Reply::Refused(Refusal::InUse)),
        entry(1, 1, Reply::Refused(Refusal::NoClient)),
        entry(2, 7, Reply::Latency(range)),
    ];
    let client = ClientName::read("in-1.x").ok().expect(&rt, "a name");
    let logged = Logged {
        cycle: 3,
        event: Event::new(63, &[0x90, 0x0a, 0xff]),
    };
    assert_eq!(rt; put_calls(&mut out, &calls), Ok(()));
    assert_eq!(rt; put_cycles(&mut out, &[0, 3, 5], &[ROLLING]), Ok(()));
    assert_eq!(rt; put_meter(&mut out, &client, 2_147_483_648), Ok(()));
    assert_eq!(rt; put_event(&mut out, &client, &logged), Ok(()));
    assert_eq!(rt; put_disk(&mut out, 1, 4, &UNDERRUNS), Ok(()));
    assert_eq!(rt; put_disk(&mut out, 2, 0, &UNDERRUNS), Ok(()));
    assert_eq!(rt; out.as_bytes(), TEXT);
}

#[test]
fn a_put_has_5120_bytes_of_whole_lines_at_most(rt: HostRuntime) {
    let mut out = MemorySink::new(rt.alloc());
    assert!(rt; out.refuse(2).is_ok());
    let call = entry(0, 1, Reply::Accepted(1));
    assert!(rt; put_calls(&mut out, &[call; 400]).is_err());
    assert_eq!(rt; out.as_bytes().len(), 5_110);
    let mut lines = out.as_bytes().chunks(14);
    assert!(rt; lines.all(|line| line == b"call 0 1 ok 1\n".as_slice()));
}

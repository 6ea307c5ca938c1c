//! Benches of four nodes, of which the first has a wave.
ghost use Rattle.std.specs.Prelude.{◌≡◌, length, true};
ghost use Rattle.client_kinds.specs.Standings.{IsPlayable};
ghost use Rattle.client_benches.specs.Seen.{has_room_at, new_bench};
ghost use Rattle.bench_crew.specs.Ensembles.{bench_of};

use client_benches::{ClientBench, Rooms};
use client_kinds::{Guest, Shape};
use guests::HoldGuest;
use jack_types::{Kind, Moment, Score, TransportState};
use std::alloc::Global;
use std::process::Abort;

pub type Bench = ClientBench<Busy>;

const MOMENT: Moment = Moment {
    cycle: 1,
    state: TransportState::Stopped,
    frame: 0,
    rate: 48_000,
    bbt: None,
};

/// A guest that plays the last sample of the cycle before, and tells so much work.
#[derive(Drop)]
pub struct Busy {
    guest: HoldGuest,
    work: u32,
}

impl Guest for Busy {
    ghost use Rattle.std.specs.Prelude.{None};
    ghost use Rattle.guests.specs.Sounds.{sound_by};

    ghost score = { λ busy. busy.guest.score };

    ghost sound = { sound_by };

    ghost numbers = { λ busy. busy.guest.numbers };

    ghost told = { λ _. None };

    fn process(&mut self, moment: &Moment, ports: Shape, input: &[i32], output: &mut [i32]) -> i32 {
        self.guest.process(moment, ports, input, output)
    }

    fn work(&self, _ports: Shape) -> u32 {
        self.work
    }

    fn reset(&mut self) {
        self.guest.reset();
    }
}

// The rooms of a link.
fn rooms(rt: &impl Abort, alloc: Global) -> Rooms {
    match Rooms::new(alloc) {
        Ok(rooms) => rooms,
        Err(_) => panic!(rt; "rooms"),
    }
}

// A bench as it is opened, for four frames.
fn opened(rt: &impl Abort, alloc: Global, kind: Kind) -> Bench
    requires { IsPlayable kind }
    ensures { result ≡ new_bench kind 4 }
{
    match ClientBench::new(alloc, kind, 4) {
        Ok(bench) => bench,
        Err(_) => panic!(rt; "a bench"),
    }
}

fn hold(rt: &impl Abort, alloc: Global) -> HoldGuest {
    match HoldGuest::new(alloc, Score::Hold) {
        Ok(guest) => guest,
        Err(_) => panic!(rt; "a guest"),
    }
}

// A wave of four frames, which is handed on over the two links that go out from its node.
fn wave(rt: &impl Abort, alloc: Global) -> Bench
    ensures { (has_room_at result 0 ≡ true) × (has_room_at result 1 ≡ true) }
{
    let kind = Kind::Tone {
        half: 2,
        level: 1000,
    };
    let mut bench = opened(rt, alloc, kind);
    let ports = Shape {
        inputs: 0,
        outputs: 1,
        period: 4,
    };
    bench.begin(&MOMENT, ports, 2);
    bench.carry(0, Some(0));
    bench.carry(1, Some(0));
    bench.link(0, rooms(rt, alloc));
    bench.link(1, rooms(rt, alloc));
    bench
}

/// What comes over the first incoming link, so many times.
pub fn times(rt: &impl Abort, alloc: Global, factor: i32) -> Bench {
    let kind = Kind::Gain { factor, shift: 0 };
    let mut bench = opened(rt, alloc, kind);
    let ports = Shape {
        inputs: 1,
        outputs: 1,
        period: 4,
    };
    bench.begin(&MOMENT, ports, 0);
    bench.hear_carried(0, 0, 0);
    bench
}

/// A bench with a guest that tells so much work. It hears nothing.
pub fn seated(rt: &impl Abort, alloc: Global, work: u32) -> Bench {
    let kind = Kind::Guest { guest: 0 };
    let mut bench = opened(rt, alloc, kind);
    let guest = hold(rt, alloc);
    bench.lend(Busy { guest, work });
    let ports = Shape {
        inputs: 1,
        outputs: 1,
        period: 4,
    };
    bench.begin(&MOMENT, ports, 0);
    bench
}

/// A wave, what is twice and three times as loud, and another bench.
pub fn with_last(rt: &impl Abort, alloc: Global, last: Bench) -> Vec<Bench>
    ensures count { length result.items ≡ 4 }
    ensures rooms { (has_room_at (bench_of result.items 0) 0 ≡ true) × (has_room_at (bench_of result.items 0) 1 ≡ true) }
{
    match Vec::with_capacity(alloc, 4) {
        Ok(mut benches) => {
            benches.push_reserved(wave(rt, alloc));
            benches.push_reserved(times(rt, alloc, 2));
            benches.push_reserved(times(rt, alloc, 3));
            benches.push_reserved(last);
            benches
        }
        Err(_) => panic!(rt; "four benches"),
    }
}

/// The first and the last sample that each bench gave in its last cycle.
pub fn given(benches: &[Bench]) -> [(Option<i32>, Option<i32>); 4] {
    let mut ends = [(None, None); 4];
    for (place, bench) in benches.iter().take(4).enumerate() {
        let samples = bench.output(0);
        ends[place] = (samples.first().copied(), samples.last().copied());
    }
    ends
}

/// Such samples of a wave.
pub fn ends(sample: i32) -> (Option<i32>, Option<i32>) {
    (Some(sample), Some(sample.wrapping_neg()))
}

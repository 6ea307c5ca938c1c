//! Cycles of four nodes, each by several seats or by one.
ghost use Rattle.std.specs.Prelude.{◌≡◌, ◌<◌, length, true};
ghost use Rattle.client_benches.specs.Seen.{has_room_at};
ghost use Rattle.bench_crew.specs.Ensembles.{bench_of};

use crate::benches::{Bench, Busy, ends, given, seated, times, with_last};
use crate::gates::{Handover, Meeting, Others};
use bench_crew::{Ensemble, Load};
use jack_host::Gate;
use jack_types::Link;
use std::alloc::Global;
use std::process::Abort;
use std::thread::Threads;

// Too little work for a thread, and enough for one for each seat.
const LIGHT: Load = Load {
    clients: 4,
    work: 0,
};

const HEAVY: Load = Load {
    clients: 4,
    work: u64::MAX,
};

// As much, and without node 3 all that waits for nothing is node 0.
const BEGUN_BY_ONE: Load = Load {
    clients: 3,
    work: u64::MAX,
};

// How many seats there are, whether they steal, the loads of two cycles, and whether other seats than the first have to take part,
// where that is known.
type Case = (u32, bool, Load, Load, Option<[bool; 2]>);

const CASES: [Case; 10] = [
    (4, false, HEAVY, HEAVY, Some([true, true])),
    (2, false, HEAVY, HEAVY, Some([true, true])),
    // Nodes 0 and 3 are both of the first seat's share.
    (3, false, HEAVY, HEAVY, Some([false, true])),
    (4, false, LIGHT, LIGHT, Some([false, false])),
    (4, false, HEAVY, LIGHT, Some([true, false])),
    (4, false, LIGHT, HEAVY, Some([false, true])),
    (4, false, BEGUN_BY_ONE, HEAVY, Some([false, true])),
    (4, true, LIGHT, LIGHT, Some([false, false])),
    // Which of them plays a client is not known.
    (4, true, HEAVY, HEAVY, None),
    (3, true, HEAVY, HEAVY, None),
];

// A crew of four nodes.
fn crew_of(rt: &impl Abort, alloc: Global, seats: u32, steals: bool) -> Ensemble<Busy>
    ensures { result.nodes ≡ 4 }
{
    assert!(rt; 0 < seats);
    assert!(rt; seats <= 16);
    match Ensemble::new(alloc, 4, seats, steals) {
        Ok(ensemble) => ensemble,
        Err(_) => panic!(rt; "a crew"),
    }
}

// Plays a cycle over links from node 0 to the two nodes.
fn play<T: Threads + Sync, K: Gate>(
    threads: &T,
    gate: &K,
    crew: &mut Ensemble<Busy>,
    benches: &mut [Bench],
    low: u32,
    high: u32,
    load: Load,
)
    requires nodes { (0 < low) × (low < high) × (high < 4) × (crew.old.nodes ≡ 4) × (length benches.old ≡ 4) }
    requires rooms { (has_room_at (bench_of benches.old 0) 0 ≡ true) × (has_room_at (bench_of benches.old 0) 1 ≡ true) }
    ensures nodes { (crew.new.nodes ≡ 4) × (length benches.new ≡ 4) }
    ensures rooms { (has_room_at (bench_of benches.new 0) 0 ≡ true) × (has_room_at (bench_of benches.new 0) 1 ≡ true) }
{
    let links = [Link { from: 0, to: low }, Link { from: 0, to: high }];
    crew.play(threads, gate, &links, load, benches);
}

// Two cycles: the wave goes to nodes 1 and 2, and then, over another plan, to nodes 2 and 3. The node that no link reaches is
// silent. Answers whether each was shared by other seats than the first.
fn plays_two_plans<R: Threads + Sync + AllocGlobal + Abort>(
    rt: &R,
    crew: &mut Ensemble<Busy>,
    first: Load,
    second: Load,
) -> [bool; 2]
    requires { crew.old.nodes ≡ 4 }
{
    let alloc = rt.alloc();
    let mut benches = with_last(rt, alloc, times(rt, alloc, 4));
    let before = Others::new();
    play(rt, &before, crew, benches.as_mut_slice(), 1, 2, first);
    assert!(rt; given(&benches) == [ends(1000), ends(2000), ends(3000), ends(0)]);
    let behind = Others::new();
    play(rt, &behind, crew, benches.as_mut_slice(), 2, 3, second);
    assert!(rt; given(&benches) == [ends(1000), ends(0), ends(3000), ends(4000)]);
    [before.took_part(), behind.took_part()]
}

#[test]
fn seats_share_cycles_that_are_worth_it(rt: HostRuntime) {
    for (seats, steals, first, second, shared) in CASES {
        let mut crew = crew_of(&rt, rt.alloc(), seats, steals);
        let found = plays_two_plans(&rt, &mut crew, first, second);
        assert!(rt; found == shared.unwrap_or(found));
    }
}

// Plays one cycle by four seats, the wave going to nodes 1 and 2.
fn play_once<R: Threads + Sync + AllocGlobal + Abort, K: Gate>(
    rt: &R,
    gate: &K,
    steals: bool,
    load: Load,
    last: Bench,
) {
    let alloc = rt.alloc();
    let mut crew = crew_of(rt, alloc, 4, steals);
    let mut benches = with_last(rt, alloc, last);
    play(rt, gate, &mut crew, benches.as_mut_slice(), 1, 2, load);
    assert!(rt; given(&benches) == [ends(1000), ends(2000), ends(3000), ends(0)]);
}

#[test]
fn a_guest_that_tells_much_work_is_worth_threads(rt: HostRuntime) {
    for (work, is_shared) in [(4, false), (1_000_000, true)] {
        let others = Others::new();
        let last = seated(&rt, rt.alloc(), work);
        play_once(&rt, &others, false, LIGHT, last);
        assert!(rt; others.took_part() == is_shared);
    }
}

// Nodes 0 and 3 are of two seats' shares: where one were played behind the other, the first would meet nobody.
#[test]
fn two_workers_play_at_once(rt: HostRuntime) {
    let meeting = Meeting::new();
    let last = times(&rt, rt.alloc(), 4);
    play_once(&rt, &meeting, false, HEAVY, last);
    assert!(rt; meeting.met() == 4);
}

// Nodes 1 and 2 are both taken by the seat that plays node 0, and each waits for the other: a seat must steal one.
#[test]
fn a_seat_steals_what_another_left(rt: HostRuntime) {
    let handover = Handover::new();
    let last = times(&rt, rt.alloc(), 4);
    play_once(&rt, &handover, true, HEAVY, last);
    assert!(rt; handover.met() == 2);
}

ghost use Rattle.std.specs.Prelude.{◌≡◌, ◌≤◌, [], IfOk, length};
ghost use Rattle.jack_types.specs.declared.kinds.Kind.TheVariants.{Pass};

use activation::Work;
use client_benches::{ClientBench, Room};
use client_kinds::Shape;
use guests::HoldGuest;
use jack_types::{Kind, Moment, TransportState};
use std::alloc::Global;
use std::process::Abort;
use std::test::Fail;

type Bench = ClientBench<HoldGuest>;

const MOMENT: Moment = Moment {
    cycle: 1,
    state: TransportState::Stopped,
    frame: 0,
    rate: 48_000,
    bbt: None,
};

/// One input of forty frames, where the two of `PORTS` lie in the next cycle.
const LONG: Shape = Shape {
    inputs: 1,
    outputs: 0,
    period: 40,
};

/// Two inputs of twenty frames, the second of which gets the parts.
const PORTS: Shape = Shape {
    inputs: 2,
    outputs: 0,
    period: 20,
};

/// A room with so many samples of this value.
fn room_of(alloc: Global, samples: u8, value: i32) -> Result<Room, Fail> {
    let part = vec![in alloc; value; usize::from(samples)]?;
    let mut room = Room::new(alloc).map_err(|_| "out of memory")?;
    room.fill(&part);
    Ok(room)
}

/// A bench that never played.
fn new_bench(alloc: Global) -> Result<Bench, Fail>
    ensures standing { IfOk result (λ bench. (bench.kept.standing.kind ≡ Pass) × (bench.kept.standing.period ≡ 40)) }
    ensures lists { IfOk result (λ bench. (bench.kept.wires ≡ []) × (bench.kept.routes ≡ [])) }
{
    ClientBench::new(alloc, Kind::Pass, 40).map_err(|_| Fail::from("out of memory"))
}

/// Lets these parts, each of so many samples of one value, go into the second input.
fn hear_parts(alloc: Global, bench: &mut Bench, parts: &[(u8, i32)]) -> Result<(), Fail>
    requires parts { length parts.now ≤ 9 }
    requires wires { bench.old.kept.wires ≡ [] }
    ensures standing { bench.new.kept.standing ≡ bench.old.kept.standing }
    ensures routes { bench.new.kept.routes ≡ bench.old.kept.routes }
    ensures wires { length bench.new.kept.wires ≤ 9 }
{
    for (samples, value) in parts {
        bench.hear_kept(1, room_of(alloc, *samples, *value)?);
    }
    Ok(())
}

/// Plays a cycle of these ports.
fn play(bench: &mut Bench, ports: Shape)
    requires kind { bench.old.kept.standing.kind ≡ Pass }
    requires routes { bench.old.kept.routes ≡ [] }
    requires ports { (ports.inputs ≤ 16) × (ports.outputs ≤ 16) }
    requires period { (ports.period ≤ bench.old.kept.standing.period) × (ports.period ≤ 4096) }
    ensures kind { bench.new.kept.standing.kind ≡ Pass }
    ensures routes { bench.new.kept.routes ≡ [] }
    ensures period { bench.new.kept.standing.period ≡ bench.old.kept.standing.period }
{
    bench.begin(&MOMENT, ports, 0);
    bench.play(&[]);
}

/// Mixes these parts, each of so many samples of one value, and looks for these runs of frames of one value.
/// In the cycle before, the first input's samples lay where these go.
fn mixes(
    rt: &impl Abort,
    alloc: Global,
    parts: &[(u8, i32)],
    heard: &[(usize, i32)],
) -> Result<(), Fail>
    requires { length parts.now ≤ 9 }
{
    let mut bench = new_bench(alloc)?;
    hear_parts(alloc, &mut bench, parts)?;
    bench.hear_kept(0, room_of(alloc, 40, 9)?);
    play(&mut bench, LONG);
    assert_eq!(rt; bench.sound(0).len(), 40);
    assert!(rt; bench.sound(0).iter().all(|x| *x == 9));
    play(&mut bench, PORTS);
    assert_eq!(rt; bench.sound(0).len(), 20);
    assert!(rt; bench.sound(0).iter().all(|x| *x == 9));
    let mut rest = bench.sound(1);
    for (frames, value) in heard {
        assert!(rt; *frames <= rest.len());
        assert!(rt; rest[..*frames].iter().all(|x| *x == *value));
        rest = &rest[*frames..];
    }
    assert!(rt; rest.is_empty());
    Ok(())
}

// The value of each part is a digit of its own, so that a sum shows which parts are in it, and how often.

#[test]
fn up_to_four_parts_are_mixed_alone(rt: HostRuntime) -> Result<(), Fail> {
    let alloc = rt.alloc();
    mixes(&rt, alloc, &[], &[(20, 0)])?;
    mixes(&rt, alloc, &[(7, 1)], &[(7, 1), (13, 0)])?;
    mixes(&rt, alloc, &[(20, 1), (3, 10)], &[(3, 11), (17, 1)])?;
    mixes(
        &rt,
        alloc,
        &[(20, 1), (30, 10), (3, 100)],
        &[(3, 111), (17, 11)],
    )?;
    mixes(
        &rt,
        alloc,
        &[(20, 1), (0, 10), (20, 100), (6, 1_000)],
        &[(6, 1_101), (14, 101)],
    )
}

#[test]
fn five_parts_are_added_and_settled(rt: HostRuntime) -> Result<(), Fail> {
    let alloc = rt.alloc();
    mixes(
        &rt,
        alloc,
        &[(20, 1), (20, 10), (20, 100), (20, 1_000), (20, 10_000)],
        &[(20, 11_111)],
    )?;
    mixes(
        &rt,
        alloc,
        &[(20, 1), (7, 10), (20, 100), (30, 1_000), (0, 10_000)],
        &[(7, 1_111), (13, 1_101)],
    )
}

#[test]
fn nine_parts_are_added_by_fours_and_one(rt: HostRuntime) -> Result<(), Fail> {
    mixes(
        &rt,
        rt.alloc(),
        &[
            (5, 1),
            (20, 10),
            (20, 100),
            (20, 1_000),
            (20, 10_000),
            (20, 100_000),
            (20, 1_000_000),
            (20, 10_000_000),
            (12, 100_000_000),
        ],
        &[(5, 111_111_111), (7, 111_111_110), (8, 11_111_110)],
    )
}

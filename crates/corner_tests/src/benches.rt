ghost use Rattle.std.specs.Prelude.{◌≡◌, ◌≤◌, ◌*◌, None, IfOk, length};
ghost use Rattle.client_kinds.specs.Standings.{HasGuest, IsPlayable};

use client_kinds::{Bench, Guest, Health, Shape};
use guests::HoldGuest;
use jack_types::{Kind, Moment, Score, TransportState};
use std::alloc::Global;
use std::process::Abort;
use std::test::Fail;

/// A guest that keeps the moment of its last cycle.
#[derive(Drop)]
struct Listener {
    guest: HoldGuest,
    told: Option<Moment>,
}

impl Guest for Listener {
    ghost use Rattle.guests.specs.Sounds.{sound_by};

    ghost score = { λ listener. listener.guest.score };

    ghost sound = { sound_by };

    ghost numbers = { λ listener. listener.guest.numbers };

    ghost told = { λ listener. listener.told };

    fn process(&mut self, moment: &Moment, ports: Shape, input: &[i32], output: &mut [i32]) -> i32 {
        self.told = Some(*moment);
        self.guest.process(moment, ports, input, output)
    }

    fn reset(&mut self) {
        self.told = None;
        self.guest.reset();
    }
}

type ListenerBench = Bench<Listener>;

/// A moment at which the transport stands.
fn stopped() -> Moment
    ensures rate { result.rate ≡ 8000 }
    ensures frame { result.frame ≡ 0 }
{
    Moment {
        cycle: 1,
        state: TransportState::Stopped,
        frame: 0,
        rate: 8000,
        bbt: None,
    }
}

/// How many buffers of four samples there are, at most 16.
fn buffers(rt: &impl Abort, samples: &[i32]) -> u16
    ensures few { result ≤ 16 }
    ensures size { length samples.now ≡ result * 4 }
{
    let count = samples.len() / 4;
    assert!(rt; count <= 16 && count * 4 == samples.len());
    count as u16
}

/// Plays a cycle of four frames, and compares what it plays.
fn plays(rt: &impl Abort, bench: &mut ListenerBench, input: &[i32], expected: &[i32])
    requires guest { HasGuest bench.old.kind bench.old.score }
    requires period { bench.old.period ≡ 4 }
    ensures kind { bench.new.kind ≡ bench.old.kind }
    ensures period { bench.new.period ≡ bench.old.period }
    ensures score { bench.new.score ≡ bench.old.score }
{
    let ports = Shape {
        inputs: buffers(rt, input),
        outputs: buffers(rt, expected),
        period: 4,
    };
    let mut room = [1; 64];
    let output = &mut room[..expected.len()];
    let health = bench.process(&stopped(), ports, input, output);
    assert_eq!(rt; health, Health::Alive);
    assert!(rt; *output == *expected);
}

/// A bench for cycles of four frames.
fn bench(alloc: Global, kind: Kind) -> Result<ListenerBench, Fail>
    requires { IsPlayable kind }
    ensures kind { IfOk result (λ bench. bench.kind ≡ kind) }
    ensures score { IfOk result (λ bench. bench.score ≡ None) }
    ensures period { IfOk result (λ bench. bench.period ≡ 4) }
{
    Bench::new(alloc, kind, 4).map_err(|_| Fail::from("out of memory"))
}

#[test]
fn a_guest_is_told_the_moment_of_its_cycle(rt: HostRuntime) -> Result<(), Fail> {
    let mut bench = bench(rt.alloc(), Kind::Guest { guest: 0 })?;
    bench.lend(Listener {
        guest: HoldGuest::new(rt.alloc(), Score::Hold).map_err(|_| "out of memory")?,
        told: None,
    });
    plays(&rt, &mut bench, &[1, 2, 3, 4], &[0, 0, 0, 0]);
    match bench.give_back() {
        Some(listener) => assert!(&rt; listener.told == Some(stopped())),
        None => panic!(&rt; "the guest that was lent"),
    }
    Ok(())
}

/// A kind that is silent on its audio outputs.
fn is_silent(rt: &impl Abort, alloc: Global, kind: Kind) -> Result<(), Fail>
    requires playable { IsPlayable kind }
    requires guest { HasGuest kind None }
{
    let mut bench = bench(alloc, kind)?;
    plays(rt, &mut bench, &[1, 2, 3, 4], &[0, 0, 0, 0, 0, 0, 0, 0]);
    assert_eq!(rt; bench.peak(), 0);
    Ok(())
}

#[test]
fn midi_clients_are_silent(rt: HostRuntime) -> Result<(), Fail> {
    is_silent(&rt, rt.alloc(), Kind::Midiplay { list: 0 })?;
    is_silent(&rt, rt.alloc(), Kind::Midithru)?;
    is_silent(&rt, rt.alloc(), Kind::Midilog)?;
    Ok(())
}

#[test]
fn a_block_that_is_fed_is_played_once(rt: HostRuntime) -> Result<(), Fail> {
    let mut disk = bench(rt.alloc(), Kind::Disk { disk: 0 })?;
    plays(&rt, &mut disk, &[], &[0, 0, 0, 0]);
    disk.feed(&[1, 10, 2, 20, 3, 30, 4, 40], 2);
    plays(
        &rt,
        &mut disk,
        &[],
        &[1, 2, 3, 4, 10, 20, 30, 40, 0, 0, 0, 0],
    );
    plays(&rt, &mut disk, &[], &[0, 0, 0, 0]);
    Ok(())
}

#[test]
fn a_shorter_cycle_plays_the_front_of_a_block(rt: HostRuntime) -> Result<(), Fail> {
    let mut disk = bench(rt.alloc(), Kind::Disk { disk: 0 })?;
    disk.feed(&[1, 10, 2, 20, 3, 30, 4, 40], 2);
    let ports = Shape {
        inputs: 0,
        outputs: 3,
        period: 2,
    };
    let mut output = [9; 6];
    disk.process(&stopped(), ports, &[], &mut output);
    assert!(rt; output == [1, 2, 10, 20, 0, 0]);
    plays(&rt, &mut disk, &[], &[0, 0, 0, 0]);
    Ok(())
}

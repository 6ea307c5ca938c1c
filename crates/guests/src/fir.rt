//! A guest that filters: the weighted sum of the last samples.

ghost use Rattle.std.specs.Prelude.{◌≡◌, ◌+◌, ◌-◌, ◌+ℤ◌, ◌*ℤ◌, ◌≤◌, ◌<◌, ◌++◌, length, map, take};
ghost use Rattle.guests.specs.Sounds.{filtered_at};
ghost use Rattle.session_model.specs.Samples.{below, sample, silence};
ghost use Rattle.jack_types.specs.Taps.{AreTaps, IsTap};
ghost use Rattle.guests.specs.Turns.{IsWithin, weighted};

use crate::hearing::{first_input, product, sample_at, shifted};
use client_kinds::{Guest, Shape, repeat_first};
use jack_types::{Memory, Moment, Score, Taps};
use std::alloc::Global;
use std::marker::Model;

/// Plays at each frame the weighted sum of that sample and those before it.
#[derive(Drop)]
pub struct FirGuest {
    taps: Taps,
    shift: u32,
    past: Vec<i32>,
}

impl Model for FirGuest {
    ghost use Rattle.std.specs.Prelude.{◌≡◌, ◌-◌, ◌≤◌, length};
    ghost use Rattle.jack_types.specs.declared.kinds.Score.TheVariants.{Fir};
    ghost use Rattle.client_kinds.specs.Seats.{Playing};
    ghost use Rattle.guests.specs.Sounds.{numbers_of};

    ghost Value = { Playing };

    ghost view = { λ guest. record { score = numbers_of (Fir guest.taps guest.shift); numbers = guest.past.items } };

    ghost invariant = { λ guest. (guest.shift ≤ 31) × (length guest.past.items ≡ length guest.taps - 1) };
}

impl FirGuest {
    ghost use Rattle.std.specs.Prelude.{◌≡◌, IfOk};
    ghost use Rattle.guests.specs.Guests.{IsFilter};
    ghost use Rattle.guests.specs.Sounds.{first_of, numbers_of};

    /// The guest of a score in its first memory.
    pub fn new(alloc: Global, score: Score) -> Result<FirGuest, Memory>
        requires { IsFilter score }
        ensures { IfOk result (λ guest. guest ≡ record { score = numbers_of score; numbers = first_of score }) }
    {
        match score {
            Score::Fir { taps, shift } => match vec![in alloc; 0; taps.as_slice().len() - 1] {
                Ok(past) => Ok(FirGuest { taps, shift, past }),
                Err(_) => Err(Memory),
            },
            _ => unreachable!(),
        }
    }
}

/// A sample of the past, or of the input behind it.
fn sample_behind(past: &[i32], x: &[i32], place: usize) -> i32
    ensures { result ≡ sample (past.now ++ x.now) place }
{
    if place < past.len() {
        past[place]
    } else {
        sample_at(x, place - past.len())
    }
}

/// A sample times a tap.
fn tapped(tap: i32, x: i32) -> i64
    requires { IsTap tap }
    ensures value { result ≡ tap *ℤ x }
    ensures within { IsWithin 70368744177664 result }
{
    product(tap, x)
}

/// A sample of the past, or of the input behind it, times its tap.
fn weighed(taps: &[i32], past: &[i32], x: &[i32], at: usize, i: usize) -> i64
    requires taps { AreTaps taps.now }
    requires tap { i < length taps.now }
    requires within { i ≤ at }
    ensures value { result ≡ sample taps.now i *ℤ sample (past.now ++ x.now) (at - i) }
    ensures within { IsWithin 70368744177664 result }
{
    tapped(taps[i], sample_behind(past, x, at - i))
}

/// A sum with one part more.
fn sum_of(sum: i64, part: i64) -> i64
    requires sum { IsWithin 2251799813685248 sum }
    requires part { IsWithin 70368744177664 part }
    ensures { result ≡ sum +ℤ part }
{
    sum + part
}

/// The weighted sum of a sample and those before it.
fn weighted_sum(taps: &[i32], past: &[i32], x: &[i32], at: usize) -> i64
    requires taps { AreTaps taps.now }
    requires within { length taps.now ≤ at + 1 }
    ensures { result ≡ weighted taps.now (past.now ++ x.now) at (length taps.now) }
{
    let mut sum = 0;
    for i in 0..taps.len() {
        sum = sum_of(sum, weighed(taps, past, x, at, i));
    }
    sum
}

/// What the filter plays at a frame.
fn filtered(taps: &[i32], shift: u32, past: &[i32], x: &[i32], frame: usize) -> i32
    requires taps { AreTaps taps.now }
    requires shift { shift ≤ 31 }
    requires frame { frame ≤ 4294967295 }
    ensures { result ≡ filtered_at taps.now shift (past.now ++ x.now) frame }
{
    samples::clamp64(shifted(weighted_sum(taps, past, x, frame + (taps.len() - 1)), shift))
}

/// Plays what the filter plays.
#[tactic(auto, using(crate::proofs::HearingLemmas::fill_more))]
fn filter_into(taps: &[i32], shift: u32, past: &[i32], x: &[i32], part: &mut [i32])
    requires taps { AreTaps taps.now }
    requires shift { shift ≤ 31 }
    requires frames { length part.old ≤ 4294967295 }
    ensures { part.new ≡ map (filtered_at taps.now shift (past.now ++ x.now)) (below (length part.old)) }
{
    for frame in 0..part.len() {
        part[frame] = filtered(taps, shift, past, x, frame);
    }
}

/// Plays what the filter plays on the first output, if there is one.
fn filter(taps: &[i32], shift: u32, past: &[i32], period: u32, x: &[i32], output: &mut [i32])
    requires taps { AreTaps taps.now }
    requires shift { shift ≤ 31 }
    ensures length { length output.new ≡ length output.old }
    ensures played { period ≤ length output.old → take period output.new ≡ map (filtered_at taps.now shift (past.now ++ x.now)) (below period) }
{
    let played = output.len().min(period as usize);
    filter_into(taps, shift, past, x, &mut output[..played]);
}

/// Keeps the last samples behind a period.
fn step_past(past: &mut [i32], period: usize, x: &[i32])
    requires { period ≤ 4294967295 }
    ensures { past.new ≡ map (λ j. sample (past.old ++ x.now) (j + period)) (below (length past.old)) }
{
    for j in 0..past.len() {
        past[j] = sample_behind(past, x, j + period);
    }
}

/// Silence.
fn fill_silence(past: &mut [i32])
    ensures { past.new ≡ silence (length past.old) }
{
    for i in 0..past.len() {
        past[i] = 0;
    }
}

impl Guest for FirGuest {
    ghost use Rattle.std.specs.Prelude.{None};
    ghost use Rattle.guests.specs.Sounds.{sound_by};

    ghost score = { λ guest. guest.score };

    ghost sound = { sound_by };

    ghost numbers = { λ guest. guest.numbers };

    ghost told = { λ _. None };

    fn process(
        &mut self,
        _moment: &Moment,
        ports: Shape,
        input: &[i32],
        output: &mut [i32],
    ) -> i32 {
        let x = first_input(ports, input);
        filter(
            self.taps.as_slice(),
            self.shift,
            &self.past,
            ports.period,
            x,
            output,
        );
        repeat_first(ports, output);
        step_past(&mut self.past, ports.period as usize, x);
        0
    }

    fn reset(&mut self) {
        fill_silence(&mut self.past);
    }
}

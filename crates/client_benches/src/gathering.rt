//! The parts of a mix, gathered eight at a time.

ghost use Rattle.std.specs.Prelude.{◌≡◌, ◌↔◌, ◌+◌, ◌<◌, ◌≤◌, ◌++◌, ◌∷◌, [], ℤ, List, All, IsTrue, length, map};
ghost use Rattle.client_kinds.specs.port_mixer.specs.Sums.{GainsParts, sums_of};

use crate::passes::{
    copy_part, mix_eight, mix_five, mix_four, mix_none, mix_seven, mix_six, mix_three, mix_two,
};
use client_kinds::port_mixer::Mixer;
use std::marker::Model;

/// The last parts of a mix, which are not in its sums yet: no more than eight.
///
/// A mix of no more than that is made of the parts themselves, in one pass over the frames; the parts of any other are
/// added to the sums of a mixer, four at a time. Contracts see them as a list, in the order of making.
#[derive(Drop)]
pub struct Few<'a> {
    parts: [&'a [i32]; 8],
    count: usize,
}

impl<'a> Model for Few<'a> {
    ghost use Rattle.std.specs.Prelude.{List, ℤ};

    ghost Value = { List (List ℤ) };

    ghost use Rattle.client_benches.specs.Few.{parts_in, IsWithin};

    ghost view = { parts_in };

    ghost invariant = { IsWithin };
}

/// Adds a part of any length: what it lacks is silence, and what lies behind the last frame is not heard.
///
/// `padded` is room for as many samples as there are sums; what it holds behind the call is not told.
fn add_part(mixer: &mut Mixer, padded: &mut [i32], part: &[i32])
    requires frames { length mixer.old.sums ≡ length padded.old }
    requires few { mixer.old.parts < 512 }
    ensures parts { (parts : List (List ℤ)) → mixer.old.sums ≡ sums_of (length padded.old) parts → mixer.new.sums ≡ sums_of (length padded.old) (parts ++ part.now ∷ []) }
    ensures count { mixer.new.parts ≡ mixer.old.parts + 1 }
    ensures sums { length mixer.new.sums ≡ length mixer.old.sums }
    ensures room { mixer.new.room ≡ mixer.old.room }
    ensures frames { length padded.new ≡ length padded.old }
{
    if part.len() == padded.len() {
        mixer.add(part);
    } else {
        copy_part(padded, part);
        mixer.add(padded);
    }
}

/// Whether each of four parts is of so many frames.
fn are_all_of(frames: usize, one: &[i32], two: &[i32], three: &[i32], four: &[i32]) -> bool
    ensures { IsTrue result ↔ All (λ part. length part ≡ frames) (one.now ∷ two.now ∷ three.now ∷ four.now ∷ []) }
{
    one.len() == frames && two.len() == frames && three.len() == frames && four.len() == frames
}

/// Adds parts to the sums, at once where they are four that fill all frames.
fn add_all(mixer: &mut Mixer, padded: &mut [i32], parts: &[&[i32]])
    requires frames { length mixer.old.sums ≡ length padded.old }
    requires few { mixer.old.parts + length parts.now ≤ 512 }
    ensures parts { GainsParts (length padded.old) mixer.old.sums mixer.new.sums (map (λ part. part.now) parts.now) }
    ensures count { mixer.new.parts ≡ mixer.old.parts + length parts.now }
    ensures sums { length mixer.new.sums ≡ length mixer.old.sums }
    ensures room { mixer.new.room ≡ mixer.old.room }
    ensures frames { length padded.new ≡ length padded.old }
{
    match parts {
        [one, two, three, four] if are_all_of(padded.len(), one, two, three, four) => {
            mixer.add_four(one, two, three, four);
        }
        parts => {
            for part in parts {
                add_part(mixer, padded, part);
            }
        }
    }
}

impl<'a> Few<'a> {
    ghost use Rattle.std.specs.Prelude.{◌≡◌, ◌↔◌, ◌+◌, ◌<◌, ◌≤◌, ◌++◌, ◌∷◌, [], ℤ, List, IsTrue, length, map};
    ghost use Rattle.activation.specs.session_model.specs.Samples.{mix};
    ghost use Rattle.client_kinds.specs.port_mixer.specs.Sums.{GainsParts};
    ghost use Rattle.client_benches.specs.Gathered.{AreGathered};

    /// No part.
    pub fn new() -> Few<'a>
        ensures { result ≡ [] }
    {
        Few {
            parts: [&[]; 8],
            count: 0,
        }
    }

    /// The parts themselves.
    fn parts(&self) -> &[&'a [i32]]
        ensures parts { map (λ part. part.now) result.now ≡ self.now }
        ensures few { length result.now ≤ 8 }
    {
        &self.parts[..self.count]
    }

    /// Whether there is no place for one more.
    fn is_full(&self) -> bool
        ensures { IsTrue result ↔ length self.now ≡ 8 }
    {
        self.count == 8
    }

    /// Puts one more behind them.
    fn push(&mut self, part: &'a [i32])
        requires { length self.old < 8 }
        ensures { self.new ≡ self.old ++ part.now ∷ [] }
    {
        self.parts[self.count] = part;
        self.count += 1;
    }

    /// Mixes them alone.
    fn mix(&self, out: &mut [i32])
        ensures { out.new ≡ mix (length out.old) self.now }
    {
        match self.parts() {
            [] => mix_none(out),
            [one] => copy_part(out, one),
            [one, two] => mix_two(out, one, two),
            [one, two, three] => mix_three(out, one, two, three),
            [one, two, three, four] => mix_four(out, one, two, three, four),
            [one, two, three, four, five] => mix_five(out, one, two, three, four, five),
            [one, two, three, four, five, six] => mix_six(out, one, two, three, four, five, six),
            [one, two, three, four, five, six, seven] => mix_seven(
                out, one, two, three, four, five, six, seven,
            ),
            [one, two, three, four, five, six, seven, eight] => mix_eight(
                out, one, two, three, four, five, six, seven, eight,
            ),
            _ => unreachable!(),
        }
    }

    /// Adds them to the sums, four at a time.
    fn add(&self, mixer: &mut Mixer, padded: &mut [i32])
        requires frames { length mixer.old.sums ≡ length padded.old }
        requires few { mixer.old.parts + length self.now ≤ 512 }
        ensures parts { GainsParts (length padded.old) mixer.old.sums mixer.new.sums self.now }
        ensures count { mixer.new.parts ≡ mixer.old.parts + length self.now }
        ensures sums { length mixer.new.sums ≡ length mixer.old.sums }
        ensures room { mixer.new.room ≡ mixer.old.room }
        ensures frames { length padded.new ≡ length padded.old }
    {
        let parts = self.parts();
        let half = parts.len().min(4);
        add_all(mixer, padded, &parts[..half]);
        add_all(mixer, padded, &parts[half..]);
    }

    /// Gathers one more part of any length. Where there are eight already, they are added to the sums.
    ///
    /// `padded` is room for as many samples as there are sums; what it holds behind the call is not told.
    pub fn gather(&mut self, mixer: &mut Mixer, padded: &mut [i32], part: &'a [i32])
        requires frames { length mixer.old.sums ≡ length padded.old }
        requires few { mixer.old.parts + length self.old ≤ 512 }
        ensures parts { (parts : List (List ℤ)) → AreGathered (length padded.old) mixer.old self.old parts → AreGathered (length padded.old) mixer.new self.new (parts ++ part.now ∷ []) }
        ensures count { mixer.new.parts + length self.new ≡ mixer.old.parts + length self.old + 1 }
        ensures sums { length mixer.new.sums ≡ length mixer.old.sums }
        ensures room { mixer.new.room ≡ mixer.old.room }
        ensures frames { length padded.new ≡ length padded.old }
    {
        if self.is_full() {
            self.add(mixer, padded);
            self.count = 0;
        }
        self.push(part);
    }

    /// Mixes all parts that were gathered since the mixer was cleared. Each sum is clamped once; what a part lacks is
    /// silence, and what lies behind the last frame is not heard.
    pub fn settle(&self, mixer: &mut Mixer, padded: &mut [i32], out: &mut [i32])
        requires frames { (length mixer.old.sums ≡ length out.old) × (length padded.old ≡ length out.old) }
        requires few { mixer.old.parts + length self.now ≤ 512 }
        ensures mixed { (parts : List (List ℤ)) → AreGathered (length out.old) mixer.old self.now parts → out.new ≡ mix (length out.old) parts }
        ensures room { mixer.new.room ≡ mixer.old.room }
        ensures frames { length padded.new ≡ length padded.old }
    {
        if mixer.parts() == 0 {
            self.mix(out);
        } else {
            self.add(mixer, padded);
            mixer.settle(out);
        }
    }
}

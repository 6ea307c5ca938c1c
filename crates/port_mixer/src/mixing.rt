//! The mixer.

ghost use Rattle.std.specs.Prelude.{◌≡◌, ℕ, ◌+◌, ◌<◌, ◌≤◌, ◌++◌, ◌∷◌, [], ℤ, List, All, IfOk, length, map, take};
ghost use Rattle.session_laws.specs.session_model.specs.Samples.{clamp, mix, sample, silence};
ghost use Rattle.port_mixer.specs.Sums.{AreSamples, AreSumsOf, GainsParts, added, sums_of, with_parts};
ghost use Rattle.samples.specs.Sums.{IsSmall};
ghost use Rattle.port_mixer.specs.Insides.{sums_in};

use crate::fours::take_four;
use session_laws::jack_types::Memory;
use std::alloc::Global;
use std::marker::Model;

/// Sums of parts, one for each frame. The first part is set, and not added to zeros.
///
/// Contracts see a `Mix`: the room in frames, the sums, and how many parts are in them.
#[derive(Drop)]
pub struct Mixer {
    sums: Vec<i64>,
    frames: usize,
    parts: u32,
}

impl Model for Mixer {
    ghost use Rattle.port_mixer.specs.Sums.{Mix};

    ghost Value = { Mix };

    ghost use Rattle.port_mixer.specs.Insides.{mix_in, IsWithin};

    ghost view = { mix_in };

    ghost invariant = { IsWithin };
}

/// Sees that each sample is a number of 32 bits. Nothing else is done, and nothing is left of it in
/// the program.
pub fn see_samples(part: &[i32])
    ensures { AreSamples part.now }
{
    for sample in part {
        let _seen = *sample;
    }
}

/// Makes the first sums those of a part alone.
fn set_first(sums: &mut [i64], frames: usize, part: &[i32])
    requires within { frames ≤ length sums.old }
    requires frames { length part.now ≡ frames }
    ensures set { take frames sums.new ≡ part.now }
    ensures bound { AreSumsOf 1 (take frames sums.new) }
{
    see_samples(part);
    samples::set_to(&mut sums[..frames], part);
}

/// Adds a part to the first sums.
fn add_to_first(sums: &mut [i64], frames: usize, part: &[i32])
    requires within { frames ≤ length sums.old }
    requires frames { length part.now ≡ frames }
    requires small { (k : ℕ) → IsSmall (sample (take frames sums.old) k) }
    ensures added { take frames sums.new ≡ added (take frames sums.old) part.now }
    ensures bound { (n : ℕ) → AreSumsOf n (take frames sums.old) → AreSumsOf (n + 1) (take frames sums.new) }
{
    see_samples(part);
    samples::add_into(&mut sums[..frames], part);
}

/// Takes a part into the first sums, in which there are so many parts.
fn take_part(sums: &mut [i64], parts: u32, frames: usize, part: &[i32])
    requires within { frames ≤ length sums.old }
    requires frames { length part.now ≡ frames }
    requires few { parts < 512 }
    requires sums { AreSumsOf parts (sums_in parts frames sums.old) }
    ensures added { take frames sums.new ≡ added (sums_in parts frames sums.old) part.now }
    ensures bound { AreSumsOf (parts + 1) (take frames sums.new) }
{
    if parts == 0 {
        set_first(sums, frames, part);
    } else {
        add_to_first(sums, frames, part);
    }
}

/// Clamps the first sums, in which there are so many parts.
fn settle_first(sums: &[i64], parts: u32, frames: usize, out: &mut [i32])
    requires within { frames ≤ length sums.now }
    requires frames { length out.old ≡ frames }
    ensures { out.new ≡ map clamp (sums_in parts frames sums.now) }
{
    if parts == 0 {
        out.fill(0);
    } else {
        samples::settle(&sums[..frames], out);
    }
}

impl Mixer {
    /// A mixer with room for so many sums. It has no sum.
    pub fn new(alloc: Global, frames: u32) -> Result<Mixer, Memory>
        ensures { IfOk result (λ mixer. mixer ≡ record { room = frames; sums = []; parts = 0 }) }
    {
        match vec![in alloc; 0; frames as usize] {
            Ok(sums) => Ok(Mixer {
                sums,
                frames: 0,
                parts: 0,
            }),
            Err(_) => Err(Memory),
        }
    }

    /// Begins so many sums, with no part in them.
    pub fn clear(&mut self, frames: u32)
        requires { frames ≤ self.old.room }
        ensures silence { self.new ≡ record self.old { sums = silence frames; parts = 0 } }
        ensures parts { self.new.sums ≡ sums_of frames [] }
    {
        self.frames = frames as usize;
        self.parts = 0;
    }

    /// Adds a part, a sample to each sum.
    pub fn add(&mut self, part: &[i32])
        requires frames { length part.now ≡ length self.old.sums }
        requires few { self.old.parts < 512 }
        ensures added { self.new ≡ record self.old { sums = added self.old.sums part.now; parts = self.old.parts + 1 } }
        ensures parts { (parts : List (List ℤ)) → self.old.sums ≡ sums_of (length part.now) parts → self.new.sums ≡ sums_of (length part.now) (parts ++ part.now ∷ []) }
    {
        take_part(&mut self.sums, self.parts, self.frames, part);
        self.parts += 1;
    }

    /// Adds four parts at once, a sample of each to each sum.
    pub fn add_four(&mut self, one: &[i32], two: &[i32], three: &[i32], four: &[i32])
        requires frames { All (λ part. length part ≡ length self.old.sums) (one.now ∷ two.now ∷ three.now ∷ four.now ∷ []) }
        requires few { self.old.parts + 4 ≤ 512 }
        ensures added { self.new ≡ with_parts self.old (one.now ∷ two.now ∷ three.now ∷ four.now ∷ []) }
        ensures parts { GainsParts (length one.now) self.old.sums self.new.sums (one.now ∷ two.now ∷ three.now ∷ four.now ∷ []) }
    {
        take_four(
            &mut self.sums,
            self.parts,
            self.frames,
            one,
            two,
            three,
            four,
        );
        self.parts += 4;
    }

    /// How many parts are in the sums.
    pub fn parts(&self) -> u32
        ensures { result ≡ self.now.parts }
    {
        self.parts
    }

    /// Clamps each sum once.
    #[tactic(auto, using(crate::proofs::SumLemmas::clamped_sums))]
    pub fn settle(&self, out: &mut [i32])
        requires { length out.old ≡ length self.now.sums }
        ensures clamped { out.new ≡ map clamp self.now.sums }
        ensures mixed { (parts : List (List ℤ)) → self.now.sums ≡ sums_of (length out.old) parts → out.new ≡ mix (length out.old) parts }
    {
        settle_first(&self.sums, self.parts, self.frames, out);
    }
}

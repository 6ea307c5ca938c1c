//! A tempo.

ghost use Rattle.std.specs.Prelude.{◌≡◌, ◌↔◌, ◌≤◌, IfSome, IsSome};
ghost use Rattle.session_model.specs.Grammar.{IsTempo};
ghost use Rattle.session_model.specs.Tempo.{bbt};

use session_model::jack_types::Bbt;

/// The numbers of a timebase master: thousandths of a beat a minute, beats a bar and ticks a beat.
#[derive(Clone, Copy, PartialEq, Eq, Debug)]
pub struct Tempo {
    pub mbpm: u32,
    pub beats: u32,
    pub ticks: u32,
    pub ghost lawful: { IsTempo mbpm beats ticks },
}

impl Tempo {
    /// The tempo of these numbers: 1,000 to 999,999, 1 to 32 and 1 to 9,600.
    pub fn new(mbpm: u32, beats: u32, ticks: u32) -> Option<Tempo>
        ensures exact { IsSome result ↔ IsTempo mbpm beats ticks }
        ensures mbpm { IfSome result (λ tempo. tempo.mbpm ≡ mbpm) }
        ensures beats { IfSome result (λ tempo. tempo.beats ≡ beats) }
        ensures ticks { IfSome result (λ tempo. tempo.ticks ≡ ticks) }
    {
        if mbpm < 1_000 || mbpm > 999_999 {
            return None;
        }
        if beats < 1 || beats > 32 {
            return None;
        }
        if ticks < 1 || ticks > 9_600 {
            return None;
        }
        Some(Tempo { mbpm, beats, ticks })
    }

    /// Where a frame stands, at so many frames a second. Bars and beats count from 1, ticks from 0.
    pub fn bbt(&self, frame: u32, rate: u32) -> Bbt
        requires { 8000 ≤ rate }
        ensures { result ≡ bbt self.now.mbpm self.now.beats self.now.ticks frame rate }
    {
        let product = u128::from(frame) * u128::from(self.mbpm) * u128::from(self.ticks);
        let all_ticks = product / (60_000 * u128::from(rate));
        let all_beats = all_ticks / u128::from(self.ticks);
        Bbt {
            bar: (all_beats / u128::from(self.beats) + 1) as u32,
            beat: (all_beats % u128::from(self.beats) + 1) as u32,
            tick: (all_ticks % u128::from(self.ticks)) as u32,
            mbpm: self.mbpm,
            beats: self.beats,
            ticks: self.ticks,
        }
    }
}

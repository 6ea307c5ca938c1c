//! A cycle on the stage.

use crate::performing::perform;
use crate::stage::{Stage, note};
use crate::turning::{set_period, turn_to};
use client_kinds::Guest;
use cycle_plan::Plan;
use device_periods::Capture;
use disk_feeds::DiskFeeds;
use jack_host::{Gate, Source};
use jack_types::Moment;
use stage_laws::owning::kinds_alone_count;
use stage_laws::stages::a_stage_stands_behind_its_cycle;
use std::thread::Threads;

impl<G: Guest + Send> Stage<G> {
    ghost use Rattle.std.specs.Prelude.{◌≡◌, ◌<◌, ◌≤◌, ◌+◌, ◌^◌, false, length, true};
    ghost use Rattle.std.specs.List.Sorted.{IsPermutation};
    ghost use Rattle.graph_word.specs.Publications.{IsFront};
    ghost use Rattle.client_seats.specs.Moves.{kinds_of};
    ghost use Rattle.stage_laws.specs.Performances.{PerformsPlan};
    ghost use Rattle.stage_laws.specs.Standing.{StandsOn};
    ghost use Rattle.client_stage.specs.Resting.{Rests};

    /// Plays a cycle of a plan, whose changes go on from those of the plan that was played last. Answers whether each of its
    /// clients has a bench; where one can have none, nobody plays, and no bench gives anything.
    ///
    /// What captured channels give is that of the period read last, and a player of a disk gives the block that its ring gave
    /// last. It takes no memory. With one seat no thread is started.
    pub fn play<S: Source, T: Threads + Sync, K: Gate>(
        &mut self,
        threads: &T,
        gate: &K,
        plan: &Plan,
        moment: &Moment,
        period: u32,
        capture: &Capture<S>,
        disks: &DiskFeeds,
    ) -> bool
        requires base { plan.now.base ≡ self.old.plan.base }
        requires front { IsFront self.old.plan.changes plan.now.changes }
        requires period { period ≤ self.old.staged.room }
        requires rate { 8000 ≤ moment.now.rate }
        requires frames { moment.now.frame + period < 2 ^ 32 }
        requires periods { 0 < length disks.now.disks → disks.now.period ≡ self.old.staged.room }
        ensures answer { result ≡ self.new.staged.is_staffed }
        ensures plan { self.new.plan ≡ plan.now }
        ensures period { self.new.staged.period ≡ period }
        ensures stands { StandsOn self.new.staged self.new.plan }
        ensures performs { self.old.staged.is_staffed ≡ true → result ≡ true → PerformsPlan G.sound self.old.staged self.old.plan plan.now moment.now period capture.now.channels disks.now self.new.staged }
        ensures rests { result ≡ false → Rests G.sound plan.now self.old.staged self.new.staged }
        ensures kinds { IsPermutation (kinds_of self.old.staged.racked) (kinds_of self.new.staged.racked) }
        ensures scores { self.new.staged.owned.scores ≡ self.old.staged.owned.scores }
        ensures room { self.new.staged.room ≡ self.old.staged.room }
    {
        a_stage_stands_behind_its_cycle();
        kinds_alone_count();
        let number = plan.number();
        let crew = self.ensemble.nodes() as usize;
        turn_to(&mut self.parts, crew, plan, moment, period);
        set_period(&mut self.parts, period);
        self.parts.number = number;
        self.plan = note(plan);
        if !self.parts.is_staffed {
            return false;
        }
        perform(
            threads,
            gate,
            &mut self.parts.rack,
            &mut self.ensemble,
            plan,
            &self.parts.wiring,
            &self.parts.last,
            capture,
            &self.silence[..period as usize],
            disks,
        );
        true
    }
}

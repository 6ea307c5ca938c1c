//! The law that a cast is one of the stage's.

ghost use Rattle.std.specs.Prelude.{◌≡◌, [], ℕ, length, map};
ghost use Rattle.jack_types.specs.declared.moments.Moment.{Moment as MomentValue};
ghost use Rattle.session_model.specs.Kinds.{Sound};
ghost use Rattle.client_kinds.specs.Scores.{Score};
ghost use Rattle.cycle_plan.specs.Plans.{Planned};
ghost use Rattle.client_tasks.specs.Fillings.{last_place};
ghost use Rattle.client_wiring.specs.Wirings.{wired_of};
ghost use Rattle.client_seats.specs.Seatings.{HavePeriod, IsSeating, standing_at};
ghost use Rattle.stage_laws.specs.Casts.{Casts};
ghost use Rattle.stage_laws.specs.Stages.{Staged};
ghost use Rattle.client_stage.specs.Casting.{HasCast};

/// Where a stage has the plan's wiring, and the places at which its kept outputs stood, a cast of its clients is one
/// of the stage's: so the laws of `stage_laws` apply.
pub fn a_cast_is_the_stages()
    ensures { (sounding : Score → Sound) (old new : Staged) (last plan : Planned) (moment : MomentValue) (period : ℕ) → HasCast sounding old.racked old.owned new.racked new.owned plan moment period → IsSeating new.racked new.owned → HavePeriod new.racked new.room → ((p : ℕ) → (standing_at new.racked p).memory.fed ≡ [])
        → new.wiring ≡ wired_of plan → new.last ≡ map (last_place (wired_of last).given) new.wiring.joints
        → new.owned.scores ≡ old.owned.scores → new.crew ≡ old.crew → new.room ≡ old.room → new.period ≡ old.period → length new.racked.benches ≡ length old.racked.benches → new.racked.links ≡ old.racked.links
        → Casts sounding old last plan moment period new }
{}

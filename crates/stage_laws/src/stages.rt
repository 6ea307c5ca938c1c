//! Laws of a stage in one cycle: what its benches play, and how it stands behind the cycle.

ghost use Rattle.std.specs.Prelude.{◌≡◌, ◌≤◌, ℕ, ℤ, [], List, None, Option, length};
ghost use Rattle.jack_types.specs.declared.moments.Moment.{Moment as MomentValue};
ghost use Rattle.session_model.specs.Kinds.{Sound};
ghost use Rattle.client_kinds.specs.Scores.{Score};
ghost use Rattle.port_registry.specs.Registered.{open_clients};
ghost use Rattle.cycle_plan.specs.Plans.{IsPlanned, Planned};
ghost use Rattle.driver_words.specs.Feeding.{Fed};
ghost use Rattle.client_wiring.specs.Wirings.{wired_of};
ghost use Rattle.bench_rack.specs.Racks.{Racked, bench_at};
ghost use Rattle.client_tasks.specs.Tasks.{HasRooms};
ghost use Rattle.client_seats.specs.Moves.{kinds_of};
ghost use Rattle.client_seats.specs.Seatings.{HavePeriod, IsSeating, standing_at};
ghost use Rattle.stage_feeds.specs.Feeding.{Feeds};
ghost use Rattle.stage_laws.specs.Casts.{Casts, Fills, GoesOnIn, Performs};
ghost use Rattle.stage_laws.specs.Stages.{IsStaffed, Staged};

/// In a later cycle of the same plan, or of another one of its content, the clients are cast as they stand, once they are told
/// the moment and the period.
pub fn a_stage_goes_on_with_its_plan()
    ensures { (sounding : Score → Sound) (last plan : Planned) (old new : Staged) (moment : MomentValue) (period : ℕ) → IsPlanned last → IsPlanned plan → plan.base ≡ last.base → plan.changes ≡ last.changes
        → old.wiring ≡ wired_of last → IsSeating old.racked old.owned → HavePeriod old.racked old.room → ((p : ℕ) → (standing_at old.racked p).memory.fed ≡ [])
        → ((p : ℕ) → length last.nodes ≤ p → (bench_at old.racked p).kept.turn ≡ None)
        → IsStaffed old last → GoesOnIn old last moment period new → (Casts sounding) old last plan moment period new }
{}

/// Behind that cycle the benches are a seating yet, of the same kinds and periods, no block is left to be played, and each
/// bench of the plan is its client's and set for the cycle, with as many outputs as its client.
pub fn a_stage_stands_behind_its_cycle()
    ensures seating { (sounding : Score → Sound) (old : Staged) (last plan : Planned) (moment : MomentValue) (period : ℕ) (channels : List (List ℤ)) (cast : Staged) (places : List (Option ℕ)) (filled : Racked) (disks : Fed) (fed : Racked) (crew : ℕ) (played : Racked)
        → (Casts sounding) old last plan moment period cast → Fills cast plan moment period channels places filled → Feeds plan disks filled fed → (Performs sounding) fed plan crew played → IsSeating played cast.owned }
    ensures unfed { (sounding : Score → Sound) (old : Staged) (last plan : Planned) (moment : MomentValue) (period : ℕ) (channels : List (List ℤ)) (cast : Staged) (places : List (Option ℕ)) (filled : Racked) (disks : Fed) (fed : Racked) (crew : ℕ) (played : Racked)
        → (Casts sounding) old last plan moment period cast → Fills cast plan moment period channels places filled → Feeds plan disks filled fed → (Performs sounding) fed plan crew played → (p : ℕ) → (standing_at played p).memory.fed ≡ [] }
    ensures idle { (sounding : Score → Sound) (old : Staged) (last plan : Planned) (moment : MomentValue) (period : ℕ) (channels : List (List ℤ)) (cast : Staged) (places : List (Option ℕ)) (filled : Racked) (disks : Fed) (fed : Racked) (crew : ℕ) (played : Racked)
        → (Casts sounding) old last plan moment period cast → Fills cast plan moment period channels places filled → Feeds plan disks filled fed → (Performs sounding) fed plan crew played → (p : ℕ) → length plan.nodes ≤ p → (bench_at played p).kept.turn ≡ None }
    ensures kinds { (sounding : Score → Sound) (old : Staged) (last plan : Planned) (moment : MomentValue) (period : ℕ) (channels : List (List ℤ)) (cast : Staged) (places : List (Option ℕ)) (filled : Racked) (disks : Fed) (fed : Racked) (crew : ℕ) (played : Racked)
        → (Casts sounding) old last plan moment period cast → Fills cast plan moment period channels places filled → Feeds plan disks filled fed → (Performs sounding) fed plan crew played → kinds_of played ≡ kinds_of cast.racked }
    ensures periods { (sounding : Score → Sound) (old : Staged) (last plan : Planned) (moment : MomentValue) (period : ℕ) (channels : List (List ℤ)) (cast : Staged) (places : List (Option ℕ)) (filled : Racked) (disks : Fed) (fed : Racked) (crew : ℕ) (played : Racked)
        → (Casts sounding) old last plan moment period cast → Fills cast plan moment period channels places filled → Feeds plan disks filled fed → (Performs sounding) fed plan crew played → HavePeriod played cast.room }
    ensures staffed { (sounding : Score → Sound) (old : Staged) (last plan : Planned) (moment : MomentValue) (period : ℕ) (channels : List (List ℤ)) (cast : Staged) (places : List (Option ℕ)) (filled : Racked) (disks : Fed) (fed : Racked) (crew : ℕ) (played : Racked)
        → (Casts sounding) old last plan moment period cast → Fills cast plan moment period channels places filled → Feeds plan disks filled fed → (Performs sounding) fed plan crew played
        → HasRooms plan.links played → (new : Staged) → new.racked ≡ played → new.owned ≡ cast.owned → new.wiring ≡ wired_of plan → new.period ≡ period → open_clients new.nodes ≡ open_clients plan.nodes → IsStaffed new plan }
{}

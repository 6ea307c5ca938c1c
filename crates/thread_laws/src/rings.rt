//! What the cycles of a segment leave of a recorder's ring and of its overruns.

ghost use Rattle.std.specs.Prelude.{◌≡◌, ◌+◌, ◌++◌, ◌<◌, ◌≤◌, ℕ, All, Bool, IsSome, List, Some, slice_get};
ghost use Rattle.jack_types.specs.declared.replies.Overrun.{Overrun as OverrunValue};
ghost use Rattle.session_model.specs.Courses.{Course};
ghost use Rattle.session_model.specs.Explanations.{Given};
ghost use Rattle.session_model.specs.Recorders.{IsAfterSegment};
ghost use Rattle.driver_words.specs.Rings.{Sending};
ghost use Rattle.driver_laws.specs.Cycling.{CyclesMany};
ghost use Rattle.driver_laws.specs.Drivers.{Driver, overruns_on, run};
ghost use Rattle.driver_laws.specs.Keeping.{kept_blocks};
ghost use Rattle.driver_laws.specs.Segments.{cycles_before};
ghost use Rattle.run_laws.specs.Runs.{AtPhase};
ghost use Rattle.run_laws.specs.Sessions.{Session};
ghost use Rattle.serial_laws.specs.Steps.{IsSettled};
ghost use Rattle.thread_laws.specs.Rests.{LooksOn, RingsAtRest};
ghost use Rattle.thread_laws.specs.Segments.{ThreadSegment};

/// Overruns of later cycles change nothing of the blocks that were kept before them, nor of whether an earlier overrun came
/// behind what was kept when its segment began.
pub fn later_overruns_change_nothing()
    ensures blocks { (course : Course) (recorder : ℕ) (losses more : List OverrunValue) (n : ℕ) → All (λ (overrun : OverrunValue). n < overrun.cycle) more
        → kept_blocks course (losses ++ more) recorder n ≡ kept_blocks course losses recorder n }
    ensures overruns { (course : Course) (recorder n : ℕ) (losses more : List OverrunValue) → All (λ (overrun : OverrunValue). (1 ≤ overrun.cycle) × (overrun.cycle ≤ n)) losses
        → All (λ (overrun : OverrunValue). n < overrun.cycle) more → All (IsAfterSegment course losses recorder) losses → All (IsAfterSegment course (losses ++ more) recorder) losses }
{}

/// Each overrun that is new behind many cycles came in one of them, and its look was not below what the producer knew before.
pub fn cycles_look_no_lower()
    ensures { (n : ℕ) (driver after : Driver) (recorder : ℕ) (ring ring_after : Sending) → CyclesMany n driver after → slice_get driver.rings recorder ≡ Some ring → slice_get after.rings recorder ≡ Some ring_after
        → LooksOn (run driver) (run after) ring ring_after (overruns_on driver.overruns recorder) (overruns_on after.overruns recorder) }
{}

/// Behind a phase of threads mode each ring is at rest again.
pub fn rings_come_to_rest()
    ensures { (given : Given) (session after : Session) (done many : ℕ) (freewheel : Bool) → IsSome session.script.header.threads → IsSettled session → AtPhase session given done
        → run session.driver + many ≤ cycles_before session.script (done + 1) → ThreadSegment done many freewheel session after → RingsAtRest given after }
{}

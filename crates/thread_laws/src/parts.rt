//! What a phase of threads mode leaves of a session's parts, whatever was taken and played.

ghost use Rattle.std.specs.Prelude.{◌≡◌, ◌+◌, ℕ, Bool, Some, slice_get};
ghost use Rattle.session_model.specs.Explanations.{Given};
ghost use Rattle.session_model.specs.Scripts.{Phase, phases};
ghost use Rattle.driver_laws.specs.Drivers.{run};
ghost use Rattle.driver_laws.specs.Segments.{cycles_before};
ghost use Rattle.run_laws.specs.Runs.{HasFiles};
ghost use Rattle.run_laws.specs.Sessions.{Session};
ghost use Rattle.serial_laws.specs.Steps.{IsSettled, IsSound, KeepsOwn};
ghost use Rattle.thread_laws.specs.Parts.{IsSoundBut};
ghost use Rattle.thread_laws.specs.Rests.{AreNext};
ghost use Rattle.thread_laws.specs.Segments.{Renewed, RingsEnded, Served, ThreadSegment};

/// Rings that get an end, recorders that serve until it, and a meeting that takes it away leave the parts as they were; each
/// file then has the samples of all blocks got.
pub fn ends_leave_the_parts()
    ensures ended { (session after : Session) → IsSoundBut session → RingsEnded session after → IsSoundBut after }
    ensures served { (session after : Session) → IsSoundBut session → Served session after → IsSoundBut after }
    ensures files { (session after : Session) → IsSoundBut session → Served session after → HasFiles after }
    ensures renewed { (session after : Session) → IsSoundBut session → Renewed session after → IsSound after }
{}

/// So does a whole phase, and it keeps what was kept of what was given. The cycles that come next behind the earlier phases
/// are of the phase's kind.
pub fn a_phase_leaves_the_parts()
    ensures next { (session : Session) (done : ℕ) (phase : Phase) → slice_get (phases session.script) done ≡ Some phase → run session.driver ≡ cycles_before session.script done
        → AreNext phase.cycles phase.is_freewheel session }
    ensures settled { (session after : Session) (done many : ℕ) (freewheel : Bool) → IsSettled session → AreNext many freewheel session
        → ThreadSegment done many freewheel session after → IsSettled after }
    ensures kept { (given : Given) (session after : Session) (done many : ℕ) (freewheel : Bool) → IsSettled session → AreNext many freewheel session
        → ThreadSegment done many freewheel session after → KeepsOwn given session → KeepsOwn given after }
{}

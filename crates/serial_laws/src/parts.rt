//! What a session's steps leave of its parts, whatever was taken and played.

ghost use Rattle.std.specs.Prelude.{◌≡◌, ◌+◌, ◌<◌, ℕ, Bool, length, true};
ghost use Rattle.session_model.specs.Explanations.{Given};
ghost use Rattle.session_model.specs.Scripts.{turns};
ghost use Rattle.run_laws.specs.driver_laws.specs.Cycling.{MayCycle};
ghost use Rattle.run_laws.specs.driver_laws.specs.Drivers.{run, turn_of};
ghost use Rattle.run_laws.specs.Sessions.{Session};
ghost use Rattle.disk_runs.specs.Readings.{DisksRead, DisksTold};
ghost use Rattle.disk_runs.specs.Rests.{AreFilled, DisksTell};
ghost use Rattle.serial_laws.specs.Steps.{AreEmpty, Begun, Cycled, GiveUp, IsSettled, IsSound, KeepsOwn, Met, Rounded, Turned};

use run_laws::driver_laws::courses::{a_meeting_changes_nothing, what_fits_behind_fits_before};

/// Blocks that leave the recorders' rings leave the parts as they were, and rings that gave up as many as they may have are
/// empty.
pub fn blocks_leave_the_parts()
    ensures sound { (most : ℕ) (session after : Session) → IsSound session → GiveUp most session after → IsSound after }
    ensures empty { (session after : Session) → IsSound session → GiveUp session.script.header.ring session after → AreEmpty after }
    ensures tells { (most : ℕ) (session after : Session) → GiveUp most session after → DisksTell session → DisksTell after }
{}

/// So do readings of the disks, and meetings of the ends of their rings. Behind each both ends know how far the other is, and
/// behind readings of as many blocks as a ring holds the rings are filled.
pub fn disks_leave_the_parts()
    ensures read { (most : ℕ) (session after : Session) → IsSound session → DisksRead most session after → IsSound after }
    ensures told { (session after : Session) → IsSound session → DisksTold session after → IsSound after }
    ensures tells { (session after : Session) → DisksTold session after → DisksTell after }
    ensures empty { (most : ℕ) (session after : Session) → DisksRead most session after → AreEmpty session → AreEmpty after }
    ensures filled { (session after : Session) → IsSettled session → DisksRead session.script.header.ring session after → AreFilled after }
{}

/// So does a cycle of the driver, where before a freewheel cycle the recorders' rings are empty, and those of the disks filled.
pub fn the_driver_leaves_the_parts()
    ensures { (session after : Session) → IsSound session → run session.driver < length (turns session.script)
        → ((turn_of session.script (run session.driver + 1)).is_freewheel ≡ true → AreEmpty session × AreFilled session) → Cycled session after → IsSound after }
{}

/// So do a meeting, a round of the lanes, and the front of a phase.
pub fn desks_leave_the_parts()
    ensures met { (session after : Session) → IsSound session → Met session after → IsSound after }
    ensures rounded { (session after : Session) → IsSound session → Rounded session after → IsSound after }
    ensures begun { (done : ℕ) (session after : Session) → IsSound session → Begun done session after → IsSound after }
    ensures met_tells { (session after : Session) → Met session after → DisksTell session → DisksTell after }
    ensures rounded_tells { (session after : Session) → Rounded session after → DisksTell session → DisksTell after }
    ensures begun_tells { (done : ℕ) (session after : Session) → Begun done session after → DisksTell session → DisksTell after }
{}

/// The next cycle may be run, where its period is set.
pub fn the_next_cycle_may_be_run()
    ensures { (session : Session) (freewheel : Bool) → IsSound session → run session.driver < length (turns session.script)
        → (turn_of session.script (run session.driver + 1)).is_freewheel ≡ freewheel → (turn_of session.script (run session.driver + 1)).period ≡ session.driver.set → MayCycle session.driver freewheel }
{}

/// What was kept of what was given is kept by each step.
pub fn steps_keep_what_was_given()
    ensures blocks { (given : Given) (most : ℕ) (session after : Session) → IsSound session → GiveUp most session after → KeepsOwn given session → KeepsOwn given after }
    ensures read { (given : Given) (most : ℕ) (session after : Session) → IsSound session → DisksRead most session after → KeepsOwn given session → KeepsOwn given after }
    ensures cycled { (given : Given) (session after : Session) → Cycled session after → KeepsOwn given session → KeepsOwn given after }
    ensures told { (given : Given) (session after : Session) → IsSound session → DisksTold session after → KeepsOwn given session → KeepsOwn given after }
    ensures met { (given : Given) (session after : Session) → Met session after → KeepsOwn given session → KeepsOwn given after }
    ensures rounded { (given : Given) (session after : Session) → Rounded session after → KeepsOwn given session → KeepsOwn given after }
    ensures begun { (given : Given) (done : ℕ) (session after : Session) → Begun done session after → KeepsOwn given session → KeepsOwn given after }
{
    a_meeting_changes_nothing();
    what_fits_behind_fits_before();
}

/// A whole cycle of serial mode leaves the parts as they were, and keeps what was kept.
pub fn a_turn_leaves_the_parts()
    ensures settled { (freewheel : Bool) (session after : Session) → IsSettled session → run session.driver < length (turns session.script)
        → (turn_of session.script (run session.driver + 1)).is_freewheel ≡ freewheel → Turned freewheel session after → IsSettled after }
    ensures kept { (given : Given) (freewheel : Bool) (session after : Session) → IsSettled session → run session.driver < length (turns session.script)
        → (turn_of session.script (run session.driver + 1)).is_freewheel ≡ freewheel → Turned freewheel session after → KeepsOwn given session → KeepsOwn given after }
{
    a_meeting_changes_nothing();
    what_fits_behind_fits_before();
}

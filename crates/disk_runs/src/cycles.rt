//! Laws of what a cycle of the driver leaves of the disks, and of steps that leave them alone.

ghost use Rattle.std.specs.Prelude.{◌≡◌, ◌+◌, ◌<◌, ℕ, All, Some, false, length, slice_get, true};
ghost use Rattle.jack_types.specs.declared.replies.Underrun.{Underrun as UnderrunValue};
ghost use Rattle.session_model.specs.Explanations.{Given};
ghost use Rattle.driver_words.specs.Rings.{Getting, IsPair};
ghost use Rattle.disk_player.specs.Playing.{Playing};
ghost use Rattle.driver_laws.specs.Cycling.{StepsOnce};
ghost use Rattle.driver_laws.specs.Drivers.{Driver, run, turn_of};
ghost use Rattle.run_laws.specs.Runs.{MissesInRun, PlaysAll};
ghost use Rattle.run_laws.specs.Sessions.{IsOne, Session};
ghost use Rattle.run_laws.specs.SerialRuns.{DisksSerial};
ghost use Rattle.disk_runs.specs.Readings.{NoneFailed};
ghost use Rattle.disk_runs.specs.Rests.{AreFilled, DisksHaveRoom, DisksTell};

/// A cycle leaves each player's ring the same one, and its underruns are of the script's disks.
pub fn a_cycle_leaves_the_disks()
    ensures pairs { (session : Session) (after : Driver) → IsOne session → StepsOnce session.driver after
        → (disk : ℕ) (player : Playing) (got : Getting) → slice_get session.players disk ≡ Some player → slice_get after.disks disk ≡ Some got → IsPair player.sending got }
    ensures own { (session : Session) (after : Driver) → IsOne session → StepsOnce session.driver after
        → All (λ (underrun : UnderrunValue). underrun.disk < length session.script.header.disks) after.underruns }
{}

/// Underruns come in `run` cycles alone, where the rings are filled before a freewheel cycle.
pub fn underruns_come_in_run_cycles()
    ensures { (session : Session) (after : Driver) → IsOne session → MissesInRun session → StepsOnce session.driver after
        → ((turn_of session.script (run session.driver + 1)).is_freewheel ≡ true → AreFilled session)
        → All (λ (underrun : UnderrunValue). (turn_of session.script underrun.cycle).is_freewheel ≡ false) after.underruns }
{}

/// What rests on players, on the ends that get, and on what was counted stays where these do.
pub fn what_is_left_alone_stays()
    ensures room { (session after : Session) → after.script ≡ session.script → after.players ≡ session.players → DisksHaveRoom session → DisksHaveRoom after }
    ensures going { (session after : Session) → after.players ≡ session.players → NoneFailed session → NoneFailed after }
    ensures plays { (session after : Session) (given : Given) → after.players ≡ session.players → PlaysAll given session → PlaysAll given after }
    ensures tell { (session after : Session) → after.players ≡ session.players → after.driver.disks ≡ session.driver.disks → DisksTell session → DisksTell after }
    ensures filled { (session after : Session) → after.script ≡ session.script → after.driver.disks ≡ session.driver.disks → AreFilled session → AreFilled after }
    ensures serial { (session after : Session) (given : Given) → after.players ≡ session.players → after.driver.disks ≡ session.driver.disks → after.driver.numbers ≡ session.driver.numbers
        → after.driver.underruns ≡ session.driver.underruns → DisksSerial given session → DisksSerial given after }
{}

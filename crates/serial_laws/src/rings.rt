//! What a session's recorders and disks have in serial mode.

ghost use Rattle.std.specs.Prelude.{◌≡◌, ◌+◌, ◌<◌, ℕ, Bool, Some, length, slice_get};
ghost use Rattle.session_model.specs.Explanations.{Given};
ghost use Rattle.session_model.specs.Scripts.{turns};
ghost use Rattle.run_laws.specs.driver_laws.specs.Drivers.{run, turn_of};
ghost use Rattle.driver_words.specs.Rings.{Getting, Sending};
ghost use Rattle.run_laws.specs.Runs.{PlaysAll};
ghost use Rattle.run_laws.specs.SerialRuns.{DisksSerial, RingSerial};
ghost use Rattle.run_laws.specs.Sessions.{IsFor, Session};
ghost use Rattle.serial_laws.specs.Steps.{AreExact, Begun, IsSettled, Turned};

use disk_runs::serial::{a_cycle_of_the_disks_is_counted, the_serial_course_fits};
use run_laws::driver_laws::courses::a_meeting_changes_nothing;
use run_laws::driver_laws::cycling::graph_is_of_the_row;
use run_laws::serial::{
    drains_are_counted, puts_are_counted, recorders_are_active_as_in_serial_mode,
};

/// A cycle counts what was read and got of the disks, and what was missed, as the definition does; the players go on with their
/// files.
pub fn a_turn_counts_the_disks()
    ensures counted { (given : Given) (freewheel : Bool) (session after : Session) → IsSettled session → run session.driver < length (turns session.script)
        → (turn_of session.script (run session.driver + 1)).is_freewheel ≡ freewheel → Turned freewheel session after → AreExact after → IsFor session given
        → DisksSerial given session → DisksSerial given after }
    ensures plays { (given : Given) (freewheel : Bool) (session after : Session) → IsSettled session → run session.driver < length (turns session.script)
        → (turn_of session.script (run session.driver + 1)).is_freewheel ≡ freewheel → Turned freewheel session after → PlaysAll given session → PlaysAll given after }
{
    a_cycle_of_the_disks_is_counted();
}

/// A cycle counts blocks and overruns as the definition does: where desk and driver meet behind it, each look of a producer
/// was exact.
pub fn a_turn_counts_the_blocks()
    ensures { (given : Given) (freewheel : Bool) (session after : Session) → IsSettled session → run session.driver < length (turns session.script)
        → (turn_of session.script (run session.driver + 1)).is_freewheel ≡ freewheel → Turned freewheel session after → AreExact after → IsFor session given
        → DisksSerial given session
        → ((recorder : ℕ) (ring : Sending) (got : Getting) → slice_get session.driver.rings recorder ≡ Some ring → slice_get session.getting recorder ≡ Some got → RingSerial session recorder ring got)
        → (recorder : ℕ) (ring : Sending) (got : Getting) → slice_get after.driver.rings recorder ≡ Some ring → slice_get after.getting recorder ≡ Some got → RingSerial after recorder ring got }
{
    a_cycle_of_the_disks_is_counted();
    a_meeting_changes_nothing();
    graph_is_of_the_row();
    drains_are_counted();
    puts_are_counted();
    recorders_are_active_as_in_serial_mode();
    the_serial_course_fits();
}

/// The front of a phase moves no block.
pub fn a_phase_begins_with_the_blocks()
    ensures { (session after : Session) (done : ℕ) → Begun done session after
        → ((recorder : ℕ) (ring : Sending) (got : Getting) → slice_get session.driver.rings recorder ≡ Some ring → slice_get session.getting recorder ≡ Some got → RingSerial session recorder ring got)
        → (recorder : ℕ) (ring : Sending) (got : Getting) → slice_get after.driver.rings recorder ≡ Some ring → slice_get after.getting recorder ≡ Some got → RingSerial after recorder ring got }
{}

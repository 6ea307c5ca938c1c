//! Laws of serial mode: its disks' turns and underruns are the stated ones.

ghost use Rattle.std.specs.Prelude.{◌≡◌, ◌<◌, ℕ, length};
ghost use Rattle.session_model.specs.Disks.{IsSerial};
ghost use Rattle.session_model.specs.Explanations.{Given, course_of};
ghost use Rattle.session_model.specs.Scripts.{turns};
ghost use Rattle.session_model.specs.Serial.{serial, serial_printed, serial_underruns};
ghost use Rattle.driver_laws.specs.Drivers.{run};
ghost use Rattle.driver_laws.specs.Keeping.{Fits};
ghost use Rattle.run_laws.specs.Sessions.{IsFor, IsGiven, IsOne, Session, course_in, printed_of};
ghost use Rattle.run_laws.specs.Told.{IsNew};
ghost use Rattle.run_laws.specs.SerialRuns.{DisksSerial};
ghost use Rattle.disk_runs.specs.Counts.{IsSerialSoFar, TurnsDisks};
ghost use Rattle.disk_runs.specs.Rests.{DisksFresh};

use control_desk::laws::accepted_of_legal;
use driver_laws::cycling::graph_is_of_the_row;
use run_laws::runs::new_players_play_their_files;
use session_laws::serial::serial_meaning_is_legal;

/// Before the first cycle nothing is put, got or missed.
pub fn new_disks_are_counted()
    ensures { (session : Session) (given : Given) → IsNew session → IsGiven session given → DisksFresh session → DisksSerial given session }
{
    new_players_play_their_files();
}

/// A cycle, what the readers read before it, and the meeting behind it count as the stated turn, where the driver took what
/// serial mode takes.
pub fn a_cycle_of_the_disks_is_counted()
    ensures { (given : Given) (session after : Session) → IsOne session → IsFor session given → TurnsDisks given session after → IsSerialSoFar given after.driver
        → DisksSerial given session → DisksSerial given after }
{
    accepted_of_legal();
    graph_is_of_the_row();
    serial_meaning_is_legal();
}

/// So the course of serial mode fits.
pub fn the_serial_course_fits()
    ensures { (given : Given) (session : Session) → IsOne session → IsFor session given → IsSerialSoFar given session.driver → DisksSerial given session
        → Fits session.driver (course_of given (serial_printed given)) }
{
    accepted_of_legal();
    serial_meaning_is_legal();
}

/// Behind all cycles the underruns of the session's own course are those of the stated turns, and so are those that its report
/// prints.
pub fn underruns_are_the_stated()
    ensures serial { (given : Given) (session : Session) → IsOne session → IsFor session given → session.desk.history ≡ (serial session.script).history → session.driver.numbers ≡ (serial session.script).numbers
        → run session.driver ≡ length (turns session.script) → DisksSerial given session → (disk : ℕ) → disk < length session.script.header.disks → IsSerial (course_in given session) disk }
    ensures printed { (given : Given) (session : Session) → IsOne session → IsFor session given → run session.driver ≡ length (turns session.script) → DisksSerial given session
        → (printed_of session).underruns ≡ serial_underruns given }
{}

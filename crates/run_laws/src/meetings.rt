//! Laws of a session whose desk and driver met.

ghost use Rattle.std.specs.Prelude.{◌≡◌, ℕ, Some, slice_get};
ghost use Rattle.session_model.specs.Explanations.{Given};
ghost use Rattle.session_model.specs.Histories.{KeepsAsked};
ghost use Rattle.graph_word.specs.Publications.{HaveMet};
ghost use Rattle.driver_words.specs.Rings.{Getting, Sending};
ghost use Rattle.serial_lanes.specs.control_desk.specs.Desks.{Desk, IsDesk};
ghost use Rattle.driver_laws.specs.Drivers.{Driver, HasOwnRows};
ghost use Rattle.driver_laws.specs.Keeping.{Fits, FitsDisk};
ghost use Rattle.run_laws.specs.Runs.{DiskAtRest};
ghost use Rattle.run_laws.specs.Sessions.{IsFor, IsOne, Session, course_in};

use serial_lanes::control_desk::laws::accepted_of_legal;

/// A call that waited for a cycle stands behind what that cycle took.
pub fn asked_cycles_took_less()
    ensures { (desk : Desk) (driver : Driver) → IsDesk desk → HasOwnRows driver → HaveMet desk.publishing driver.reading → KeepsAsked desk.script desk.history driver.numbers }
{}

/// The course of the session's own lists fits its driver, where its disks' files do.
pub fn own_course_fits()
    ensures { (session : Session) (given : Given) → IsOne session → IsFor session given → HaveMet session.desk.publishing session.driver.reading
        → ((disk : ℕ) (got : Getting) → slice_get session.driver.disks disk ≡ Some got → FitsDisk (course_in given session) disk got)
        → Fits session.driver (course_in given session) }
{
    accepted_of_legal();
}

/// Between its turns, what was got from a disk's ring is a front of the disk's file.
pub fn disks_at_rest_fit()
    ensures { (session : Session) (given : Given) (disk : ℕ) (ring : Sending) (got : Getting) → DiskAtRest given disk ring got → FitsDisk (course_in given session) disk got }
{}

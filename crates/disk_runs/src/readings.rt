//! Laws of what the readers of the disks read, and of what both ends of a ring know behind it.

ghost use Rattle.std.specs.Prelude.{◌≡◌, ℕ, Some, slice_get};
ghost use Rattle.session_model.specs.Courses.{Course};
ghost use Rattle.session_model.specs.Explanations.{Given};
ghost use Rattle.graph_word.specs.Publications.{HaveMet};
ghost use Rattle.driver_words.specs.Rings.{Getting};
ghost use Rattle.driver_laws.specs.Cycling.{HasMetOthers};
ghost use Rattle.driver_laws.specs.Keeping.{Fits, FitsDisk};
ghost use Rattle.run_laws.specs.Runs.{DisksAtRest, HasFiles, MissesInRun, PlaysAll};
ghost use Rattle.run_laws.specs.Sessions.{IsFor, IsMet, IsOne, IsOver, KeepsAny, Session, course_in};
ghost use Rattle.run_laws.specs.Told.{IsNew};
ghost use Rattle.disk_runs.specs.Readings.{DisksBroke, DisksRead, DisksServed, DisksTold, NoneFailed};
ghost use Rattle.disk_runs.specs.Rests.{AreFilled, DisksFilled, DisksFresh, DisksHaveRoom, DisksTell, PutsAll};

use driver_laws::courses::a_meeting_changes_nothing;
use run_laws::meetings::own_course_fits;
use run_laws::runs::players_put_their_files;

/// What holds of a session whose readers tried to read, be it that one failed, holds where all read on, and where the ends of
/// the rings met.
pub fn readings_are_tries()
    ensures read { (most : ℕ) (session after : Session) → DisksRead most session after → DisksBroke most session after }
    ensures told { (most : ℕ) (session after : Session) → DisksTold session after → DisksBroke most session after }
{}

/// Readers that tried to read leave the parts as they were.
pub fn readings_leave_the_parts()
    ensures one { (most : ℕ) (session after : Session) → IsOne session → DisksBroke most session after → IsOne after }
    ensures files { (most : ℕ) (session after : Session) → DisksBroke most session after → HasFiles session → HasFiles after }
    ensures misses { (most : ℕ) (session after : Session) → DisksBroke most session after → MissesInRun session → MissesInRun after }
    ensures room { (most : ℕ) (session after : Session) → IsOne session → DisksBroke most session after → DisksHaveRoom session → DisksHaveRoom after }
    ensures met { (most : ℕ) (session after : Session) → DisksBroke most session after → IsMet session → IsMet after }
    ensures others { (most : ℕ) (session after : Session) → IsOne session → DisksBroke most session after → HasMetOthers session.driver after.driver }
{}

/// They keep what was kept of what was given.
pub fn readings_keep_what_was_given()
    ensures own { (most : ℕ) (session after : Session) (given : Given) → DisksBroke most session after → IsFor session given → IsFor after given }
    ensures keeps { (most : ℕ) (session after : Session) (given : Given) → IsOne session → DisksBroke most session after → KeepsAny given session.driver → KeepsAny given after.driver }
{
    a_meeting_changes_nothing();
}

/// So do readers in threads of their own, which leave the driver alone.
pub fn readers_leave_the_parts()
    ensures one { (session after : Session) → IsOne session → DisksServed session after → IsOne after }
    ensures files { (session after : Session) → DisksServed session after → HasFiles session → HasFiles after }
    ensures misses { (session after : Session) → DisksServed session after → MissesInRun session → MissesInRun after }
    ensures room { (session after : Session) → DisksServed session after → DisksHaveRoom session → DisksHaveRoom after }
    ensures met { (session after : Session) → DisksServed session after → IsMet session → IsMet after }
    ensures own { (session after : Session) (given : Given) → DisksServed session after → IsFor session given → IsFor after given }
    ensures driver { (session after : Session) → DisksServed session after → after.driver ≡ session.driver }
{}

/// Players go on with their files where no read failed.
pub fn players_go_on()
    ensures read { (most : ℕ) (session after : Session) (given : Given) → IsOne session → DisksRead most session after → PlaysAll given session → PlaysAll given after }
    ensures told { (session after : Session) (given : Given) → IsOne session → DisksTold session after → PlaysAll given session → PlaysAll given after }
    ensures served { (session after : Session) (given : Given) → DisksServed session after → NoneFailed after → PlaysAll given session → PlaysAll given after }
{}

/// What was put are the first blocks of the files, also where a read failed.
pub fn what_was_put_is_of_the_files()
    ensures plays { (session : Session) (given : Given) → PlaysAll given session → PutsAll given session }
    ensures broke { (most : ℕ) (session after : Session) (given : Given) → IsOne session → DisksBroke most session after → PlaysAll given session → PutsAll given after }
    ensures served { (session after : Session) (given : Given) → DisksServed session after → PlaysAll given session → PutsAll given after }
    ensures told { (session after : Session) (given : Given) → IsOne session → DisksTold session after → PutsAll given session → PutsAll given after }
{
    players_put_their_files();
}

/// Behind each meeting both ends of each ring know how far the other is; so the rings are at rest, where the players go on with
/// their files.
pub fn ends_that_met_tell()
    ensures broke { (most : ℕ) (session after : Session) → DisksBroke most session after → DisksTell after }
    ensures rest { (session : Session) (given : Given) → PlaysAll given session → DisksTell session → DisksAtRest given session }
{
    players_put_their_files();
}

/// What was got fits the files, where both ends met since blocks were put; so does the course of the session's own lists.
pub fn what_was_got_fits()
    ensures disks { (session : Session) (given : Given) (course : Course) → IsOne session → PutsAll given session → DisksTell session → IsOver given course
        → (disk : ℕ) (got : Getting) → slice_get session.driver.disks disk ≡ Some got → FitsDisk course disk got }
    ensures own { (session : Session) (given : Given) → IsOne session → IsFor session given → HaveMet session.desk.publishing session.driver.reading → PutsAll given session → DisksTell session
        → Fits session.driver (course_in given session) }
{
    own_course_fits();
}

/// Readers that may put as many blocks as a ring holds fill the rings.
pub fn long_readings_fill_the_rings()
    ensures filled { (session after : Session) → IsOne session → DisksRead session.script.header.ring session after → DisksHaveRoom session → DisksTell session → AreFilled after }
    ensures goes_on { (session after : Session) (given : Given) → IsOne session → DisksRead session.script.header.ring session after → DisksHaveRoom session → DisksTell session → PlaysAll given session
        → DisksFilled given after }
{}

/// Where the readers read on no read failed, and none fails in a meeting.
pub fn no_reading_failed()
    ensures read { (most : ℕ) (session after : Session) → IsOne session → DisksRead most session after → NoneFailed after }
    ensures told { (session after : Session) → IsOne session → DisksTold session after → NoneFailed session → NoneFailed after }
{}

/// The rings of a new session have room, their ends tell that nothing was put, and no read failed.
pub fn new_rings_tell()
    ensures room { (session : Session) → IsNew session → DisksHaveRoom session }
    ensures tell { (session : Session) → IsNew session → DisksFresh session → DisksTell session }
    ensures going { (session : Session) → IsNew session → NoneFailed session }
{}

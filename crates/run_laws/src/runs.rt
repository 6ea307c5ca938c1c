//! Laws of a session between its opening and the end of its run.

ghost use Rattle.std.specs.Prelude.{◌≡◌, ◌<◌, ◌≤◌, ℕ, All, IsNone, Some, length, slice_get};
ghost use Rattle.session_model.specs.Disks.{IsSerial, Played};
ghost use Rattle.session_model.specs.Explanations.{Given};
ghost use Rattle.session_model.specs.Recorders.{Lost};
ghost use Rattle.session_model.specs.Scripts.{phases};
ghost use Rattle.disk_player.specs.Playing.{Playing};
ghost use Rattle.driver_laws.specs.Drivers.{overruns_on};
ghost use Rattle.run_laws.specs.Runs.{AtPhase, PlaysAll, PutsFile, RanPhases};
ghost use Rattle.run_laws.specs.Sessions.{IsGiven, IsMet, IsOne, KeepsAny, Session, course_in};
ghost use Rattle.run_laws.specs.Told.{HasLists, IsNew};

use disk_player::a_player_has_put_blocks_of_its_file;
use driver_laws::courses::a_new_driver_keeps;
use serial_lanes::control_desk::laws::made_where_done;
use serial_lanes::laws::cycles_of_phases;

/// A new session keeps every course over what its sources tell.
pub fn a_new_session_keeps()
    ensures { (session : Session) (given : Given) → IsNew session → IsGiven session given → KeepsAny given session.driver }
{
    a_new_driver_keeps();
}

/// The players of a new session go on with the files that its sources tell.
pub fn new_players_play_their_files()
    ensures { (session : Session) (given : Given) → IsNew session → IsGiven session given → PlaysAll given session }
{}

/// What a player has put is a front of its disk's file, and all of it where the end stands.
pub fn players_put_their_files()
    ensures { (session : Session) (given : Given) → PlaysAll given session → (disk : ℕ) (player : Playing) → slice_get session.players disk ≡ Some player
        → PutsFile given disk player.sending }
{
    a_player_has_put_blocks_of_its_file();
}

/// Behind all phases the history is legal, and the numbers are within their bounds.
pub fn lists_are_lawful()
    ensures { (session : Session) → RanPhases session (length (phases session.script)) → HasLists session }
{
    made_where_done();
    cycles_of_phases();
}

/// What a cycle took is published, and no later take answers less.
pub fn numbers_are_published()
    ensures { (session : Session) → IsOne session → IsMet session → All (λ number. number ≤ session.driver.reading.least) session.driver.numbers }
{}

/// Behind all phases the overruns and the underruns are ones that can be; in serial mode the latter have to be those of the
/// stated turns.
pub fn misses_can_be()
    ensures overruns { (session : Session) (given : Given) → AtPhase session given (length (phases session.script))
        → (recorder : ℕ) → recorder < length session.script.header.recorders → Lost (course_in given session) (overruns_on session.driver.overruns recorder) recorder }
    ensures underruns { (session : Session) (given : Given) → AtPhase session given (length (phases session.script))
        → (disk : ℕ) → disk < length session.script.header.disks → (IsNone session.script.header.threads → IsSerial (course_in given session) disk) → Played (course_in given session) disk }
{
    cycles_of_phases();
}

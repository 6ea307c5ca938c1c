//! Where a serial session is before its first phase, and behind its last.

ghost use Rattle.std.specs.Prelude.{◌≡◌, [], IsNone, length};
ghost use Rattle.session_model.specs.Explanations.{Given};
ghost use Rattle.session_model.specs.Scripts.{phases};
ghost use Rattle.run_laws.specs.driver_laws.specs.Keeping.{HasTape};
ghost use Rattle.run_laws.specs.Runs.{HasFiles};
ghost use Rattle.run_laws.specs.SerialRuns.{SerialBehind, SerialKept};
ghost use Rattle.run_laws.specs.Sessions.{IsGiven, Session};
ghost use Rattle.run_laws.specs.Told.{IsNew, Runs};
ghost use Rattle.serial_laws.specs.Openings.{AreFresh, bare};
ghost use Rattle.serial_laws.specs.Steps.{IsSettled};

use disk_runs::readings::ends_that_met_tell;
use disk_runs::serial::{new_disks_are_counted, underruns_are_the_stated};
use run_laws::runs::{
    a_new_session_keeps, lists_are_lawful, misses_can_be, new_players_play_their_files,
};
use run_laws::serial::{all_phases_end, serial_run_is_kept};
use run_laws::serial_lanes::laws::{cycles_of_phases, desk_by_phases};

/// A new session whose files are begun, and whose rings' ends know of no block, stands before its first phase. Where its
/// playback has no samples yet, it keeps every course over what its sources tell.
pub fn a_session_stands_before_its_first_phase()
    ensures settled { (session : Session) → IsNew (bare session) → AreFresh session → HasFiles session → IsSettled session }
    ensures behind { (session : Session) → IsNew (bare session) → IsNone session.script.header.threads → HasFiles session → SerialBehind session 0 }
    ensures kept { (session : Session) (given : Given) → IsNew (bare session) → IsNone session.script.header.threads → HasFiles session
        → HasTape session.driver.playback [] → AreFresh session → IsGiven session given → SerialKept given session }
{
    a_new_session_keeps();
    desk_by_phases();
    new_disks_are_counted();
    new_players_play_their_files();
}

/// Behind its last phase its lists, its overruns, its underruns and all that was kept are those of serial mode.
pub fn a_serial_run_is_whole()
    ensures { (before after : Session) → IsNone before.script.header.threads → after.script ≡ before.script → IsSettled after → SerialBehind after (length (phases after.script))
        → ((given : Given) → IsGiven before given → SerialKept given after) → Runs before after }
{
    all_phases_end();
    cycles_of_phases();
    ends_that_met_tell();
    lists_are_lawful();
    misses_can_be();
    serial_run_is_kept();
    underruns_are_the_stated();
}

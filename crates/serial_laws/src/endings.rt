//! What stands behind the end of a serial session.

ghost use Rattle.std.specs.Prelude.{◌≡◌, length};
ghost use Rattle.session_model.specs.Explanations.{Given};
ghost use Rattle.session_model.specs.Scripts.{phases};
ghost use Rattle.run_laws.specs.Runs.{AtPhase, RanPhases};
ghost use Rattle.run_laws.specs.Sessions.{Session};
ghost use Rattle.run_laws.specs.Told.{Ends};
ghost use Rattle.serial_laws.specs.Endings.{EndsAll};
ghost use Rattle.serial_laws.specs.Steps.{IsSound};

use run_laws::driver_laws::courses::a_meeting_changes_nothing;
use run_laws::driver_laws::endings::{all_is_played_back, blocks_kept_are_recorded};
use run_laws::serial_lanes::laws::cycles_of_phases;

/// Each ring emptied and each file finished, the files are those of the one computation over the session's lists.
pub fn an_end_is_whole()
    ensures ends { (given : Given) (session after : Session) → IsSound session → AtPhase session given (length (phases session.script)) → EndsAll session after → Ends given session after }
    ensures ran { (session after : Session) → IsSound session → RanPhases session (length (phases session.script)) → EndsAll session after → RanPhases after (length (phases session.script)) }
{
    a_meeting_changes_nothing();
    all_is_played_back();
    blocks_kept_are_recorded();
    cycles_of_phases();
}

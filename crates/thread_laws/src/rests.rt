//! Where a session of threads mode stands before its first phase, behind each, and behind the last.

ghost use Rattle.std.specs.Prelude.{◌≡◌, ℕ, IsSome, Some, [], length, slice_get, suc};
ghost use Rattle.session_model.specs.Explanations.{Given};
ghost use Rattle.session_model.specs.Scripts.{Phase, phases};
ghost use Rattle.driver_laws.specs.Keeping.{HasTape};
ghost use Rattle.run_laws.specs.Runs.{AtPhase, HasFiles, RanPhases};
ghost use Rattle.run_laws.specs.Sessions.{IsGiven, Session};
ghost use Rattle.run_laws.specs.Told.{IsNew, Runs};
ghost use Rattle.serial_laws.specs.Openings.{AreFresh, bare};
ghost use Rattle.serial_laws.specs.Steps.{IsSettled};
ghost use Rattle.thread_laws.specs.Segments.{ThreadSegment};

use crate::phases::a_phase_was_run;
use disk_runs::readings::ends_that_met_tell;
use disk_runs::segments::a_segment_misses_behind_its_rings;
use run_laws::runs::{
    a_new_session_keeps, lists_are_lawful, misses_can_be, new_players_play_their_files,
};
use serial_laws::control_desk::laws::accepted_of_legal;
use serial_laws::serial_lanes::laws::desk_by_phases;

/// A new session whose files are begun stands before its first phase.
pub fn a_new_session_is_at_rest()
    ensures ran { (session : Session) → IsNew (bare session) → RanPhases session 0 }
    ensures at { (session : Session) (given : Given) → IsNew (bare session) → HasFiles session → HasTape session.driver.playback [] → AreFresh session
        → IsGiven session given → AtPhase session given 0 }
{
    a_new_session_keeps();
    accepted_of_legal();
    desk_by_phases();
    ends_that_met_tell();
    new_players_play_their_files();
}

/// Behind a phase one phase more was run and the parts are settled, and what stood between two segments does so again, in
/// whatever schedule.
pub fn a_phase_is_behind()
    ensures ran { (session after : Session) (done : ℕ) (phase : Phase) → IsSettled session → slice_get (phases session.script) done ≡ Some phase → RanPhases session done
        → ThreadSegment done phase.cycles phase.is_freewheel session after → IsSettled after × RanPhases after (suc done) }
    ensures at { (given : Given) (session after : Session) (done : ℕ) (phase : Phase) → IsSome session.script.header.threads → IsSettled session → slice_get (phases session.script) done ≡ Some phase
        → AtPhase session given done → ThreadSegment done phase.cycles phase.is_freewheel session after → AtPhase after given (suc done) }
{
    accepted_of_legal();
    a_phase_was_run();
    a_segment_misses_behind_its_rings();
    ends_that_met_tell();
}

/// Behind its last phase its lists are lawful, and its overruns and underruns ones that can be.
pub fn a_run_with_threads_is_whole()
    ensures { (before after : Session) → IsSome before.script.header.threads → after.script ≡ before.script → RanPhases after (length (phases after.script))
        → ((given : Given) → IsGiven before given → AtPhase after given (length (phases after.script))) → Runs before after }
{
    lists_are_lawful();
    misses_can_be();
}

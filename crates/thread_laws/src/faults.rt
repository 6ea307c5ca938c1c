//! What stands behind a phase in threads mode that failed.

ghost use Rattle.std.specs.Prelude.{ℕ, Bool, IsSome};
ghost use Rattle.session_model.specs.Explanations.{Given};
ghost use Rattle.run_laws.specs.Runs.{AtPhase};
ghost use Rattle.run_laws.specs.Sessions.{Session};
ghost use Rattle.run_laws.specs.Told.{StandsSoFar};
ghost use Rattle.serial_laws.specs.Faults.{told};
ghost use Rattle.thread_laws.specs.Coming.{ComeBehindFault};
ghost use Rattle.thread_laws.specs.Faults.{StandsUnfinished, ThreadFault};
ghost use Rattle.thread_laws.specs.FaultLaws.{EndStands, KeptWithin};

use crate::desks::{groups_are_of_their_phase, later_calls_are_of_later_stages};
use run_laws::runs::{numbers_are_published, players_put_their_files};
use serial_laws::control_desk::laws::{accepted_by_stages, accepted_of_legal};
use serial_laws::numbers::cycles_of_a_phase;

/// Behind a phase that failed, in whatever schedule, each file holds a front of what was really played, or kept.
pub fn a_phase_that_fails_leaves_fronts()
    ensures { (given : Given) (session after : Session) (done many kept : ℕ) (freewheel : Bool) → AtPhase session given done → IsSome session.script.header.threads
        → ThreadFault done many freewheel kept session after → StandsUnfinished kept (told after) given }
{
    accepted_of_legal();
    players_put_their_files();
}

/// It played all cycles of the earlier phases, and some of its own.
pub fn cycles_played_are_of_the_phase()
    ensures { KeptWithin }
{}

/// Its history is one that the script allows so far, and the numbers of the cycles that were begun do not fall, each within
/// its phase's bounds.
pub fn a_session_comes_up_to_its_fault()
    ensures { ComeBehindFault }
{
    accepted_by_stages();
    numbers_are_published();
    cycles_of_a_phase();
    groups_are_of_their_phase();
    later_calls_are_of_later_stages();
}

/// A front of an unfinished file is one of the file that is finished behind the same cycles.
pub fn unfinished_files_have_fronts()
    ensures { (kept : ℕ) (session : Session) (given : Given) → StandsUnfinished kept session given → StandsSoFar kept session given }
{}

/// An end that failed leaves fronts of the whole files.
pub fn an_end_that_fails_leaves_fronts()
    ensures { EndStands }
{}

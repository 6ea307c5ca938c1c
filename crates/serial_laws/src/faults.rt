//! What stands behind a fault of a serial session.

ghost use Rattle.std.specs.Prelude.{◌≡◌, ◌+◌, ◌<◌, ◌≤◌, ℕ, Bool, List, Option, Some, length, slice_get, suc, take};
ghost use Rattle.jack_types.specs.declared.files.Format.{Format as FormatValue};
ghost use Rattle.jack_types.specs.declared.replies.Overrun.{Overrun as OverrunValue};
ghost use Rattle.session_model.specs.Courses.{Course};
ghost use Rattle.session_model.specs.Explanations.{Given};
ghost use Rattle.session_model.specs.Playback.{played_back};
ghost use Rattle.session_model.specs.Recorders.{recorded};
ghost use Rattle.session_model.specs.Rings.{RingBlock, samples_of_blocks};
ghost use Rattle.session_model.specs.Scripts.{turns, Phase, phases};
ghost use Rattle.driver_words.specs.Tapes.{HasFront, HasUnfinished};
ghost use Rattle.run_laws.specs.driver_laws.specs.Drivers.{run, turn_of};
ghost use Rattle.run_laws.specs.driver_laws.specs.Keeping.{kept_blocks, played_so_far};
ghost use Rattle.run_laws.specs.driver_laws.specs.Segments.{cycles_before};
ghost use Rattle.run_laws.specs.serial_lanes.specs.Lanes.{SerialDesk};
ghost use Rattle.run_laws.specs.SerialRuns.{SerialBehind, SerialKept};
ghost use Rattle.run_laws.specs.Sessions.{Session};
ghost use Rattle.serial_laws.specs.Endings.{EndFails};
ghost use Rattle.serial_laws.specs.Faults.{StandsInSerial, TurnFails, told};
ghost use Rattle.serial_laws.specs.Steps.{AreExact, IsSettled, IsSound};

use disk_runs::serial::{a_cycle_of_the_disks_is_counted, the_serial_course_fits};
use run_laws::driver_laws::courses::a_meeting_changes_nothing;
use run_laws::driver_laws::cycling::graph_is_of_the_row;
use run_laws::driver_laws::endings::{all_is_played_back, blocks_kept_are_recorded};
use run_laws::serial::{
    drains_are_counted, puts_are_counted, recorders_are_active_as_in_serial_mode,
};
use run_laws::serial_lanes::laws::{cycles_of_phases, front_of_history, number_before_cycle};
use session_laws::serial::serial_meaning_is_legal;

/// A front of what was played so far is one of the playback, and a front of the blocks that were kept so far is one of the
/// recorder's file.
pub fn fronts_of_so_far_are_fronts()
    ensures playback { (course : Course) (n : ℕ) (format : FormatValue) (bytes : Option (List ℕ)) → n ≤ length (turns course.script) → HasUnfinished format (played_so_far course n) bytes → HasFront format (played_back course) bytes }
    ensures records { (course : Course) (losses : List OverrunValue) (recorder n : ℕ) (format : FormatValue) (blocks : List RingBlock) (bytes : Option (List ℕ)) → n ≤ length (turns course.script)
        → blocks ≡ take (length blocks) (kept_blocks course losses recorder n) → HasUnfinished format (samples_of_blocks blocks) bytes → HasFront format (recorded course losses recorder) bytes }
{
    all_is_played_back();
    blocks_kept_are_recorded();
}

/// Behind a cycle that failed each file has a front of what serial mode gives it.
pub fn a_turn_that_fails_leaves_fronts()
    ensures { (given : Given) (freewheel : Bool) (session after : Session) (done t : ℕ) (phase : Phase) → slice_get (phases session.script) done ≡ Some phase → t < phase.cycles
        → run session.driver ≡ cycles_before session.script done + t → IsSettled session → SerialDesk session.desk done (suc t) → AreExact session → SerialKept given session
        → (turn_of session.script (run session.driver + 1)).is_freewheel ≡ freewheel → TurnFails freewheel session after → StandsInSerial given (told after) }
{
    a_cycle_of_the_disks_is_counted();
    a_meeting_changes_nothing();
    front_of_history();
    fronts_of_so_far_are_fronts();
    graph_is_of_the_row();
    number_before_cycle();
    drains_are_counted();
    puts_are_counted();
    recorders_are_active_as_in_serial_mode();
    serial_meaning_is_legal();
    the_serial_course_fits();
}

/// So it has behind an end that failed.
pub fn an_end_that_fails_leaves_fronts()
    ensures { (given : Given) (session after : Session) → IsSound session → SerialBehind session (length (phases session.script)) → SerialKept given session → EndFails session after → StandsInSerial given after }
{
    all_is_played_back();
    blocks_kept_are_recorded();
    cycles_of_phases();
    the_serial_course_fits();
}

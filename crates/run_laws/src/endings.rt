//! Laws of a session that was run and ended: its report is the definition's, and all that it wrote is explained.

ghost use Rattle.std.specs.Prelude.{◌≡◌, ℕ, List, Some, length, map};
ghost use Rattle.session_model.specs.Explanations.{Explained, Given};
ghost use Rattle.session_model.specs.Reports.{report_of};
ghost use Rattle.session_model.specs.Scripts.{phases};
ghost use Rattle.driver_words.specs.Rings.{Sending};
ghost use Rattle.run_laws.specs.Runs.{RanPhases};
ghost use Rattle.run_laws.specs.Sessions.{IsGiven, KeepsGiven, Session, course_in, printed_of};
ghost use Rattle.run_laws.specs.Told.{Ends, Runs, report_in, text_in};

use driver_laws::endings::blocks_kept_are_recorded;
use serial_lanes::laws::cycles_of_phases;

/// What the report prints, from the desk's and the driver's lists, is the report of the one computation over them.
pub fn report_is_the_definitions()
    ensures { (session : Session) (given : Given) → RanPhases session (length (phases session.script)) → KeepsGiven given session
        → session.counts ≡ map (λ (ring : Sending). length ring.put) session.driver.rings
        → report_in session ≡ report_of (course_in given session) session.desk.history (printed_of session).overruns }
{
    blocks_kept_are_recorded();
    cycles_of_phases();
}

/// A run and an end, both with Ok, and the report's bytes are explained, where the finished files are told.
pub fn a_session_is_explained()
    ensures { (before between after : Session) (given : Given) (playback : List ℕ) (records : List (List ℕ))
        → IsGiven before given → Runs before between → Ends given between after
        → after.playback_file ≡ Some playback → after.record_files ≡ map Some records → length records ≡ length before.script.header.recorders
        → Explained given (printed_of between) (record { playback = playback; records = records; report = text_in after }) }
{
    blocks_kept_are_recorded();
    cycles_of_phases();
}

//! Laws of a session in serial mode.

ghost use Rattle.std.specs.Prelude.{◌≡◌, ◌+◌, ◌<◌, ◌≤◌, ◌∷◌, ℕ, ℤ, Bool, List, Some, length, slice_get, slice_index, suc};
ghost use Rattle.jack_types.specs.declared.replies.Overrun.{Overrun as OverrunValue};
ghost use Rattle.session_model.specs.Courses.{Course};
ghost use Rattle.session_model.specs.Explanations.{Given};
ghost use Rattle.session_model.specs.Histories.{accepted};
ghost use Rattle.session_model.specs.Recorders.{is_taping};
ghost use Rattle.session_model.specs.Scripts.{Phase, Script, phases};
ghost use Rattle.session_model.specs.Serial.{Counts, drained, put_one, serial, serial_course, serial_history, serial_numbers};
ghost use Rattle.driver_words.specs.Rings.{Getting, Sending};
ghost use Rattle.driver_words.specs.Tapes.{Tape};
ghost use Rattle.disk_recorder.specs.Recordings.{Drains};
ghost use Rattle.driver_laws.specs.Cycling.{PutsOne};
ghost use Rattle.run_laws.specs.Runs.{AtPhase, DisksAtRest, RanPhases};
ghost use Rattle.run_laws.specs.SerialRuns.{HasCounts, HasPut, SerialAt, SerialBehind, SerialKept};
ghost use Rattle.run_laws.specs.Sessions.{Session, printed_of};

use serial_lanes::control_desk::laws::accepted_of_legal;
use serial_lanes::laws::{cycles_of_phases, desk_by_phases};
use session_laws::serial::serial_meaning_is_legal;

/// Whether a recorder is active in a cycle rests on the changes and the cycle's number alone: with those of serial mode it
/// is active where it is there.
pub fn recorders_are_active_as_in_serial_mode()
    ensures { (script : Script) (course : Course) (recorder k : ℕ) → course.script ≡ script → course.changes ≡ accepted (serial_history script)
        → slice_index (0 ∷ course.numbers) k ≡ slice_index (0 ∷ serial_numbers script) k → is_taping course recorder k ≡ is_taping (serial_course script) recorder k }
{}

/// A put of serial mode goes in, or finds the ring full, as the definition counts, where both ends knew the ring before it and
/// the meeting behind it tells that no look found more than was got.
pub fn puts_are_counted()
    ensures { (course : Course) (recorder k : ℕ) (ring : Sending) (got : Getting) (counted : Counts) → HasCounts ring got counted → ring.capacity ≡ course.script.header.ring
        → (active : Bool) (samples : List ℤ) (after : Sending) (losses losses_after : List OverrunValue) → is_taping course recorder k ≡ active → losses ≡ counted.losses
        → PutsOne k recorder active samples ring after losses losses_after → after.least ≤ length got.got
        → HasPut after losses_after (put_one course recorder k counted) × (length got.got ≡ (put_one course recorder k counted).taken) }
{}

/// So many blocks leave a ring as the definition counts, where both ends knew the ring before it.
pub fn drains_are_counted()
    ensures { (most count : ℕ) (ring : Sending) (got after : Getting) (tape tape_after : Tape) (counted : Counts) → HasCounts ring got counted
        → Drains most count got tape after tape_after → length after.got ≤ length ring.put → length after.got ≡ (drained most counted).taken }
{}

/// Behind a phase's cycles and its last round of lanes that phase is behind the session.
pub fn a_phase_ends()
    ensures { (session : Session) (done : ℕ) (phase : Phase) → slice_get (phases session.script) done ≡ Some phase → SerialAt session done phase.cycles (phase.cycles + 1) → SerialBehind session (suc done) }
{
    desk_by_phases();
}

/// Behind all phases history and numbers are those of serial mode, and within their bounds.
pub fn all_phases_end()
    ensures history { (session : Session) → SerialBehind session (length (phases session.script)) → session.desk.history ≡ (serial session.script).history }
    ensures numbers { (session : Session) → SerialBehind session (length (phases session.script)) → session.driver.numbers ≡ (serial session.script).numbers }
    ensures ran { (session : Session) → SerialBehind session (length (phases session.script)) → RanPhases session (length (phases session.script)) }
{
    cycles_of_phases();
    desk_by_phases();
    serial_meaning_is_legal();
}

/// What is kept of what was given in serial mode is, with the disks' rings at rest, what each mode has behind all phases, and
/// overruns are those of serial mode.
pub fn serial_run_is_kept()
    ensures at_end { (session : Session) (given : Given) → SerialBehind session (length (phases session.script)) → SerialKept given session → DisksAtRest given session
        → AtPhase session given (length (phases session.script)) }
    ensures overruns { (session : Session) (given : Given) → SerialBehind session (length (phases session.script)) → SerialKept given session → (printed_of session).overruns ≡ (serial session.script).overruns }
{
    accepted_of_legal();
    cycles_of_phases();
    desk_by_phases();
    serial_meaning_is_legal();
}

//! Where a session in serial mode is behind each of its steps.

ghost use Rattle.std.specs.Prelude.{◌≡◌, ◌<◌, ℕ, Some, false, [], All, length, slice_get, suc};
ghost use Rattle.session_model.specs.Explanations.{Given};
ghost use Rattle.session_model.specs.Scripts.{Phase, phases};
ghost use Rattle.driver_words.specs.Rings.{Sending};
ghost use Rattle.run_laws.specs.SerialRuns.{SerialAt, SerialBehind, SerialKept};
ghost use Rattle.run_laws.specs.Sessions.{Session};
ghost use Rattle.serial_laws.specs.Steps.{Begun, IsSettled, IsSound, Turned};

use crate::numbers::{a_phase_begins_exactly, a_turn_is_exact, cycles_of_a_phase};
use crate::parts::{a_turn_leaves_the_parts, desks_leave_the_parts, steps_keep_what_was_given};
use crate::rings::{
    a_phase_begins_with_the_blocks, a_turn_counts_the_blocks, a_turn_counts_the_disks,
};

/// The front of a phase, from behind the earlier ones.
pub fn a_phase_begins()
    ensures at { (session after : Session) (done : ℕ) (phase : Phase) → slice_get (phases session.script) done ≡ Some phase → IsSound session → SerialBehind session done → Begun done session after → SerialAt after done 0 1 }
    ensures kept { (given : Given) (session after : Session) (done : ℕ) (phase : Phase) → slice_get (phases session.script) done ≡ Some phase → IsSound session → SerialBehind session done → Begun done session after
        → SerialKept given session → SerialKept given after }
{
    a_phase_begins_exactly();
    a_phase_begins_with_the_blocks();
    desks_leave_the_parts();
    steps_keep_what_was_given();
}

/// A cycle of a phase.
pub fn a_cycle_goes_on()
    ensures at { (session after : Session) (done t : ℕ) (phase : Phase) → slice_get (phases session.script) done ≡ Some phase → t < phase.cycles → IsSettled session → SerialAt session done t (suc t)
        → Turned phase.is_freewheel session after → SerialAt after done (suc t) (suc (suc t)) }
    ensures kept { (given : Given) (session after : Session) (done t : ℕ) (phase : Phase) → slice_get (phases session.script) done ≡ Some phase → t < phase.cycles → IsSettled session → SerialAt session done t (suc t)
        → Turned phase.is_freewheel session after → SerialKept given session → SerialKept given after }
{
    cycles_of_a_phase();
    a_turn_is_exact();
    a_turn_counts_the_blocks();
    a_turn_counts_the_disks();
    a_turn_leaves_the_parts();
}

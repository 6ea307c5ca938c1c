//! What a session's driver takes in serial mode.

ghost use Rattle.std.specs.Prelude.{◌≡◌, ◌+◌, ◌<◌, ℕ, Bool, Some, length, slice_get, suc};
ghost use Rattle.session_model.specs.Scripts.{Phase, Script, phases, turns};
ghost use Rattle.run_laws.specs.driver_laws.specs.Drivers.{run, turn_of};
ghost use Rattle.run_laws.specs.driver_laws.specs.Segments.{cycles_before};
ghost use Rattle.run_laws.specs.serial_lanes.specs.Lanes.{BehindPhases, SerialDesk};
ghost use Rattle.run_laws.specs.Sessions.{Session};
ghost use Rattle.serial_laws.specs.Steps.{AreExact, Begun, IsSettled, IsSound, Turned};

use run_laws::serial_lanes::laws::{
    desk_that_meets, front_of_history, number_before_cycle, round_of_lanes,
};
use session_laws::serial::serial_meaning_is_legal;

/// A cycle of a phase is the script's cycle behind those of the earlier phases, and has the phase's period and kind.
pub fn cycles_of_a_phase()
    ensures there { (script : Script) (done t : ℕ) (phase : Phase) → slice_get (phases script) done ≡ Some phase → t < phase.cycles → cycles_before script done + t < length (turns script) }
    ensures is { (script : Script) (done t : ℕ) (phase : Phase) → slice_get (phases script) done ≡ Some phase → t < phase.cycles
        → turn_of script (cycles_before script done + t + 1) ≡ record { period = phase.period; is_freewheel = phase.is_freewheel; phase = done } }
{}

/// A cycle takes the number of serial mode, and its round of the lanes makes the calls of serial mode.
pub fn a_turn_is_exact()
    ensures exact { (freewheel : Bool) (session after : Session) (done t : ℕ) (phase : Phase) → slice_get (phases session.script) done ≡ Some phase → t < phase.cycles
        → run session.driver ≡ cycles_before session.script done + t → IsSettled session → SerialDesk session.desk done (suc t) → Turned freewheel session after → AreExact session → AreExact after }
    ensures desk { (freewheel : Bool) (session after : Session) (done t : ℕ) (phase : Phase) → slice_get (phases session.script) done ≡ Some phase → t < phase.cycles
        → run session.driver ≡ cycles_before session.script done + t → IsSettled session → SerialDesk session.desk done (suc t) → Turned freewheel session after → AreExact session → SerialDesk after.desk done (suc (suc t)) }
    ensures one_more { (freewheel : Bool) (session after : Session) → Turned freewheel session after → run after.driver ≡ run session.driver + 1 }
{
    desk_that_meets();
    front_of_history();
    number_before_cycle();
    round_of_lanes();
    serial_meaning_is_legal();
}

/// The front of a phase takes nothing, and makes the phase's `do` calls and its first round.
pub fn a_phase_begins_exactly()
    ensures exact { (session after : Session) (done : ℕ) (phase : Phase) → slice_get (phases session.script) done ≡ Some phase → run session.driver ≡ cycles_before session.script done
        → IsSound session → BehindPhases session.desk done → Begun done session after → AreExact session → AreExact after }
    ensures desk { (session after : Session) (done : ℕ) (phase : Phase) → slice_get (phases session.script) done ≡ Some phase → run session.driver ≡ cycles_before session.script done
        → IsSound session → BehindPhases session.desk done → Begun done session after → AreExact session → SerialDesk after.desk done 1 }
    ensures same { (session after : Session) (done : ℕ) → Begun done session after → run after.driver ≡ run session.driver }
{
    desk_that_meets();
    round_of_lanes();
}

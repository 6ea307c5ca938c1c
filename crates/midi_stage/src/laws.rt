//! Laws of a stage of MIDI clients: it hears its plan, and what it carries.

ghost use Rattle.std.specs.Prelude.{ℕ};
ghost use Rattle.jack_types.specs.declared.moments.Moment.{Moment as MomentValue};
ghost use Rattle.session_model.specs.Scripts.{Script};
ghost use Rattle.midi_wiring.specs.cycle_plan.specs.Plans.{IsPlanned, Planned};
ghost use Rattle.midi_wiring.specs.Hearings.{AreCarried, HearsPlan};
ghost use Rattle.driver_words.specs.Hearings.{Heard};
ghost use Rattle.midi_stage.specs.Stages.{IsSeating, MidiStaged, PlaysMidi, heard_in};
ghost use Rattle.midi_stage.specs.Standing.{HearsNobody, quiet_heard};

use midi_wiring::laws::births_are_apart;

/// Where each MIDI client of a plan has its bench and played on it, the clients of the plan heard and played its cycle.
pub fn a_stage_hears_its_plan()
    ensures { (old new : MidiStaged) (plan : Planned) (moment : MomentValue) (period : ℕ) → IsPlanned plan → IsSeating old → PlaysMidi old plan moment period new → HearsPlan (heard_in old) plan moment period (heard_in new) }
{
    births_are_apart();
}

/// Before the first cycle, and in one that nobody played, each MIDI output of a plan carries what its client played: nothing.
pub fn what_is_carried()
    ensures first { (script : Script) (plan : Planned) (period : ℕ) → AreCarried plan (quiet_heard script period) }
    ensures nobody { (old new : Heard) (plan : Planned) (period : ℕ) → HearsNobody old period new → AreCarried plan new }
{}

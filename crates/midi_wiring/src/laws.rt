//! Laws of MIDI wirings: what feedback edges give, where events come from, and what clients play by their tasks.

ghost use Rattle.std.specs.Prelude.{◌≡◌, ◌<◌, ℕ, Contains, List, length};
ghost use Rattle.jack_types.specs.declared.moments.Moment.{Moment as MomentValue};
ghost use Rattle.session_model.specs.Benches.{Signal};
ghost use Rattle.session_model.specs.Courses.{Course};
ghost use Rattle.session_model.specs.Cycles.{Settled};
ghost use Rattle.client_wiring.specs.cycle_plan.specs.Plans.{IsPlanned, Planned, state_of_plan};
ghost use Rattle.client_wiring.specs.Keeping.{GoesOn};
ghost use Rattle.midi_wiring.specs.declared.joints.MidiFrom.TheVariants.{Nothing, Played};
ghost use Rattle.midi_wiring.specs.declared.joints.MidiGiven.{MidiGiven as GivenRecord};
ghost use Rattle.midi_wiring.specs.declared.joints.MidiJoint.{MidiJoint as JointRecord};
ghost use Rattle.midi_wiring.specs.Hearings.{AreCarried, HearsPlan};
ghost use Rattle.driver_words.specs.Hearings.{Heard};
ghost use Rattle.midi_wiring.specs.Keeping.{BringsCarried, KeepsEvents};
ghost use Rattle.midi_wiring.specs.Setting.{HandsOver, PlaysTask};
ghost use Rattle.midi_wiring.specs.Wirings.{midi_wired_of};

/// What a feedback edge gives is found by the birth of its port among what the MIDI outputs of the last plan carried.
///
/// The last plan may be one without changes.
pub fn keeps_events_by_births()
    ensures { (last now : Planned) → GoesOn last now → KeepsEvents last now }
{}

/// Events come from clients that play, and over a direct edge from a lower node.
pub fn events_come_from_players()
    ensures lower { (plan : Planned) (joint : JointRecord) (node : ℕ) → IsPlanned plan → Contains (midi_wired_of plan).joints joint → joint.from ≡ Played node → node < joint.node }
    ensures always { (plan : Planned) (joint : JointRecord) → IsPlanned plan → Contains (midi_wired_of plan).joints joint → joint.from ≡ Nothing → ⊥ }
{}

/// The births of a plan's MIDI outputs tell them apart.
pub fn births_are_apart()
    ensures { (plan : Planned) (a b : GivenRecord) → IsPlanned plan → Contains (midi_wired_of plan).given a → Contains (midi_wired_of plan).given b → a.birth ≡ b.birth → a ≡ b }
{}

/// Where the clients of a plan heard and played a cycle, each plays by its task what was heard: its inputs get what its wiring
/// brings.
pub fn a_task_plays_what_is_heard()
    ensures { (course : Course) (at : Settled) (plan : Planned) (old new : Heard) (n : ℕ) (given : List (List Signal)) → IsPlanned plan → at.graph ≡ state_of_plan plan → course.script.events ≡ old.lists
        → HearsPlan old plan at.moment at.frames new → n < length plan.nodes → HandsOver plan at new n given → PlaysTask course at plan old new n given }
{}

/// In the next cycle a feedback edge brings what its output carried, where the period stays.
pub fn a_feedback_edge_brings_what_was_carried()
    ensures { (last now : Planned) (old new : Heard) (moment : MomentValue) (frames : ℕ) → GoesOn last now → AreCarried last old → HearsPlan old now moment frames new → BringsCarried last now old new frames }
{
    keeps_events_by_births();
}

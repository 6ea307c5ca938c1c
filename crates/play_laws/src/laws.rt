//! A stage that performed a plan, with what was heard of events, played what the definitions of a cycle say.

ghost use Rattle.std.specs.Prelude.{◌≡◌, ◌<◌, ℕ, ℤ, List, None, length, map, true};
ghost use Rattle.jack_types.specs.declared.moments.Moment.{Moment as MomentValue};
ghost use Rattle.session_model.specs.Benches.{node_at};
ghost use Rattle.session_model.specs.Courses.{Course};
ghost use Rattle.session_model.specs.Cycles.{Settled, audio_outputs};
ghost use Rattle.session_model.specs.Kinds.{Sound};
ghost use Rattle.session_model.specs.State.{system_name};
ghost use Rattle.client_kinds.specs.Scores.{Score};
ghost use Rattle.port_registry.specs.Registered.{open_clients};
ghost use Rattle.event_laws.specs.cycle_plan.specs.Plans.{Planned, state_of_plan};
ghost use Rattle.client_seats.specs.Seatings.{memory_of};
ghost use Rattle.event_laws.specs.client_wiring.specs.Keeping.{GoesOn};
ghost use Rattle.driver_words.specs.Feeding.{Fed};
ghost use Rattle.driver_words.specs.Hearings.{Heard};
ghost use Rattle.event_laws.specs.midi_wiring.specs.Hearings.{HearsPlan};
ghost use Rattle.stage_laws.specs.Performances.{PerformsPlan};
ghost use Rattle.stage_laws.specs.Stages.{Staged};
ghost use Rattle.stage_laws.specs.Standing.{StandsOn};
ghost use Rattle.play_laws.specs.Plays.{IsSettledOn, PlaysPlan};

use event_laws::client_wiring::laws::keeps_by_births;
use event_laws::laws::{
    a_crew_plays_what_is_heard, a_heard_task_is_its_clients, events_change_no_audio,
};
use stage_laws::owning::owners_stay_known;
use stage_laws::stages::a_stage_stands_behind_its_cycle;

/// Where a stage performed a plan, and its MIDI clients heard and played it, the benches were ready for the definitions' cycle,
/// and played it.
pub fn a_stage_plays_its_plan()
    ensures { (sounding : Score → Sound) (course : Course) (old : Staged) (last plan : Planned) (moment : MomentValue) (period : ℕ) (channels : List (List ℤ)) (logs now : Heard) (disks : Fed) (at : Settled) (new : Staged)
        → StandsOn old last → old.is_staffed ≡ true → GoesOn last plan → IsSettledOn sounding old last plan moment period channels logs now disks at → course.scores ≡ map sounding old.owned.scores → course.script.events ≡ logs.lists
        → length channels ≡ length (audio_outputs (state_of_plan plan) system_name) → HearsPlan logs plan moment period now → PerformsPlan sounding old last plan moment period channels disks new → PlaysPlan sounding course old plan at now new }
{
    keeps_by_births();
    owners_stay_known();
    a_stage_stands_behind_its_cycle();
    a_crew_plays_what_is_heard();
    a_heard_task_is_its_clients();
    events_change_no_audio();
}

/// A client that has no memory behind a plan had none before, and is no client of the plan.
pub fn memories_never_go()
    ensures { (sounding : Score → Sound) (old : Staged) (last plan : Planned) (moment : MomentValue) (period : ℕ) (channels : List (List ℤ)) (disks : Fed) (new : Staged) (birth : ℕ)
        → StandsOn old last → PerformsPlan sounding old last plan moment period channels disks new → memory_of new.racked new.owned birth ≡ None
        → (memory_of old.racked old.owned birth ≡ None) × ((n : ℕ) → n < length plan.nodes → (node_at (open_clients plan.nodes) n).birth ≡ birth → ⊥) }
{
    a_stage_stands_behind_its_cycle();
}

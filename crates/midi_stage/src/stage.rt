//! The stage of MIDI clients.

ghost use Rattle.std.specs.Prelude.{◌≡◌, ◌+◌, ◌<◌, ◌≤◌, ◌^◌, ◌∷◌, [], ℕ, All, IfOk, None, length, true, false};
ghost use Rattle.graph_word.specs.Publications.{IsFront};
ghost use Rattle.port_registry.specs.Registered.{open_clients};
ghost use Rattle.midi_seats.specs.driver_laws.specs.Keeping.{AreOfCalls};
ghost use Rattle.midi_player.specs.Standings.{IsLawful};
ghost use Rattle.midi_wiring.specs.Hearings.{HearsPlan};
ghost use Rattle.driver_words.specs.Hearings.{log_at};
ghost use Rattle.midi_seats.specs.Owning.{IsShort};
ghost use Rattle.midi_seats.specs.Seating.{client_at, midi_code};
ghost use Rattle.midi_stage.specs.Standing.{HearsNobody, device_of, quiet_heard};

use crate::laws::a_stage_hears_its_plan;
use crate::opening::make_parts;
use crate::parts::Parts;
use crate::performing::{log_of, perform};
use jack_types::{Client, Logged, Memory, Moment};
use midi_seats::laws::{a_scripts_clients_have_benches, owners_are_known};
use midi_seats::seating::code_of;
use midi_wiring::cycle_plan::Plan;
use proof_notes::Log;
use script_needs::session_script::Script;
use std::alloc::Global;
use std::marker::Model;

/// The MIDI clients of a session: a bench for each that its script may open, who owns them, and what they play.
///
/// Contracts see an `OnMidi`: the script, the changes of the plan that was played last, and what was heard. All memory is taken in
/// `new`, and none is kept where the script opens no MIDI client.
#[derive(Drop)]
pub struct MidiStage {
    script: Log<(), Script>,
    plan: Log<(), Plan>,
    period: u32,
    parts: Option<Parts>,
}

impl Model for MidiStage {
    ghost use Rattle.midi_stage.specs.Standing.{OnMidi};

    ghost Value = { OnMidi };

    ghost use Rattle.midi_stage.specs.Insides.{IsWhole, seen_of};

    ghost view = { seen_of };

    ghost invariant = { IsWhole };
}

/// A script, noted for proofs.
fn note_script(script: &Script) -> Log<(), Script>
    ensures { result.items ≡ (tt, script.now) ∷ [] }
{
    Log::new().and(&(), script)
}

/// A plan, noted for proofs.
fn note_plan(plan: &Plan) -> Log<(), Plan>
    ensures { result.items ≡ (tt, plan.now) ∷ [] }
{
    Log::new().and(&(), plan)
}

/// Whether a node has a MIDI client.
fn has_midi(nodes: &[Client]) -> bool
    ensures short { result ≡ true → IsShort (open_clients nodes.now) [] }
    ensures none { result ≡ false → (n : ℕ) → n < length nodes.now → midi_code (client_at nodes.now n).kind ≡ None }
{
    for client in nodes {
        if code_of(client.kind).is_some() {
            return true;
        }
    }
    false
}

impl MidiStage {
    /// The MIDI clients of a script, of which none played yet.
    pub fn new(alloc: Global, script: &Script) -> Result<MidiStage, Memory>
        ensures { IfOk result (λ stage. stage ≡ record { script = script.now; changes = []; heard = quiet_heard script.now 0 }) }
    {
        owners_are_known();
        let parts = make_parts(alloc, script)?;
        Ok(MidiStage {
            script: note_script(script),
            plan: Log::new(),
            period: 0,
            parts,
        })
    }

    /// Plays the MIDI clients of a plan, whose changes go on from those of the plan that was played last. Answers whether each
    /// has a bench: always where the changes are calls of the script; where one can have none, nobody plays.
    ///
    /// It takes no memory.
    pub fn play(&mut self, plan: &Plan, moment: &Moment, period: u32) -> bool
        requires base { plan.now.base ≡ device_of self.old.script }
        requires front { IsFront self.old.changes plan.now.changes }
        requires frames { moment.now.frame + period < 2 ^ 32 }
        ensures all { AreOfCalls self.old.script plan.now.changes → result ≡ true }
        ensures hears { result ≡ true → HearsPlan self.old.heard plan.now moment.now period self.new.heard }
        ensures nobody { result ≡ false → HearsNobody self.old.heard period self.new.heard }
        ensures changes { self.new.changes ≡ plan.now.changes }
        ensures script { self.new.script ≡ self.old.script }
    {
        a_stage_hears_its_plan();
        a_scripts_clients_have_benches();
        owners_are_known();
        let has_same_period = self.period == period;
        let nodes = plan.nodes();
        self.period = period;
        self.plan = note_plan(plan);
        match &mut self.parts {
            Some(parts) => perform(parts, plan, moment, period, has_same_period),
            None => !has_midi(nodes),
        }
    }

    /// The log of the client of this birth: no event where none of this birth played.
    pub fn log(&self, birth: u32) -> &[Logged]
        ensures value { result.now ≡ log_at self.now.heard birth }
        ensures few { length result.now ≤ 4096 }
        ensures lawful { All IsLawful result.now }
    {
        match &self.parts {
            Some(parts) => log_of(parts, birth),
            None => &[],
        }
    }
}

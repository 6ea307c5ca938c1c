//! Laws of the states that lawful changes lead to.

ghost use Rattle.std.specs.Prelude.{◌≤◌, ℕ, List, length};
ghost use Rattle.jack_types.specs.declared.commands.Change.{Change as ChangeValue};
ghost use Rattle.session_model.specs.Commands.{replay};
ghost use Rattle.session_model.specs.Cycles.{audio_inputs, audio_outputs};
ghost use Rattle.session_model.specs.State.{opening};

/// A client of a state behind changes has at most 16 audio inputs and at most 16 audio outputs.
pub fn ports_are_few()
    ensures inputs { (capture playback : ℕ) (changes : List ChangeValue) (name : List ℕ) → playback ≤ 16 → length (audio_inputs (replay (opening capture playback) changes) name) ≤ 16 }
    ensures outputs { (capture playback : ℕ) (changes : List ChangeValue) (name : List ℕ) → capture ≤ 16 → length (audio_outputs (replay (opening capture playback) changes) name) ≤ 16 }
{}

//! Laws of wirings: what those of two plans say of feedback edges between their cycles, and which ports the device has.

ghost use Rattle.std.specs.Prelude.{◌≡◌, ℕ, List, map};
ghost use Rattle.jack_types.specs.declared.commands.Change.{Change as ChangeValue};
ghost use Rattle.session_model.specs.Commands.{replay};
ghost use Rattle.session_model.specs.Cycles.{audio_inputs, audio_outputs};
ghost use Rattle.session_model.specs.Samples.{below};
ghost use Rattle.session_model.specs.State.{capture_port, opening, playback_port, system_name};
ghost use Rattle.cycle_plan.specs.Plans.{Planned};
ghost use Rattle.client_wiring.specs.Keeping.{GoesOn, SetsFeedback};

/// What a feedback edge gives is found by the birth of its port among the outputs of the last plan.
///
/// The last plan may be one without changes.
pub fn keeps_by_births()
    ensures { (last now : Planned) → GoesOn last now → SetsFeedback last now }
{}

/// The device's ports are its channels', whatever commands led to the state.
pub fn the_device_has_its_ports()
    ensures capture { (capture playback : ℕ) (changes : List ChangeValue) → audio_outputs (replay (opening capture playback) changes) system_name ≡ map capture_port (below capture) }
    ensures playback { (capture playback : ℕ) (changes : List ChangeValue) → audio_inputs (replay (opening capture playback) changes) system_name ≡ map playback_port (below playback) }
{}

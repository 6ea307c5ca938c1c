//! A law of what a play leaves as it was.

ghost use Rattle.std.specs.Prelude.{◌≡◌, ◌≢◌, [], List, None};
ghost use Rattle.jack_types.specs.declared.kinds.Kind.TheVariants.{Meter};
ghost use Rattle.driver_laws.specs.session_model.specs.Benches.{Signal};
ghost use Rattle.driver_laws.specs.session_model.specs.Kinds.{Sound};
ghost use Rattle.client_benches.specs.Seen.{Remembered, kept_after};
ghost use Rattle.client_benches.specs.client_kinds.specs.Scores.{Score};
ghost use Rattle.client_benches.specs.client_kinds.specs.Standings.{IsDisk};

/// A play leaves a bench all but its memory and what it got and gave; of the memory, a block that was fed is left by all but
/// disk players, which have none afterwards, and the peak by all but meters. An idle bench is left as it is.
pub fn playing_keeps_a_bench()
    ensures kind { (sound : Score → Sound) (kept : Remembered) (given : List (List Signal)) → (kept_after sound kept given).standing.kind ≡ kept.standing.kind }
    ensures period { (sound : Score → Sound) (kept : Remembered) (given : List (List Signal)) → (kept_after sound kept given).standing.period ≡ kept.standing.period }
    ensures score { (sound : Score → Sound) (kept : Remembered) (given : List (List Signal)) → (kept_after sound kept given).standing.score ≡ kept.standing.score }
    ensures turn { (sound : Score → Sound) (kept : Remembered) (given : List (List Signal)) → (kept_after sound kept given).turn ≡ kept.turn }
    ensures wires { (sound : Score → Sound) (kept : Remembered) (given : List (List Signal)) → (kept_after sound kept given).wires ≡ kept.wires }
    ensures routes { (sound : Score → Sound) (kept : Remembered) (given : List (List Signal)) → (kept_after sound kept given).routes ≡ kept.routes }
    ensures fed { (sound : Score → Sound) (kept : Remembered) (given : List (List Signal)) → ¬ IsDisk kept.standing.kind → (kept_after sound kept given).standing.memory.fed ≡ kept.standing.memory.fed }
    ensures empty { (sound : Score → Sound) (kept : Remembered) (given : List (List Signal)) → kept.standing.memory.fed ≡ [] → (kept_after sound kept given).standing.memory.fed ≡ [] }
    ensures peak { (sound : Score → Sound) (kept : Remembered) (given : List (List Signal)) → kept.standing.kind ≢ Meter → (kept_after sound kept given).standing.memory.peak ≡ kept.standing.memory.peak }
    ensures idle { (sound : Score → Sound) (kept : Remembered) (given : List (List Signal)) → kept.turn ≡ None → kept_after sound kept given ≡ kept }
{}

//! A law of graphs.

ghost use Rattle.std.specs.Prelude.{◌≡◌, ℕ, List, Contains, true};
ghost use Rattle.graph_word.specs.jack_types.specs.declared.commands.Change.{Change as ChangeValue};
ghost use Rattle.graph_word.specs.session_model.specs.Commands.{replay, shares};
ghost use Rattle.graph_word.specs.session_model.specs.State.{OpenClient, opening};

/// At most one open client has a given recorder, guest or disk file, whatever commands led to the state.
pub fn one_client_of_each()
    ensures { (capture playback : ℕ) (changes : List ChangeValue) (a b : OpenClient) → Contains (replay (opening capture playback) changes).clients a
        → Contains (replay (opening capture playback) changes).clients b → shares a.kind b.kind ≡ true → a ≡ b }
{}

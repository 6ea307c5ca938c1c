//! Laws of what the calls of a script lead to.

ghost use Rattle.std.specs.Prelude.{◌≡◌, ◌<◌, ◌≤◌, [], ℕ, All, Bool, Contains, List, None, Option, Some, count_by, slice_get, slice_index_or, false};
ghost use Rattle.std.specs.List.Sorted.{IsPermutation};
ghost use Rattle.jack_types.specs.declared.commands.Change.{Change as ChangeValue};
ghost use Rattle.jack_types.specs.declared.kinds.Kind.{Kind as KindValue};
ghost use Rattle.jack_types.specs.declared.kinds.Kind.TheVariants.{Guest};
ghost use Rattle.driver_laws.specs.graph_word.specs.Publications.{IsFront};
ghost use Rattle.driver_laws.specs.session_model.specs.Commands.{replay};
ghost use Rattle.driver_laws.specs.session_model.specs.Grammar.{IsScript};
ghost use Rattle.driver_laws.specs.session_model.specs.Scripts.{Script};
ghost use Rattle.driver_laws.specs.session_model.specs.State.{OpenClient, is_system, opening};
ghost use Rattle.client_benches.specs.client_kinds.specs.Standings.{IsPlayable};
ghost use Rattle.driver_laws.specs.Keeping.{AreOfCalls};
ghost use Rattle.task_laws.specs.Calls.{AreOwners, HasOpened, IsOldKind, guests_needed, open_kinds, opens};

/// A script before version 3 opens no client of the kinds of version 3.
pub fn old_scripts_are_plain()
    ensures { (script : Script) (changes : List ChangeValue) (capture playback : ℕ) → IsScript script → script.header.version < 3 → AreOfCalls script changes
        → (client : OpenClient) → Contains (replay (opening capture playback) changes).clients client → IsOldKind client.kind }
{}

/// The numbers of the kinds that a script opens are in range, and its guests are among those that it needs.
pub fn kinds_are_of_the_script()
    ensures playable { (script : Script) → IsScript script → All IsPlayable (open_kinds script) }
    ensures guests { (script : Script) (guest : ℕ) → Contains (open_kinds script) (Guest guest) → guest < guests_needed script }
    ensures old { (script : Script) → IsScript script → script.header.version < 3 → All IsOldKind (open_kinds script) }
{}

/// A client that is not `system` was opened by the change of its birth's number, and its kind is one that the script opens.
/// Where changes go on, those who own benches still do.
pub fn clients_were_opened()
    ensures clients { (changes : List ChangeValue) (capture playback : ℕ) (client : OpenClient) → Contains (replay (opening capture playback) changes).clients client → is_system client.name ≡ false → HasOpened changes client.birth client.kind }
    ensures kinds { (script : Script) (changes : List ChangeValue) (birth : ℕ) (kind : KindValue) → AreOfCalls script changes → HasOpened changes birth kind → Contains (open_kinds script) kind }
    ensures owners { (front changes : List ChangeValue) (kinds : List KindValue) (owners : List (Option ℕ)) → IsFront front changes → AreOwners front kinds owners → AreOwners changes kinds owners }
{}

/// Changes that are calls of a script open no more clients of a kind than the script has `open` calls of it. So, of benches
/// made for each of these calls, there is one for a client that owns none yet.
pub fn benches_are_enough()
    ensures count { (script : Script) (changes : List ChangeValue) (test : KindValue → Bool) → AreOfCalls script changes → count_by (opens test) changes ≤ count_by test (open_kinds script) }
    ensures free { (script : Script) (changes : List ChangeValue) (kinds : List KindValue) (owners : List (Option ℕ)) (kind : KindValue) (birth : ℕ) → AreOfCalls script changes → IsPermutation (open_kinds script) kinds
        → AreOwners changes kinds owners → HasOpened changes birth kind → ((p : ℕ) → slice_index_or owners p None ≡ Some birth → ⊥)
        → (p : ℕ) × (slice_get kinds p ≡ Some kind) × (slice_index_or owners p None ≡ None) }
{}

//! Laws of marks and of what feedback is.

ghost use Rattle.std.specs.Prelude.{◌≡◌, ℕ, Bool, true, List, ◌↔◌};
ghost use Rattle.session_model.specs.jack_types.specs.declared.commands.Change.{Change as ChangeValue};
ghost use Rattle.session_laws.specs.LoopFree.{AllClose, HasNoLoop};
ghost use Rattle.session_model.specs.Commands.{replay};
ghost use Rattle.session_model.specs.Loops.{Leads, leads, remark};
ghost use Rattle.session_model.specs.State.{Connection, opening};

/// The test of whether one node leads to another says whether there is a path, for nodes of any type whose sameness is tested.
pub fn test_of_paths<N>()
    ensures { (same : N → N → Bool) → ((a b : N) → same a b ≡ true → a ≡ b) → ((a : N) → same a a ≡ true) → (links : List (N × N)) (a b : N) → (leads same links a b ≡ true) ↔ Leads links a b }
{}

/// Direct edges never form a loop, whatever commands led to the state.
pub fn direct_edges_form_no_loop()
    ensures { (capture playback : ℕ) (changes : List ChangeValue) → HasNoLoop (replay (opening capture playback) changes).edges }
{}

/// Marks made anew leave as feedback only what closes a loop, and are not changed when they are made anew once more.
pub fn marks_made_anew()
    ensures closes { (edges : List Connection) → AllClose (remark edges) (remark edges) }
    ensures again { (edges : List Connection) → remark (remark edges) ≡ remark edges }
{}

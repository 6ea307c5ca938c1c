//! The law that the changes of a script have their targets.

ghost use Rattle.std.specs.Prelude.{ℕ, All, List, drop};
ghost use Rattle.jack_types.specs.declared.commands.Change.{Change as ChangeValue};
ghost use Rattle.session_model.specs.Grammar.{IsScript};
ghost use Rattle.session_model.specs.Scripts.{Script};
ghost use Rattle.transport.specs.Standings.{HasTarget};
ghost use Rattle.task_laws.specs.driver_laws.specs.Keeping.{AreOfCalls};

/// Each locate among changes that are calls of a script names a frame in its range; so do those that a cycle adopts.
pub fn calls_have_targets()
    ensures all { (script : Script) (changes : List ChangeValue) → IsScript script → AreOfCalls script changes → All HasTarget changes }
    ensures adopted { (script : Script) (changes : List ChangeValue) (from : ℕ) → IsScript script → AreOfCalls script changes → All HasTarget (drop from changes) }
{}

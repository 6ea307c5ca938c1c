//! Laws of the script's grammar.

ghost use Rattle.std.specs.Prelude.{◌≡◌, ◌⊎◌, ℕ, List};
ghost use Rattle.grammar_laws.specs.Spellings.{HasScript, HasScriptFault};
ghost use Rattle.session_laws.specs.session_model.specs.Grammar.{IsScript, Spells, script_text};
ghost use Rattle.session_laws.specs.session_model.specs.Scripts.{Script};

/// Bytes spell one script and have no fault, or have one fault and spell none.
pub fn script_or_fault()
    ensures { (bytes : List ℕ) → HasScript bytes ⊎ HasScriptFault bytes }
{}

/// What is printed of a script spells that script.
pub fn printed_script()
    ensures { (script : Script) → IsScript script → Spells (script_text script) script }
{}

/// A script that was read is printed and read again.
pub fn printed_again()
    ensures { (bytes : List ℕ) (script : Script) → Spells bytes script → Spells (script_text script) script }
{}

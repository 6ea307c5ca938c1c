//! Laws of the script.

ghost use Rattle.std.specs.Prelude.{◌≡◌, ℕ, count_by};
ghost use Rattle.rehearsal_laws.specs.Lines.{HasCounts};
ghost use Rattle.rehearsal_model.specs.Rehearsals.{rehearsal, rehearsal_script};
ghost use Rattle.session_model.specs.Grammar.{IsScript, Spells, all_cycles};
ghost use Rattle.session_model.specs.Scripts.{phases};

use grammar_laws::grammar::printed_script;

/// The script of each number is one, and its bytes spell it.
pub fn rehearsal_is_a_script()
    ensures script { (n : ℕ) → IsScript (rehearsal n).script }
    ensures spelled { (n : ℕ) → Spells (rehearsal_script n) (rehearsal n).script }
{
    printed_script();
}

/// So many lines of each sort there are in each: 263 calls, 33 of them `open` and 64 of them of lane 1, and one segment of
/// 10,000 cycles.
pub fn lines_are_counted()
    ensures lines { (n : ℕ) → HasCounts (rehearsal n).script.lines }
    ensures cycles { (n : ℕ) → all_cycles (phases (rehearsal n).script) ≡ 10000 }
{}

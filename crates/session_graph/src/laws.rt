//! Words ask for one graph, and the files have one answer.

ghost use Rattle.std.specs.Prelude.{◌≡◌, ℕ, List, Option, false};
ghost use Rattle.session_graph.specs.Askings.{Asking, IsGraph};
ghost use Rattle.session_graph.specs.Files.{Files};
ghost use Rattle.session_graph.specs.Graphs.{HasGraph, HasRefusal};
ghost use Rattle.session_graph.specs.declared.faults.GraphFault.{GraphFault as FaultValue};

/// Words ask for one graph at most.
pub fn words_ask_for_one_graph()
    ensures { (words : List (List ℕ)) (one two : Asking) → IsGraph words one → IsGraph words two → one ≡ two }
{}

/// Files have one refusal at most, none where they have the graph, and one text of it.
pub fn files_have_one_answer()
    ensures refusal { (files : Option Files) (asking : Asking) (one two : FaultValue) → HasRefusal files asking one → HasRefusal files asking two → one ≡ two }
    ensures either { (files : Option Files) (asking : Asking) (fault : FaultValue) (text : List ℕ) → HasRefusal files asking fault → ¬ HasGraph files asking text }
    ensures text { (files : Option Files) (asking : Asking) (one two : List ℕ) → asking.dot ≡ false → HasGraph files asking one → HasGraph files asking two → one ≡ two }
{}

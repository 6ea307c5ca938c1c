//! Laws of the words of a command, each as the contract of a function that does nothing.

ghost use Rattle.std.specs.Prelude.{◌≡◌, ℕ, List};
ghost use Rattle.play_words.specs.Checks.{Check, IsCheck};
ghost use Rattle.play_words.specs.Rehearsals.{IsRehearse};
ghost use Rattle.play_words.specs.Words.{IsPlay, Play};

/// Words are those of one play at most.
pub fn words_name_one_play()
    ensures { (words : List (List ℕ)) (one other : Play) → IsPlay words one → IsPlay words other → one ≡ other }
{}

/// Words are those of one check at most.
pub fn words_name_one_check()
    ensures { (words : List (List ℕ)) (one other : Check) → IsCheck words one → IsCheck words other → one ≡ other }
{}

/// Words are those of one rehearsal at most, and of one kind of command at most.
pub fn words_name_one_command()
    ensures number { (words : List (List ℕ)) (m n : ℕ) → IsRehearse words m → IsRehearse words n → m ≡ n }
    ensures apart { (words : List (List ℕ)) (play : Play) (n : ℕ) → IsPlay words play → ¬ IsRehearse words n }
    ensures no_check_of_play { (words : List (List ℕ)) (play : Play) (check : Check) → IsPlay words play → ¬ IsCheck words check }
    ensures no_check_of_number { (words : List (List ℕ)) (n : ℕ) (check : Check) → IsRehearse words n → ¬ IsCheck words check }
{}

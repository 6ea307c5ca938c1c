//! Laws of the benches: what they remember and give is what the definitions of the cycle say.

ghost use Rattle.std.specs.Prelude.{◌≡◌, ℕ, List, Option, map};
ghost use Rattle.activation.specs.jack_types.specs.declared.ports.Link.{Link as LinkValue};
ghost use Rattle.activation.specs.session_model.specs.Activation.{IsSequential, Machine, sequential};
ghost use Rattle.activation.specs.session_model.specs.Benches.{Signal, bench_after, bench_gives};
ghost use Rattle.activation.specs.session_model.specs.Kinds.{Sound};
ghost use Rattle.client_kinds.specs.Scores.{Score};
ghost use Rattle.client_benches.specs.Seen.{HasScores, Remembered, bench_in, kept_after, kept_gives};

/// A bench that knows its own guest's score plays and gives as one that knows the scores of all guests.
pub fn plays_by_all_scores()
    ensures after { (sound : Score → Sound) (scores : List Score) (kept : Remembered) (given : List (List Signal)) → HasScores scores kept → bench_in (map sound scores) (kept_after sound kept given) ≡ bench_after (bench_in (map sound scores) kept) given }
    ensures gives { (sound : Score → Sound) (scores : List Score) (kept : Remembered) (given : List (List Signal)) (place : ℕ) → HasScores scores kept → kept_gives sound kept given place ≡ bench_gives (bench_in (map sound scores) kept) given place }
    ensures scores { (sound : Score → Sound) (scores : List Score) (kept : Remembered) (given : List (List Signal)) → HasScores scores kept → HasScores scores (kept_after sound kept given) }
{}

/// So a crew of such benches plays what the definitions of the cycle say.
pub fn crew_plays_by_all_scores()
    ensures benches { (sound : Score → Sound) (scores : List Score) (links : List LinkValue) (before : ℕ → Remembered) → ((n : ℕ) → HasScores scores (before n))
        → (n : ℕ) → bench_in (map sound scores) (sequential (kept_after sound) (kept_gives sound) links before n) ≡ sequential bench_after bench_gives links (λ n. bench_in (map sound scores) (before n)) n }
    ensures machine { (sound : Score → Sound) (scores : List Score) (links : List LinkValue) (before now : ℕ → Remembered) (machine : Machine) (values : ℕ → Option (List Signal)) → ((n : ℕ) → HasScores scores (before n))
        → IsSequential (kept_after sound) (kept_gives sound) links before machine now values
        → IsSequential bench_after bench_gives links (λ n. bench_in (map sound scores) (before n)) machine (λ n. bench_in (map sound scores) (now n)) values }
{}

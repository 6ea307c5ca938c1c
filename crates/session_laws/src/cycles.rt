//! Laws of the cycles: a crew over a plan's benches plays what the definitions say.

ghost use Rattle.std.specs.Prelude.{◌≡◌, ℕ, suc, ◌^◌, ◌<◌, ◌≤◌, List, length, Option, None, Some};
ghost use Rattle.session_model.specs.jack_types.specs.declared.ports.Link.{Link as LinkValue};
ghost use Rattle.session_model.specs.Activation.{AtHome, IsSequential, Machine, place_of};
ghost use Rattle.session_model.specs.Benches.{Bench, IsPlan, HaveCycle, IsReady, Signal, bench_after, bench_gives, node_at};
ghost use Rattle.session_model.specs.Courses.{Course, first_state, graph, number};
ghost use Rattle.session_model.specs.Cycles.{cycle, player_born, settled_after};
ghost use Rattle.session_model.specs.Driving.{IsDriven, settled_from};
ghost use Rattle.session_model.specs.Kinds.{Memory};
ghost use Rattle.session_model.specs.Replies.{AreLawful};
ghost use Rattle.session_model.specs.State.{OpenClient};
ghost use Rattle.session_laws.specs.Solutions.{IsOneSolution};

/// The values of a cycle are the one solution of its equations: each port gives what its client plays on what the other ports give.
pub fn one_solution()
    ensures { (course : Course) (k : ℕ) → course.script.header.capture < 2 ^ 63 → course.script.header.playback < 2 ^ 63 → AreLawful (first_state course) course.changes
        → number course (suc k) ≤ length course.changes → IsOneSolution course (cycle course (suc k)).settled (cycle course (suc k)).now }
{}

/// Where a crew has played every node of a plan, its benches hold what the cycle has.
pub fn crew_plays_the_cycle()
    ensures { (course : Course) (k : ℕ) (nodes : List OpenClient) (links : List LinkValue) (before benches : ℕ → Bench) (machine : Machine) (values : ℕ → Option (List Signal))
        → IsPlan (graph course (suc k)) nodes links → IsReady course (settled_after course (suc k) (cycle course k)) nodes links before
        → IsSequential bench_after bench_gives links before machine benches values
        → ((n : ℕ) → n < length nodes → (n < length machine.places) × (place_of machine n ≡ AtHome))
        → HaveCycle (cycle course (suc k)) nodes benches }
{}

/// From behind one cycle to behind the next, with what is settled before it read from the benches.
pub fn crew_plays_on()
    ensures { (course : Course) (k : ℕ) (old_nodes : List OpenClient) (old_benches : ℕ → Bench) (held : ℕ → Option Memory) → IsDriven course k old_nodes old_benches held
        → (nodes : List OpenClient) (links : List LinkValue) (before benches : ℕ → Bench) (machine : Machine) (values : ℕ → Option (List Signal)) (now_held : ℕ → Option Memory)
        → IsPlan (graph course (suc k)) nodes links → IsReady course (settled_from course k old_nodes old_benches held) nodes links before
        → IsSequential bench_after bench_gives links before machine benches values
        → ((n : ℕ) → n < length nodes → (n < length machine.places) × (place_of machine n ≡ AtHome))
        → ((n : ℕ) → n < length nodes → now_held (node_at nodes n).birth ≡ Some (benches n).memory)
        → ((birth : ℕ) → player_born (graph course (suc k)) birth ≡ None → now_held birth ≡ held birth)
        → IsDriven course (suc k) nodes benches now_held }
{}

//! Laws of the activation machine, over any memories and values.

ghost use Rattle.std.specs.Prelude.{◌≡◌, ℕ, ◌<◌, List, length, map, true, Some};
ghost use Rattle.session_model.specs.jack_types.specs.declared.ports.Link.{Link as LinkValue};
ghost use Rattle.session_model.specs.Activation.{Allowed, AreLinks, AtHome, Benches, Does, IsConsistent, IsQuiet, IsRight, Machine, Move, fresh, given_to, incoming, is_released, moved, place_of, sequential, value_of};

/// Before any step counters, places and releases agree, and each step keeps that.
pub fn steps_keep_counters()
    ensures first { (nodes : ℕ) (links : List LinkValue) → IsConsistent links (fresh nodes links) }
    ensures step { (links : List LinkValue) (nodes : ℕ) → AreLinks nodes links → (seats : ℕ) (machine : Machine) (move : Move) → length machine.places ≡ nodes
        → IsConsistent links machine → Allowed links seats machine move → IsConsistent links (moved links machine move) }
    ensures nodes { (links : List LinkValue) (machine : Machine) (move : Move) → length (moved links machine move).places ≡ length machine.places }
{}

/// Where nothing is under way any more, every node is home and every link released.
pub fn quiet_is_finished()
    ensures homes { (links : List LinkValue) (machine : Machine) → AreLinks (length machine.places) links → IsConsistent links machine → IsQuiet machine
        → (n : ℕ) → n < length machine.places → place_of machine n ≡ AtHome }
    ensures links { (links : List LinkValue) (machine : Machine) → AreLinks (length machine.places) links → IsConsistent links machine → IsQuiet machine
        → (l : ℕ) → l < length links → is_released machine l ≡ true }
{}

/// Each step keeps benches and values those of the recursion, whatever order the steps come in.
pub fn steps_keep_values<M, V>()
    ensures given { (after : M → List V → M) (gives : M → List V → ℕ → V) (links : List LinkValue) (before : ℕ → M) (nodes : ℕ) → AreLinks nodes links
        → (n : ℕ) → given_to after gives links before n ≡ map (value_of after gives links before) (incoming links n) }
    ensures first { (after : M → List V → M) (gives : M → List V → ℕ → V) (links : List LinkValue) (before : ℕ → M) (nodes : ℕ) → AreLinks nodes links
        → (benches : Benches M V) → ((n : ℕ) → benches.memories n ≡ before n) → IsRight after gives links before (fresh nodes links) benches }
    ensures step { (after : M → List V → M) (gives : M → List V → ℕ → V) (links : List LinkValue) (before : ℕ → M) (machine : Machine) → AreLinks (length machine.places) links
        → (seats : ℕ) → IsConsistent links machine → (move : Move) (benches next : Benches M V) → Allowed links seats machine move → Does after gives links move benches next
        → IsRight after gives links before machine benches → IsRight after gives links before (moved links machine move) next }
{}

/// Where nothing is under way any more, every bench is what one play on its sources' values makes of it, and every link has its value.
pub fn quiet_is_sequential<M, V>()
    ensures memories { (after : M → List V → M) (gives : M → List V → ℕ → V) (links : List LinkValue) (before : ℕ → M) (machine : Machine) → AreLinks (length machine.places) links
        → IsConsistent links machine → IsQuiet machine → (benches : Benches M V) → IsRight after gives links before machine benches
        → (n : ℕ) → n < length machine.places → benches.memories n ≡ sequential after gives links before n }
    ensures values { (after : M → List V → M) (gives : M → List V → ℕ → V) (links : List LinkValue) (before : ℕ → M) (machine : Machine) → AreLinks (length machine.places) links
        → IsConsistent links machine → IsQuiet machine → (benches : Benches M V) → IsRight after gives links before machine benches
        → (l : ℕ) → l < length links → benches.values l ≡ Some (value_of after gives links before l) }
{}

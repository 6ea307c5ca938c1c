//! What a crew plays.

/// A bench: what a node of the graph plays.
///
/// A bench has a memory, places at which it has room for a value, and at each of these a value. The
/// room is there before the bench is played, so none of its calls takes memory. A place is that of an
/// outgoing link among all links that go out from the bench's node, counted from 0 in the order of the
/// list of links.
pub trait Work: Drop {
    /// What goes along a link.
    type Value: Send + Drop;
    /// What a bench remembers from one play to the next. No value of it is made.
    type Memory;

    ghost use Rattle.std.specs.Prelude.{◌≡◌, ◌≢◌, ◌<◌, ℕ, List, Bool, true, false, Option, All, IsSome};
    ghost use Rattle.activation.specs.Values.{values_of};

    /// What the bench remembers.
    ghost memory: { Self → Self.Memory };

    /// Whether the bench has room at this place.
    ghost has_room: { Self → ℕ → Bool };

    /// The value at this place.
    ghost value_at: { Self → ℕ → Self.Value };

    /// The memory behind a play on these values.
    ghost after: { Self.Memory → List Self.Value → Self.Memory };

    /// The value that a play on these values makes at a place.
    ghost gives: { Self.Memory → List Self.Value → ℕ → Self.Value };

    /// Plays on the values of the incoming links, in the order of the list of links.
    fn play(&mut self, given: &[Option<Self::Value>])
        requires given { All (λ value. IsSome value) given.now }
        ensures memory { memory self.new ≡ after (memory self.old) (values_of given.now) }
        ensures values { (place : ℕ) → has_room self.old place ≡ true → value_at self.new place ≡ gives (memory self.old) (values_of given.now) place }
        ensures room { (place : ℕ) → has_room self.new place ≡ has_room self.old place };

    /// Hands the value at this place out, with its room.
    fn hand(&mut self, place: u32) -> Self::Value
        requires room { has_room self.old place ≡ true }
        ensures value { result ≡ value_at self.old place }
        ensures memory { memory self.new ≡ memory self.old }
        ensures taken { has_room self.new place ≡ false }
        ensures others { (other : ℕ) → other ≢ place → (has_room self.new other ≡ has_room self.old other) × (value_at self.new other ≡ value_at self.old other) };

    /// Keeps the room of a value that was handed, so that there is room at this place again.
    ///
    /// A node has fewer outgoing links than there are nodes, so places are below 64.
    fn back(&mut self, place: u32, value: Self::Value)
        requires room { (place < 64) × (has_room self.old place ≡ false) }
        ensures memory { memory self.new ≡ memory self.old }
        ensures room { has_room self.new place ≡ true }
        ensures others { (other : ℕ) → other ≢ place → (has_room self.new other ≡ has_room self.old other) × (value_at self.new other ≡ value_at self.old other) };
}

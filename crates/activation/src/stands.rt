//! The steps of a core, and where a node stands in it.

/// What a seat does. The seat's number comes first.
#[derive(Clone, Copy, PartialEq, Eq, Debug)]
pub enum Step {
    /// The decrement for the start of a node.
    Start(u32, u32),
    /// The release of the link at this position.
    Release(u32, u32),
    /// The end of a node that the seat holds.
    Home(u32, u32),
}

/// Where a node stands.
#[derive(Clone, Copy, PartialEq, Eq, Debug)]
pub enum Stand {
    /// Its counter is above zero.
    Waiting,
    /// The seat of this number holds it.
    Held(u32),
    /// It was played and all its links were released.
    Home,
}

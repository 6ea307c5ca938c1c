//! How far a report was read.

/// How many lines of each kind a report of a script may have: all its cycles, recorders and disks, and at most so
/// many calls, meters and events.
#[derive(Clone, Copy, PartialEq, Eq, Debug)]
pub struct Limits {
    pub calls: u32,
    pub cycles: u32,
    pub meters: u32,
    pub events: u32,
    pub recorders: u32,
    pub disks: u32,
}

/// How far a report was read: the kind of the last line, and how many of that kind were read.
#[derive(Clone, Copy, PartialEq, Eq, Debug)]
pub enum Place {
    /// No line was read.
    Start,
    /// The first line, and so many calls.
    Calls(u32),
    /// So many cycles.
    Cycles(u32),
    /// So many meters.
    Meters(u32),
    /// So many events.
    Events(u32),
    /// So many recorders, and all overruns of the last one but so many.
    Recorders(u32, u32),
    /// So many disks, and all underruns of the last one but so many.
    Disks(u32, u32),
    /// The line `end`.
    Done,
}

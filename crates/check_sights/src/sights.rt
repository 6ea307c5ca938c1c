//! What a check sees.

use jack_types::Reply;

/// A number of a report's line, by the word that FORMATS has for it.
#[derive(Clone, Copy, PartialEq, Eq)]
pub enum Number {
    /// The number of changes behind which a cycle stands.
    Graph,
    /// The state of the transport, by its number in JACK: 0 stopped, 1 rolling, 3 starting.
    State,
    Frame,
    Bar,
    Beat,
    Tick,
    Peak,
    Cycle,
    Offset,
    Blocks,
    Sent,
    Taken,
}

/// What was expected at the first wrong place of a report or a file, and what stands there. It is for people: no clause rests
/// on it.
#[derive(Clone, Copy, PartialEq, Eq)]
pub enum Sight {
    /// Nothing more is known than the place.
    Nothing,
    /// This reply was expected of the call.
    Reply {
        wanted: Reply,
    },
    /// A number of the line.
    Number {
        what: Number,
        wanted: u64,
        found: u64,
    },
    /// A line that was expected does not stand there.
    Missing,
    /// A line that nothing asks for.
    Extra,
    /// A sample of a file: its cycle, counted from 1, its frame in that cycle and its channel, counted from 0, and the numbers as
    /// the file stores them, at 8 bits without a sign.
    Sample {
        cycle: u32,
        frame: u32,
        channel: u16,
        wanted: i32,
        found: i32,
    },
    /// A byte of the header of a file, or the pad byte at its end.
    Byte {
        wanted: u8,
        found: u8,
    },
    /// The file ends before what was expected.
    Short,
    /// The file goes on behind what was expected.
    Long,
}

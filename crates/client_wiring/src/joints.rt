//! Connections as a cycle sees them: by places, without names and ids.

/// An output of a client: its place among the client's audio outputs, or among its MIDI outputs, in order of birth.
#[derive(Clone, Copy, PartialEq, Eq, Debug)]
pub enum Output {
    Audio(usize),
    Midi(usize),
}

/// Where a connection has its audio from.
#[derive(Clone, Copy, PartialEq, Eq, Debug)]
pub enum Origin {
    /// A direct edge from a node: handed over the link of this place among those that come into the node, there the
    /// connection of this place.
    Handed {
        link: usize,
        connection: usize,
    },
    /// A feedback edge: what the audio output of this place of the client at this node gave in the last cycle; the port of
    /// this birth.
    Kept {
        node: usize,
        output: usize,
        birth: u32,
    },
    /// What is captured on this channel, counted from 0.
    Captured {
        channel: usize,
    },
}

/// A connection into an audio input of a node: the input's place among the client's audio inputs, in order of birth.
#[derive(Clone, Copy, PartialEq, Eq, Debug)]
pub struct Joint {
    pub node: usize,
    pub input: usize,
    pub origin: Origin,
}

/// A connection that a link carries: the node that it goes out from, the link's place among those that go out from this
/// node, and among all links of the plan, and the output that is carried.
#[derive(Clone, Copy, PartialEq, Eq, Debug)]
pub struct Carried {
    pub node: usize,
    pub place: usize,
    pub link: usize,
    pub output: Output,
}

/// An audio output of a node's client: the birth of its port, the node, and its place among the client's audio outputs, in
/// order of birth.
#[derive(Clone, Copy, PartialEq, Eq, Debug)]
pub struct Given {
    pub birth: u32,
    pub node: usize,
    pub output: usize,
}

/// Where a playback port has audio from.
#[derive(Clone, Copy, PartialEq, Eq, Debug)]
pub enum Sound {
    /// What the audio output of this place of the client at this node plays.
    Played { node: usize, output: usize },
    /// What is captured on this channel, counted from 0.
    Captured { channel: usize },
}

/// A connection into a playback port: the port's channel, counted from 0.
#[derive(Clone, Copy, PartialEq, Eq, Debug)]
pub struct Heard {
    pub channel: usize,
    pub sound: Sound,
}

/// How many audio inputs and audio outputs a client has.
#[derive(Clone, Copy, PartialEq, Eq, Debug)]
pub struct Widths {
    pub inputs: usize,
    pub outputs: usize,
}

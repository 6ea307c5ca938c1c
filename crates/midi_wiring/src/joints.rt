//! MIDI connections as a cycle sees them: by places and births, without names and ids.

/// Where a connection has its events from.
#[derive(Clone, Copy, PartialEq, Eq, Debug)]
pub enum MidiFrom {
    /// A direct edge from a node: what its client plays in the same cycle.
    Played(usize),
    /// A feedback edge: what the MIDI output of this birth gave in the last cycle.
    Kept(u32),
    /// No client.
    Nothing,
}

/// A connection into a MIDI input of a node: the input's place among the client's MIDI inputs, in order of birth.
#[derive(Clone, Copy, PartialEq, Eq, Debug)]
pub struct MidiJoint {
    pub node: usize,
    pub input: usize,
    pub from: MidiFrom,
}

/// A MIDI output of a node's client: the birth of its port, and the node.
#[derive(Clone, Copy, PartialEq, Eq, Debug)]
pub struct MidiGiven {
    pub birth: u32,
    pub node: usize,
}

/// How many MIDI inputs and MIDI outputs a client has.
#[derive(Clone, Copy, PartialEq, Eq, Debug)]
pub struct MidiWidths {
    pub inputs: usize,
    pub outputs: usize,
}

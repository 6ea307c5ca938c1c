//! Words of the driver of the cycles, for the crates that move its data and for the laws above: files, rings, disks and MIDI as
//! contracts see them. It has no code of its own.
#![tactic(auto)]

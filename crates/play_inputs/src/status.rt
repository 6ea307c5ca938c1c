//! How a run ended, and what can differ.

use check_sights::Sight;
use jack_types::{Row, ScriptFault, WaveFault};

/// What a script and the files or guests that it is played with differ in.
#[derive(Clone, Copy, Debug, PartialEq, Eq)]
pub enum What {
    /// How many guests the script needs, and how many there are.
    Guests,
    /// How many recorders the script has, and how many files are named for them.
    Records,
    /// The script's rate and the capture's, in frames a second.
    Rate,
    /// The script's capture channels and the capture's.
    Channels,
    /// How many disk files the script has, and how many are named.
    Disks,
    /// The script's rate and a disk file's, in frames a second.
    DiskRate,
    /// The channels of a `disk` line and of its file.
    DiskChannels,
}

impl What {
    ghost use Rattle.std.specs.Prelude.{◌≡◌, ◌≤◌, length};
    ghost use Rattle.play_inputs.specs.FaultLines.{what_name};

    /// The name that a fault line prints.
    pub fn name(&self) -> &'static str
        ensures name { result.now ≡ what_name self.now }
        ensures short { length result.now ≤ 12 }
    {
        match self {
            What::Guests => "Guests",
            What::Records => "Records",
            What::Rate => "Rate",
            What::Channels => "Channels",
            What::Disks => "Disks",
            What::DiskRate => "DiskRate",
            What::DiskChannels => "DiskChannels",
        }
    }
}

/// A number of the script, and the other one that was given.
#[derive(Clone, Copy, Debug, PartialEq, Eq)]
pub struct Difference {
    pub what: What,
    pub script: u32,
    pub given: u32,
}

/// How a run ended.
#[derive(Clone, Copy, PartialEq, Eq)]
pub enum Status {
    /// All was done.
    Ok,
    /// No memory was found. No file was made.
    NoMemory,
    /// The words are none of a command.
    Words,
    /// A file could not be opened or read.
    ReadFault,
    /// The capture, or a disk file, is no WAVE file that is read.
    BadWave(WaveFault),
    /// The script is faulty, or is not checked.
    BadScript(ScriptFault),
    /// A file or the report could not be written.
    WriteFault,
    /// The script and what it is played with differ.
    Differs(Difference),
    /// A report does not explain its files: the first wrong part, and what was seen there.
    Wrong(Row, Sight),
}

impl Status {
    ghost use Rattle.std.specs.Prelude.{◌≡◌};
    ghost use Rattle.play_inputs.specs.Statuses.{code_of};

    /// The exit code: 0 to 8, in the order of the statuses.
    pub fn code(&self) -> u8
        ensures { result ≡ code_of self.now }
    {
        match self {
            Status::Ok => 0,
            Status::NoMemory => 1,
            Status::Words => 2,
            Status::ReadFault => 3,
            Status::BadWave(_) => 4,
            Status::BadScript(_) => 5,
            Status::WriteFault => 6,
            Status::Differs(_) => 7,
            Status::Wrong(..) => 8,
        }
    }
}

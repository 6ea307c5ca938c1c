//! The disk files of a play, opened through a host in memory.

ghost use Rattle.std.specs.Prelude.{◌≡◌, ◌<◌};
ghost use Rattle.host_memory.specs.MemoryHost.{host_lent};

use crate::files::TEN;
use disk_inputs::{Against, Difference, DiskFault, What, open_disks};
use host_memory::MemoryHost;
use jack_host::Host;
use jack_types::WaveFault;
use play_words::play_names;
use std::alloc::Global;
use std::process::Abort;

const WORDS: [&str; 8] = ["play", "s", "c", "p", "--disk", "a", "--disk", "b"];

/// No file is read so often.
const NO_READ: u32 = 99;

/// The files of two disks: that of the first one is of ten samples.
#[derive(Clone, Copy)]
struct Case {
    /// The file of the second one, if there is one.
    second: Option<&'static [u8]>,
    /// The read of that file that fails, counted from 1.
    refused: u32,
    /// What the script tells.
    rate: u32,
    channels: [u16; 2],
    /// How many files are opened, or what stands against them.
    wanted: Result<usize, DiskFault>,
}

/// Two files, each of one channel and 8,000 frames a second.
const BOTH: Case = Case {
    second: Some(TEN),
    refused: NO_READ,
    rate: 8_000,
    channels: [1, 1],
    wanted: Ok(2),
};

const CASES: [Case; 6] = [
    BOTH,
    // The first difference is told.
    Case {
        channels: [1, 2],
        wanted: Err(DiskFault::Unfit(
            1,
            Against::Other(Difference {
                what: What::DiskChannels,
                script: 2,
                given: 1,
            }),
        )),
        ..BOTH
    },
    // The rate is before the channels, and the first file before one that is not there.
    Case {
        second: None,
        rate: 44_100,
        channels: [2, 1],
        wanted: Err(DiskFault::Unfit(
            0,
            Against::Other(Difference {
                what: What::DiskRate,
                script: 44_100,
                given: 8_000,
            }),
        )),
        ..BOTH
    },
    // What is no WAVE file is told.
    Case {
        second: Some(b"RIFX\0\0\0\0WAVE"),
        wanted: Err(DiskFault::Unfit(1, Against::Bad(WaveFault::NotRiff))),
        ..BOTH
    },
    // A missing name is a failed read.
    Case {
        second: None,
        wanted: Err(DiskFault::Read),
        ..BOTH
    },
    // A refused read is told.
    Case {
        refused: 2,
        wanted: Err(DiskFault::Read),
        ..BOTH
    },
];

fn add_file(rt: &impl Abort, host: &mut MemoryHost, name: &str, bytes: &[u8])
    ensures { host_lent host.new ≡ host_lent host.old }
{
    if host.file(name).is_none() {
        assert!(rt; host.add(name, bytes).is_ok(), "room for a file");
    }
}

fn add_second(rt: &impl Abort, host: &mut MemoryHost, second: Option<&[u8]>)
    ensures { host_lent host.new ≡ host_lent host.old }
{
    if let Some(bytes) = second {
        add_file(rt, host, "b", bytes);
    }
}

/// A host of the two files.
fn host_of(rt: &impl Abort, alloc: Global, second: Option<&[u8]>, refused: u32) -> MemoryHost
    ensures { host_lent result ≡ 0 }
{
    let mut host = MemoryHost::new(alloc);
    add_file(rt, &mut host, "a", TEN);
    add_second(rt, &mut host, second);
    assert!(rt; host.refuse("b", refused).is_ok(), "room for a refusal");
    host
}

fn list_of(rt: &impl Abort, alloc: Global) -> Vec<String> {
    let mut list = Vec::new(alloc);
    for word in WORDS {
        let word = String::from_str(alloc, word).expect(rt, "room for a word");
        list.push(word).expect(rt, "room for a word");
    }
    list
}

/// Opens the files of two disks: how many were opened.
fn opened<H: Host>(
    rt: &impl Abort,
    alloc: Global,
    host: &mut H,
    rate: u32,
    channels: &[u16],
) -> Result<usize, DiskFault>
    requires { H.lent host.old < 900 }
{
    let words = list_of(rt, alloc);
    let Some(names) = play_names(&words) else {
        panic!(rt; "names");
    };
    assert_eq!(rt; names.disks(), channels.len());
    match open_disks(alloc, host, &names, rate, channels) {
        Ok(waves) => Ok(waves.len()),
        Err(fault) => Err(fault),
    }
}

#[test]
fn files_are_opened_or_the_first_fault_is_told(rt: HostRuntime) {
    for case in &CASES {
        let mut host = host_of(&rt, rt.alloc(), case.second, case.refused);
        let found = opened(&rt, rt.alloc(), &mut host, case.rate, &case.channels);
        assert!(rt; found == case.wanted);
    }
}

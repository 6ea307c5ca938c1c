//! The readers of a segment, each in a thread of its own.

ghost use Rattle.std.specs.Prelude.{◌≡◌, ◌<◌, All, false, length, true};
ghost use Rattle.disk_files.specs.Serving.{AreRead, HaveFailed, IsGoing, ReadBy};

use crate::reader::DiskReader;
use jack_host::{Gate, Source};
use std::sync::Wait;
use std::sync::atomic::AtomicBool;
use std::thread;
use std::thread::Threads;

/// Reads on for one ring. Whether a read failed is told by the reader.
fn read_one<S: Source, R: Wait, G: Gate>(
    wait: &R,
    gate: &G,
    reader: &mut DiskReader<S>,
    place: u8,
    over: &AtomicBool,
)
    requires { IsGoing reader.old }
    ensures { ReadBy reader.old reader.new }
{
    let _ = reader.read_on(wait, gate, place, over);
}

/// Reads on for all rings, until each has its end, or `over` says that the cycles are over.
pub fn read_all<S: Source + Send, T: Threads + Sync, R: Wait + Sync, G: Gate>(
    threads: &T,
    wait: &R,
    gate: &G,
    readers: &mut [DiskReader<S>],
    over: &AtomicBool,
)
    requires few { length readers.old < 256 }
    requires going { All IsGoing readers.old }
    ensures many { length readers.new ≡ length readers.old }
    ensures read { AreRead readers.old readers.new }
{
    if readers.is_empty() {
        return;
    }
    let count = readers.len();
    let one = |place: usize, reader: &mut DiskReader<S>|
        requires { (place < 256) × IsGoing reader.old }
        ensures { ReadBy reader.entry.now reader.exit.now }
    { read_one(wait, gate, reader, place as u8, over) };
    thread::for_each_mut(threads, readers, count, &one);
}

/// Whether a read of one of these readers' files failed.
pub fn has_failed<S: Source>(readers: &[DiskReader<S>]) -> bool
    ensures whole { result ≡ false → All IsGoing readers.now }
    ensures torn { result ≡ true → HaveFailed readers.now }
{
    for reader in readers {
        if reader.failed() {
            return true;
        }
    }
    false
}

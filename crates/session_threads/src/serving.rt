//! The recorders of a `run` segment, each in a thread of its own.

ghost use Rattle.std.specs.Prelude.{◌≡◌, ◌<◌, All, false, length, true};
ghost use Rattle.session_threads.specs.Serving.{AreServed, HaveFailed, IsUntorn, MayServe, ServedBy};

use jack_host::{Gate, Store};
use recorder_files::Recorder;
use std::sync::Wait;
use std::thread;
use std::thread::Threads;

/// Serves a recorder's ring up to its end. Whether a write failed is told by the recorder.
fn serve_one<R: Wait, W: Store, K: Gate>(wait: &R, gate: &K, recorder: &mut Recorder<W>, place: u8)
    requires { MayServe recorder.old }
    ensures { ServedBy recorder.old recorder.new }
{
    let _ = recorder.serve(wait, gate, place);
}

/// Serves the rings of all recorders up to their ends.
pub(crate) fn serve_all<T: Threads + Sync, R: Wait + Sync, W: Store + Send, K: Gate>(
    threads: &T,
    wait: &R,
    gate: &K,
    recorders: &mut [Recorder<W>],
)
    requires few { length recorders.old < 256 }
    requires may { All MayServe recorders.old }
    ensures many { length recorders.new ≡ length recorders.old }
    ensures served { AreServed recorders.old recorders.new }
{
    if recorders.is_empty() {
        return;
    }
    let count = recorders.len();
    let one = |place: usize, recorder: &mut Recorder<W>|
        requires { (place < 256) × MayServe recorder.old }
        ensures { ServedBy recorder.entry.now recorder.exit.now }
    { serve_one(wait, gate, recorder, place as u8) };
    thread::for_each_mut(threads, recorders, count, &one);
}

/// Whether a write of one of these recorders failed.
pub(crate) fn has_failed<W: Store>(recorders: &[Recorder<W>]) -> bool
    ensures whole { result ≡ false → All IsUntorn recorders.now }
    ensures torn { result ≡ true → HaveFailed recorders.now }
{
    for recorder in recorders {
        if recorder.failed() {
            return true;
        }
    }
    false
}

//! A recorder with a ring of two blocks: its script in pieces, its capture, and runs in which each block is drained.

ghost use Rattle.std.specs.Prelude.{◌≡◌, IfOk};
ghost use Rattle.host_memory.specs.MemoryHost.{host_lent};

use crate::building::{host_with, text, wave};
use crate::running::{Played, RECORD, run_under};
use host_memory::{MemoryHost, MemorySink};
use jack_host::{FreeGate, Gate};
use jack_types::Format;
use std::alloc::Global;
use std::sync::Wait;
use std::test::Fail;
use std::thread::Threads;

/// 8,000 frames a second of one channel, in 16 bits.
pub const FORMAT: Format = Format {
    rate: 8000,
    channels: 1,
    bits: 16,
};

// The header up to its mode.
const DEVICE: &str = "\
jackd 1
rate 8000
period 4
capture 1
playback 1 16
";

/// The mode's line of one thread.
pub const SERIAL: &str = "mode serial\n";

/// That of threads with so many workers.
pub const ONE_WORKER: &str = "mode threads 1\n";

pub const TWO_WORKERS: &str = "mode threads 2\n";

pub const FOUR_WORKERS: &str = "mode threads 4\n";

// The header's optional lines, with a ring that is drained in each cycle.
const DRAINED_RING: &str = "\
ring 2
drain 64
recorder 1 16
";

// The calls, by which the recorder gets the capture.
const CALLS: &str = "\
do open tape record 0
do register tape:in in audio
do activate tape
do connect system:capture_1 tape:in
";

/// The samples of the capture.
pub const SAMPLES: [i32; 20] = [
    1, 2, 3, 4, 5, 6, 7, 8, 9, 10, 11, 12, 13, 14, 15, 16, 17, 18, 19, 20,
];

/// A host with the script that drains its ring, in this mode and with this body behind its calls, and the capture.
pub fn drained_host(alloc: Global, mode: &str, body: &str) -> Result<MemoryHost, Fail>
    ensures { IfOk result (λ host. host_lent host ≡ 0) }
{
    let script = text(alloc, &[DEVICE, mode, DRAINED_RING, CALLS, body])?;
    host_with(alloc, script.as_bytes(), &wave(alloc, FORMAT, &SAMPLES)?)
}

/// Plays what a host has, with one recorder, under a gate.
pub fn play_under<R: Threads + Wait + Sync + AllocGlobal, K: Gate>(
    rt: &R,
    host: MemoryHost,
    out: MemorySink,
    gate: &K,
) -> Result<Played, Fail>
    requires { host_lent host ≡ 0 }
{
    let mut host = host;
    let mut out = out;
    let status = run_under(rt, &RECORD, &mut host, &mut out, Vec::new(rt.alloc()), gate)?;
    Ok(Played { status, host, out })
}

/// Plays what a host has, with one recorder.
pub fn play_over<R: Threads + Wait + Sync + AllocGlobal>(
    rt: &R,
    host: MemoryHost,
    out: MemorySink,
) -> Result<Played, Fail>
    requires { host_lent host ≡ 0 }
{
    play_under(rt, host, out, &FreeGate)
}

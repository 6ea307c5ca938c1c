//! Runs of the top call.

ghost use Rattle.std.specs.Prelude.{◌<◌};

use crate::building::{host_with, text};
use guests::AnyGuest;
use host_memory::{MemoryHost, MemorySink};
use jack_control::{Status, jackd};
use jack_host::{FreeGate, Gate, Host};
use std::alloc::Global;
use std::process::Abort;
use std::sync::Wait;
use std::test::Fail;
use std::thread::Threads;

/// The words of a play without recorders.
pub const PLAY: [&str; 4] = ["play", "s", "c", "p"];

/// The words of a play with one recorder.
pub const RECORD: [&str; 6] = ["play", "s", "c", "p", "--record", "r"];

/// How a run ended, and what stands behind it.
#[derive(Drop)]
pub struct Played {
    pub status: Status,
    pub host: MemoryHost,
    pub out: MemorySink,
}

fn list_of(alloc: Global, words: &[&str]) -> Result<Vec<String>, Fail> {
    let mut list = Vec::new(alloc);
    for word in words {
        list.push(String::from_str(alloc, word)?)?;
    }
    Ok(list)
}

/// Runs the words over a host, under a gate.
pub fn run_under<R: Threads + Wait + Sync + AllocGlobal, H: Host, K: Gate>(
    rt: &R,
    words: &[&str],
    host: &mut H,
    out: &mut MemorySink,
    guests: Vec<AnyGuest>,
    gate: &K,
) -> Result<Status, Fail>
    requires { H.lent host.old < 900 }
{
    let list = list_of(rt.alloc(), words)?;
    Ok(jackd(rt, rt, rt.alloc(), &list, host, out, guests, gate))
}

/// Runs the words over a host.
pub fn run<R: Threads + Wait + Sync + AllocGlobal, H: Host>(
    rt: &R,
    words: &[&str],
    host: &mut H,
    out: &mut MemorySink,
    guests: Vec<AnyGuest>,
) -> Result<Status, Fail>
    requires { H.lent host.old < 900 }
{
    run_under(rt, words, host, out, guests, &FreeGate)
}

/// Runs the words over a host with a script, in pieces, and a capture, with guests, under a gate.
pub fn play_with<R: Threads + Wait + Sync + AllocGlobal, K: Gate>(
    rt: &R,
    words: &[&str],
    script: &[&str],
    capture: &[u8],
    guests: Vec<AnyGuest>,
    gate: &K,
) -> Result<Played, Fail> {
    let script = text(rt.alloc(), script)?;
    let mut host = host_with(rt.alloc(), script.as_bytes(), capture)?;
    let mut out = MemorySink::new(rt.alloc());
    let status = run_under(rt, words, &mut host, &mut out, guests, gate)?;
    Ok(Played { status, host, out })
}

/// Runs the words over a host with a script, in pieces, and a capture.
pub fn play<R: Threads + Wait + Sync + AllocGlobal>(
    rt: &R,
    words: &[&str],
    script: &[&str],
    capture: &[u8],
) -> Result<Played, Fail> {
    play_with(rt, words, script, capture, Vec::new(rt.alloc()), &FreeGate)
}

/// Compares a file.
pub fn has_file(rt: &impl Abort, played: &Played, name: &str, bytes: &[u8]) {
    assert_eq!(rt; played.host.file(name), Some(bytes), "{name}");
}

/// Compares how many bytes a file has.
pub fn has_length(rt: &impl Abort, played: &Played, name: &str, length: usize) {
    let file = played.host.file(name);
    assert_eq!(rt; file.map(|bytes| bytes.len()), Some(length), "{name}");
}

/// Compares what was put out.
pub fn has_out(rt: &impl Abort, played: &Played, text: &str) {
    assert_eq!(rt; str::from_utf8(played.out.as_bytes()), Ok(text));
}

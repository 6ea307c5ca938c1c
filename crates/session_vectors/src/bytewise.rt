//! A host whose inputs give one byte per read.

use crate::building::{MONO, host_with, wave};
use crate::checking::{CHECK, played_host};
use crate::overruns::SAMPLES;
use crate::running::{PLAY, run};
use host_memory::{MemoryHost, MemorySink, MemorySource, MemoryStore};
use jack_control::Status;
use jack_host::{Failed, Host, Source};
use std::sync::Wait;
use std::test::Fail;
use std::thread::Threads;

/// An input that gives one byte per read.
#[derive(Drop)]
struct SlowSource {
    inner: MemorySource,
}

impl Source for SlowSource {
    ghost use Rattle.std.specs.Prelude.{Some};
    ghost use Rattle.host_memory.specs.Memory.{source_left, source_faults};

    ghost left = { λ s. Some (source_left s.inner) };

    ghost faults = { λ s. source_faults s.inner };

    fn read(&mut self, buffer: &mut [u8]) -> Result<usize, Failed> {
        let most = buffer.len().min(1);
        self.inner.read(&mut buffer[..most])
    }
}

/// A host in memory with such inputs.
#[derive(Drop)]
struct SlowHost {
    inner: MemoryHost,
}

impl Host for SlowHost {
    ghost use Rattle.std.specs.Prelude.{Some};
    ghost use Rattle.host_memory.specs.MemoryHost.{host_files, host_read_faults, host_write_faults, host_lent};

    type In = SlowSource;

    type Out = MemoryStore;

    ghost files = { λ h. Some (host_files h.inner) };

    ghost read_faults = { λ h. host_read_faults h.inner };

    ghost write_faults = { λ h. host_write_faults h.inner };

    ghost lent = { λ h. host_lent h.inner };

    fn open_in(&mut self, name: &str) -> Result<SlowSource, Failed> {
        let inner = self.inner.open_in(name)?;
        Ok(SlowSource { inner })
    }

    fn back(&mut self, input: SlowSource) {
        self.inner.back(input.inner);
    }

    fn make_out(&mut self, name: &str) -> Result<MemoryStore, Failed> {
        self.inner.make_out(name)
    }

    fn done(&mut self, output: MemoryStore) -> Result<(), Failed> {
        self.inner.done(output)
    }

    fn give_up(&mut self, output: MemoryStore) {
        self.inner.give_up(output);
    }
}

const SCRIPT: &str = "\
jackd 1
rate 48000
period 4
capture 1
playback 1 16
mode serial
do connect system:capture_1 system:playback_1
run 2
";

#[test]
fn one_byte_per_read_is_enough(rt: HostRuntime) -> Result<(), Fail> {
    let capture = wave(rt.alloc(), MONO, &[1, 2, 3, 4, 5])?;
    let playback = wave(rt.alloc(), MONO, &[1, 2, 3, 4, 5, 0, 0, 0])?;
    let mut host = SlowHost {
        inner: host_with(rt.alloc(), SCRIPT.as_bytes(), &capture)?,
    };
    let mut out = MemorySink::new(rt.alloc());
    let status = run(&rt, &PLAY, &mut host, &mut out, Vec::new(rt.alloc()))?;
    assert!(rt; status == Status::Ok);
    assert_eq!(rt; host.inner.file("p"), Some(playback.as_slice()));
    Ok(())
}

// What a check of a session with these samples as its record puts out.
fn checked<R: Threads + Wait + Sync + AllocGlobal>(
    rt: &R,
    samples: &[i32],
) -> Result<MemorySink, Fail> {
    let mut host = SlowHost {
        inner: played_host(rt.alloc(), samples)?,
    };
    let mut out = MemorySink::new(rt.alloc());
    run(rt, &CHECK, &mut host, &mut out, Vec::new(rt.alloc()))?;
    Ok(out)
}

// Sample 8 stands at byte 44 + 16.
#[test]
fn one_byte_per_read_is_enough_for_a_check(rt: HostRuntime) -> Result<(), Fail> {
    let right = checked(&rt, &SAMPLES)?;
    assert_eq!(rt; right.as_bytes(), b"check ok\n".as_slice());
    let mut other = SAMPLES;
    other[8] = 0;
    let wrong = checked(&rt, &other)?;
    assert_eq!(rt; wrong.as_bytes(), b"check wrong record 0 60\n".as_slice());
    Ok(())
}

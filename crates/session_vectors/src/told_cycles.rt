//! Which cycles a gate is told of.

use crate::overruns::{SERIAL, TWO_WORKERS, drained_host, play_under};
use host_memory::MemorySink;
use jack_control::Status;
use jack_host::Gate;
use std::sync::atomic::{AtomicU64, Ordering};
use std::test::Fail;

// Counts the cycles that it is told, and those that are not the next.
#[derive(Drop)]
struct CountingGate {
    cycles: AtomicU64,
    astray: AtomicU64,
}

impl CountingGate {
    fn new() -> CountingGate {
        CountingGate {
            cycles: AtomicU64::new(0),
            astray: AtomicU64::new(0),
        }
    }

    // How many cycles it was told.
    fn cycles(&self) -> u64 {
        self.cycles.load(Ordering::SeqCst)
    }

    // How many of them were not the next.
    fn astray(&self) -> u64 {
        self.astray.load(Ordering::SeqCst)
    }
}

impl Gate for CountingGate {
    fn before_cycle(&self, cycle: u32) {
        let told = self.cycles.fetch_add(1, Ordering::SeqCst);
        if u64::from(cycle) != told.wrapping_add(1) {
            self.astray.fetch_add(1, Ordering::SeqCst);
        }
    }

    fn before_call(&self, _lane: u8, _index: u32) {}

    fn after_call(&self, _lane: u8, _index: u32) {}

    fn before_client(&self, _worker: u32, _node: u32) {}

    fn before_block(&self, _recorder: u8) {}

    fn before_turn(&self, _disk: u8) {}
}

#[test]
fn each_cycle_is_told_to_the_gate(rt: HostRuntime) -> Result<(), Fail> {
    for mode in [SERIAL, TWO_WORKERS] {
        let gate = CountingGate::new();
        let host = drained_host(rt.alloc(), mode, "run 3\nfreewheel 4\nrun 2\n")?;
        let played = play_under(&rt, host, MemorySink::new(rt.alloc()), &gate)?;
        assert!(rt; played.status == Status::Ok, "{mode}");
        assert_eq!(rt; gate.cycles(), 9, "{mode}");
        assert_eq!(rt; gate.astray(), 0, "{mode}");
    }
    Ok(())
}

// How many cycles had begun when a play of periods of eight bytes left this playback behind: one more than stand in it.
fn begun(playback: Option<&[u8]>) -> u64 {
    match playback {
        Some(bytes) => (bytes.len() as u64).saturating_sub(36) / 8,
        None => 0,
    }
}

#[test]
fn a_cycle_is_told_before_its_capture_is_read(rt: HostRuntime) -> Result<(), Fail> {
    for call in 0..64_u32 {
        let gate = CountingGate::new();
        let mut host = drained_host(rt.alloc(), SERIAL, "run 5\n")?;
        assert!(rt; host.refuse("c", call).is_ok());
        let played = play_under(&rt, host, MemorySink::new(rt.alloc()), &gate)?;
        if played.status == Status::Ok {
            assert!(rt; call > 5, "each cycle reads the capture");
            return Ok(());
        }
        assert_eq!(rt; gate.cycles(), begun(played.host.file("p")), "call {call}");
    }
    panic!(rt; "the capture is read more than 64 times")
}

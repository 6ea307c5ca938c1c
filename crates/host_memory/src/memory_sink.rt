ghost use Rattle.std.specs.Prelude.{◌≡◌, ◌+◌, ◌≤◌, ◌^◌, [], ◌∷◌, ◌++◌, Some, OnOk, OnErr, length, Contains};
ghost use Rattle.jack_host.specs.Causes.{Rose, HasCause};

use crate::refusals::is_refused;
use jack_host::{Failed, Sink};
use jack_types::Memory;
use std::alloc::Global;

/// A report in memory.
#[derive(Drop)]
pub struct MemorySink {
    bytes: Vec<u8>,
    faults: u64,
    wants: u64,
    next: u64,
    refused: Vec<u32>,
}

impl MemorySink {
    ghost use Rattle.host_memory.specs.Memory.{sink_bytes, sink_faults, sink_wants, sink_next, sink_refused};

    /// An empty report, that refuses nothing.
    pub fn new(alloc: Global) -> MemorySink
        ensures bytes { sink_bytes result ≡ [] }
        ensures faults { sink_faults result ≡ 0 }
        ensures wants { sink_wants result ≡ 0 }
        ensures next { sink_next result ≡ 1 }
        ensures refused { sink_refused result ≡ [] }
    {
        MemorySink {
            bytes: Vec::new(alloc),
            faults: 0,
            wants: 0,
            next: 1,
            refused: Vec::new(alloc),
        }
    }

    /// Makes the put of this number fail, counted from 1.
    pub fn refuse(&mut self, call: u32) -> Result<(), Memory>
        ensures ok { OnOk result (sink_refused self.new ≡ sink_refused self.old ++ call ∷ []) }
        ensures err { OnErr result (sink_refused self.new ≡ sink_refused self.old) }
        ensures bytes { sink_bytes self.new ≡ sink_bytes self.old }
        ensures faults { sink_faults self.new ≡ sink_faults self.old }
        ensures wants { sink_wants self.new ≡ sink_wants self.old }
        ensures next { sink_next self.new ≡ sink_next self.old }
    {
        self.refused.push(call).map_err(|_| Memory)
    }

    /// The bytes that were put.
    pub fn as_bytes(&self) -> &[u8]
        ensures { result.now ≡ sink_bytes self.now }
    {
        &self.bytes
    }
}

impl Sink for MemorySink {
    ghost use Rattle.std.specs.Prelude.{Some};

    ghost content = { λ s. Some s.bytes.items };

    ghost faults = { λ s. s.faults };

    ghost use Rattle.std.specs.Prelude.{◌⊎◌, ◌≡◌, ◌≤◌, ◌+◌, ◌-◌, ◌^◌, IsErr, OnErr, OnOk, Contains, min, length};
    ghost use Rattle.jack_host.specs.Causes.{Rose, HasCause};
    ghost use Rattle.jack_host.specs.Bytes.{Puts};
    ghost use Rattle.host_memory.specs.Memory.{sink_bytes, sink_faults, sink_wants, sink_next, sink_refused};

    fn put(&mut self, bytes: &[u8]) -> Result<(), Failed>
        ensures bytes { Puts (Some (sink_bytes self.old)) (Some (sink_bytes self.new)) result bytes.now }
        ensures cause { HasCause (sink_faults self.old) (sink_faults self.new) result }
        ensures once { sink_faults self.new ≤ sink_faults self.old + 1 }

        // It fails where it is refused, and else only for its own want of memory. Then nothing was put.
        ensures refused { Contains (sink_refused self.old) (sink_next self.old) → IsErr result }
        ensures failed { OnErr result (Contains (sink_refused self.old) (sink_next self.old) ⊎ Rose (sink_wants self.old) (sink_wants self.new)) }
        ensures nothing { OnErr result (sink_bytes self.new ≡ sink_bytes self.old) }
        ensures wants { OnOk result (sink_wants self.new ≡ sink_wants self.old) }
        ensures next { sink_next self.new ≡ min (sink_next self.old + 1) (2 ^ 64 - 1) }
        ensures same { sink_refused self.new ≡ sink_refused self.old }
    {
        let number = self.next;
        self.next = self.next.saturating_add(1);
        if is_refused(&self.refused, number) {
            self.faults = self.faults.saturating_add(1);
            return Err(Failed);
        }
        if self.bytes.extend_from_slice(bytes).is_err() {
            self.wants = self.wants.saturating_add(1);
            self.faults = self.faults.saturating_add(1);
            return Err(Failed);
        }
        Ok(())
    }
}

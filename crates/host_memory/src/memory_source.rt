ghost use Rattle.std.specs.Prelude.{◌≡◌, ◌+◌, ◌≤◌, ◌^◌, [], ◌∷◌, ◌++◌, ◌↔◌, Some, None, IfOk, OnOk, OnErr, drop, take, length, ◌<◌, IsTrue, Contains};
ghost use Rattle.jack_host.specs.Causes.{HasCause};

use crate::refusals::is_refused;
use jack_host::{Failed, Source};
use jack_types::Memory;
use std::alloc::Global;

/// Bytes in memory that are read.
#[derive(Drop)]
pub struct MemorySource {
    bytes: Vec<u8>,
    at: usize,
    pub(crate) faults: u64,
    next: u64,
    refused: Vec<u32>,
    ghost in_range: { at ≤ length bytes.items },
}

impl MemorySource {
    ghost use Rattle.host_memory.specs.Memory.{source_left, source_faults, source_next, source_refused};

    /// A source of these bytes, that refuses nothing.
    pub fn new(alloc: Global, bytes: Vec<u8>) -> MemorySource
        ensures left { source_left result ≡ bytes.items }
        ensures faults { source_faults result ≡ 0 }
        ensures next { source_next result ≡ 1 }
        ensures refused { source_refused result ≡ [] }
    {
        MemorySource::with_refusals(bytes, Vec::new(alloc))
    }

    /// A source of these bytes, that refuses these reads.
    pub(crate) fn with_refusals(bytes: Vec<u8>, refused: Vec<u32>) -> MemorySource
        ensures left { source_left result ≡ bytes.items }
        ensures faults { source_faults result ≡ 0 }
        ensures next { source_next result ≡ 1 }
        ensures refused { source_refused result ≡ refused.items }
    {
        MemorySource {
            bytes,
            at: 0,
            faults: 0,
            next: 1,
            refused,
        }
    }

    /// Makes the read of this number fail, counted from 1.
    pub fn refuse(&mut self, call: u32) -> Result<(), Memory>
        ensures ok { OnOk result (source_refused self.new ≡ source_refused self.old ++ call ∷ []) }
        ensures err { OnErr result (source_refused self.new ≡ source_refused self.old) }
        ensures left { source_left self.new ≡ source_left self.old }
        ensures faults { source_faults self.new ≡ source_faults self.old }
        ensures next { source_next self.new ≡ source_next self.old }
    {
        self.refused.push(call).map_err(|_| Memory)
    }

    /// The bytes that were not read yet.
    pub fn as_bytes(&self) -> &[u8]
        ensures { result.now ≡ source_left self.now }
    {
        &self.bytes[self.at..]
    }

    // Gives the next bytes.
    fn give(&mut self, buffer: &mut [u8]) -> usize
        ensures bound { result ≤ length buffer.new }
        ensures bytes { source_left self.old ≡ take result buffer.new ++ source_left self.new }
        ensures end { result ≡ 0 → 0 < length buffer.new → source_left self.new ≡ [] }
        ensures faults { source_faults self.new ≡ source_faults self.old }
        ensures next { source_next self.new ≡ source_next self.old }
        ensures refused { source_refused self.new ≡ source_refused self.old }
    {
        let count = buffer.len().min(self.bytes.len() - self.at);
        buffer[..count].copy_from_slice(&self.bytes[self.at..self.at + count]);
        self.at += count;
        count
    }
}

impl Source for MemorySource {
    ghost use Rattle.std.specs.Prelude.{Some, drop};

    ghost left = { λ s. Some (drop s.at s.bytes.items) };

    ghost faults = { λ s. s.faults };

    ghost use Rattle.std.specs.Prelude.{◌↔◌, ◌≡◌, ◌+◌, ◌-◌, ◌^◌, IsErr, OnErr, OnOk, Contains, min};
    ghost use Rattle.std.specs.Io.{ReadsAtMost};
    ghost use Rattle.std.specs.Io.KnownBytes.{ReadConsumes};
    ghost use Rattle.jack_host.specs.Causes.{HasCause};
    ghost use Rattle.host_memory.specs.Memory.{source_left, source_faults, source_next, source_refused};

    fn read(&mut self, buffer: &mut [u8]) -> Result<usize, Failed>
        ensures bound { ReadsAtMost result buffer.new }
        ensures bytes { ReadConsumes (Some (source_left self.old)) (Some (source_left self.new)) result buffer.new }
        ensures cause { HasCause (source_faults self.old) (source_faults self.new) result }
        ensures once { source_faults self.new ≤ source_faults self.old + 1 }

        // It fails exactly where it is refused.
        ensures refused { IsErr result ↔ Contains (source_refused self.old) (source_next self.old) }
        ensures next { source_next self.new ≡ min (source_next self.old + 1) (2 ^ 64 - 1) }
        ensures same { source_refused self.new ≡ source_refused self.old }
    {
        let number = self.next;
        self.next = self.next.saturating_add(1);
        if is_refused(&self.refused, number) {
            self.faults = self.faults.saturating_add(1);
            return Err(Failed);
        }
        Ok(self.give(buffer))
    }
}

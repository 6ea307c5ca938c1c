ghost use Rattle.std.specs.Prelude.{◌≡◌, ◌+◌, ◌≤◌, ◌^◌, [], ◌∷◌, ◌++◌, Some, OnOk, OnErr, length, Contains, vec_len, string_bytes};
ghost use Rattle.jack_host.specs.Bytes.{put_at};
ghost use Rattle.jack_host.specs.Causes.{Rose, HasCause};

use crate::refusals::is_refused;
use jack_host::{Failed, Store};
use jack_types::Memory;
use std::alloc::{AllocError, Global};

// Puts a piece at a place, and grows the bytes where needed.
fn spread(bytes: &mut Vec<u8>, place: usize, piece: &[u8]) -> Result<(), AllocError>
    requires { place ≤ vec_len bytes.old }
    ensures ok { OnOk result (bytes.new.items ≡ put_at bytes.old.items place piece.now) }
    ensures err { OnErr result (bytes.new.items ≡ bytes.old.items) }
{
    let over = piece.len().min(bytes.len() - place);
    bytes.extend_from_slice(&piece[over..])?;
    bytes[place..place + over].copy_from_slice(&piece[..over]);
    Ok(())
}

/// A file in memory that is written.
#[derive(Drop)]
pub struct MemoryStore {
    pub(crate) name: String,
    pub(crate) bytes: Vec<u8>,
    pub(crate) faults: u64,
    pub(crate) wants: u64,
    next: u64,
    refused: Vec<u32>,
}

impl MemoryStore {
    ghost use Rattle.host_memory.specs.Memory.{store_name, store_bytes, store_faults, store_wants, store_next, store_refused};

    /// An empty file without a name, that refuses nothing.
    pub fn new(alloc: Global) -> MemoryStore
        ensures name { store_name result ≡ [] }
        ensures bytes { store_bytes result ≡ [] }
        ensures faults { store_faults result ≡ 0 }
        ensures wants { store_wants result ≡ 0 }
        ensures next { store_next result ≡ 1 }
        ensures refused { store_refused result ≡ [] }
    {
        MemoryStore::named(alloc, String::new(alloc), Vec::new(alloc))
    }

    // An empty file of this name, with these refusals.
    pub(crate) fn named(alloc: Global, name: String, refused: Vec<u32>) -> MemoryStore
        ensures name { store_name result ≡ string_bytes name }
        ensures bytes { store_bytes result ≡ [] }
        ensures faults { store_faults result ≡ 0 }
        ensures wants { store_wants result ≡ 0 }
        ensures next { store_next result ≡ 1 }
        ensures refused { store_refused result ≡ refused.items }
    {
        MemoryStore {
            name,
            bytes: Vec::new(alloc),
            faults: 0,
            wants: 0,
            next: 1,
            refused,
        }
    }

    /// Makes the write of this number fail, counted from 1.
    pub fn refuse(&mut self, call: u32) -> Result<(), Memory>
        ensures ok { OnOk result (store_refused self.new ≡ store_refused self.old ++ call ∷ []) }
        ensures err { OnErr result (store_refused self.new ≡ store_refused self.old) }
        ensures name { store_name self.new ≡ store_name self.old }
        ensures bytes { store_bytes self.new ≡ store_bytes self.old }
        ensures faults { store_faults self.new ≡ store_faults self.old }
        ensures wants { store_wants self.new ≡ store_wants self.old }
        ensures next { store_next self.new ≡ store_next self.old }
    {
        self.refused.push(call).map_err(|_| Memory)
    }

    /// The bytes that were written.
    pub fn as_bytes(&self) -> &[u8]
        ensures { result.now ≡ store_bytes self.now }
    {
        &self.bytes
    }
}

impl Store for MemoryStore {
    ghost use Rattle.std.specs.Prelude.{Some, string_bytes};

    ghost name = { λ s. Some (string_bytes s.name) };

    ghost content = { λ s. Some s.bytes.items };

    ghost faults = { λ s. s.faults };

    ghost use Rattle.std.specs.Prelude.{◌⊎◌, ◌≡◌, ◌≤◌, ◌+◌, ◌-◌, ◌^◌, IsErr, OnErr, OnOk, Contains, min, length};
    ghost use Rattle.jack_host.specs.Causes.{Rose, HasCause};
    ghost use Rattle.jack_host.specs.Bytes.{Writes};
    ghost use Rattle.host_memory.specs.Memory.{store_name, store_bytes, store_faults, store_wants, store_next, store_refused};

    fn write_at(&mut self, place: u64, bytes: &[u8]) -> Result<(), Failed>
        requires { place ≤ length (store_bytes self.old) }
        ensures name { store_name self.new ≡ store_name self.old }
        ensures bytes { Writes (Some (store_bytes self.old)) (Some (store_bytes self.new)) result place bytes.now }
        ensures cause { HasCause (store_faults self.old) (store_faults self.new) result }
        ensures once { store_faults self.new ≤ store_faults self.old + 1 }

        // It fails where it is refused, and else only for its own want of memory. Then nothing was written.
        ensures refused { Contains (store_refused self.old) (store_next self.old) → IsErr result }
        ensures failed { OnErr result (Contains (store_refused self.old) (store_next self.old) ⊎ Rose (store_wants self.old) (store_wants self.new)) }
        ensures nothing { OnErr result (store_bytes self.new ≡ store_bytes self.old) }
        ensures wants { OnOk result (store_wants self.new ≡ store_wants self.old) }
        ensures next { store_next self.new ≡ min (store_next self.old + 1) (2 ^ 64 - 1) }
        ensures same { store_refused self.new ≡ store_refused self.old }
    {
        let number = self.next;
        self.next = self.next.saturating_add(1);
        if is_refused(&self.refused, number) {
            self.faults = self.faults.saturating_add(1);
            return Err(Failed);
        }
        if spread(&mut self.bytes, place as usize, bytes).is_err() {
            self.wants = self.wants.saturating_add(1);
            self.faults = self.faults.saturating_add(1);
            return Err(Failed);
        }
        Ok(())
    }
}

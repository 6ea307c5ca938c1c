//! The first bytes of a file.

ghost use Rattle.std.specs.Prelude.{◌≡◌, ◌+◌, ◌-◌, ◌++◌, ◌^◌, ◌≤◌, [], IfOk, length, min, take};
ghost use Rattle.std.specs.Vec.{vec_capacity};

use std::alloc::{AllocError, Global};

/// The first bytes that were read of a file, as far as there is room for them, and how many were read in all.
#[derive(Drop)]
pub struct Front {
    bytes: Vec<u8>,
    most: usize,
    count: u64,
    ghost reserved: { most ≤ vec_capacity bytes },
    ghost within: { length bytes.items ≤ most },
}

impl Front {
    /// Room for so many bytes, of which none was read yet.
    pub(crate) fn with_room(alloc: Global, most: usize) -> Result<Front, AllocError>
        ensures empty { IfOk result (λ front. front.bytes.items ≡ []) }
        ensures room { IfOk result (λ front. front.most ≡ most) }
        ensures none { IfOk result (λ front. front.count ≡ 0) }
    {
        let bytes = Vec::with_capacity(alloc, most)?;
        Ok(Front {
            bytes,
            most,
            count: 0,
        })
    }

    /// The first bytes.
    pub fn as_bytes(&self) -> &[u8]
        ensures { result.now ≡ self.now.bytes.items }
    {
        &self.bytes
    }

    /// How many bytes were read.
    pub fn count(&self) -> u64
        ensures { result ≡ self.now.count }
    {
        self.count
    }

    // Keeps of the next bytes what there is room for. It takes no memory.
    pub(crate) fn hear(&mut self, bytes: &[u8])
        ensures bytes { self.new.bytes.items ≡ take self.old.most (self.old.bytes.items ++ bytes.now) }
        ensures room { self.new.most ≡ self.old.most }
        ensures count { self.new.count ≡ min (self.old.count + length bytes.now) (2 ^ 64 - 1) }
    {
        let more = bytes.len().min(self.most - self.bytes.len());
        let _ = self.bytes.extend_from_slice(&bytes[..more]);
        self.count = self.count.saturating_add(bytes.len() as u64);
    }
}

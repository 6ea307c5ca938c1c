//! Which files are the same, whatever their names are.

use std::alloc::{AllocError, Global};
use std::fs::Metadata;
use std::os::unix::fs::{FileTypeExt, MetadataExt};

/// A file of the system: its device, and its number there.
#[derive(Clone, Copy, PartialEq, Eq)]
pub(crate) struct Identity {
    device: u64,
    number: u64,
}

/// The identity of a file that keeps what is written to it. Character devices, pipes and sockets keep nothing.
pub(crate) fn identity_of(attributes: &Metadata) -> Option<Identity> {
    let kind = attributes.file_type();
    if kind.is_char_device() || kind.is_fifo() || kind.is_socket() {
        return None;
    }
    Some(Identity {
        device: attributes.dev(),
        number: attributes.ino(),
    })
}

/// Files that are remembered, up to so many as there is room for.
#[derive(Drop)]
pub(crate) struct Identities {
    files: Vec<Identity>,
}

impl Identities {
    pub(crate) fn new(alloc: Global, most: usize) -> Result<Identities, AllocError> {
        let files = Vec::with_capacity(alloc, most)?;
        Ok(Identities { files })
    }

    pub(crate) fn has(&self, file: Identity) -> bool {
        self.files.contains(&file)
    }

    /// Remembers a file, and says whether there was room for it.
    pub(crate) fn add(&mut self, file: Identity) -> bool {
        if self.has(file) {
            return true;
        }
        if self.files.len() == self.files.capacity() {
            return false;
        }
        self.files.push_reserved(file);
        true
    }

    pub(crate) fn remove(&mut self, file: Identity) {
        self.files.retain(|other| *other != file);
    }
}

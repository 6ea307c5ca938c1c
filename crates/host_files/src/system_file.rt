ghost use Rattle.std.specs.Prelude.{None, ◌≡◌};

use crate::FailureKind;
use crate::failures::{Faults, about};
use crate::identities::Identity;
use file_stores::{Stream, StreamDisk, TailStore};
use jack_host::Failed;
use std::fs::File;
use std::io;
use std::io::{ErrorKind, Seek, SeekFrom, Write};

/// When what was written to a file is brought to its medium.
#[derive(Clone, Copy, PartialEq, Eq)]
pub enum Syncing {
    /// Before the file is closed, so that a write that fails late is told.
    AtClose,
    /// Whenever the system does it.
    Never,
}

/// A file of the system that is written. It tells nothing: that each call does what a stream's does is trusted.
#[derive(Drop)]
pub struct SystemFile {
    file: File,
    pub(crate) name: String,
    // The file, if it keeps what is written to it.
    pub(crate) identity: Option<Identity>,
    syncing: Syncing,
    pub(crate) faults: Faults,
}

/// A file of the system that is written, some 64 KiB at a time where there is room for them.
pub type FileStore = TailStore<StreamDisk<SystemFile>>;

impl SystemFile {
    pub(crate) fn new(
        file: File,
        name: String,
        identity: Option<Identity>,
        syncing: Syncing,
    ) -> SystemFile
        ensures { result.faults.count ≡ 0 }
    {
        SystemFile {
            file,
            name,
            identity,
            syncing,
            faults: Faults::new(),
        }
    }
}

// Waits until the file's bytes are on its medium, where its file system can say so.
fn sync(file: &File) -> io::Result<()> {
    match file.sync_all() {
        Err(error) if is_unable(error.kind()) => Ok(()),
        synced => synced,
    }
}

// Whether a file system has no such call.
fn is_unable(kind: ErrorKind) -> bool {
    matches!(kind, ErrorKind::InvalidInput | ErrorKind::Unsupported)
}

impl Stream for SystemFile {
    ghost told = { λ _. None };

    ghost kept = { λ _. None };

    ghost faults = { λ s. s.faults.count };

    fn move_to(&mut self, place: u64) -> Result<(), Failed> {
        let moved = self.file.seek(SeekFrom::Start(place));
        self.faults.counted(about(FailureKind::Writing, moved))?;
        Ok(())
    }

    fn run(&mut self, piece: &[u8]) -> Result<(), Failed> {
        let written = self.file.write_all(piece);
        self.faults.counted(about(FailureKind::Writing, written))
    }

    fn empty(&mut self) -> Result<(), Failed> {
        if self.identity.is_none() {
            return Ok(());
        }
        let emptied = self.file.set_len(0);
        self.faults.counted(about(FailureKind::Writing, emptied))
    }

    fn sync(&mut self) -> Result<(), Failed> {
        if self.identity.is_none() || self.syncing == Syncing::Never {
            return Ok(());
        }
        let synced = sync(&self.file);
        self.faults.counted(about(FailureKind::Closing, synced))
    }

    fn count(&self) -> u64 {
        self.faults.count
    }
}

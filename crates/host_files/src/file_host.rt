ghost use Rattle.std.specs.Prelude.{None, ◌≡◌, ◌↔◌, ◌+◌, ◌<◌, ◌≤◌, IfOk, IfSome, IsNone, length, option_map, string_bytes};
ghost use Rattle.jack_host.specs.Causes.{Adds};

use crate::failures::{Failure, NamedFaults, Reason, about};
use crate::identities::{Identities, Identity, identity_of};
use crate::rooms::{Room, keep_name, make_rooms};
use crate::{FailureKind, FileSource, FileStore, Syncing, SystemFile};
use file_stores::{Parts, StreamDisk, TailStore};
use jack_host::{Failed, Host};
use jack_types::Memory;
use std::alloc::{AllocError, Global};
use std::fs::{File, Files, OpenOptions, TryLockError};
use std::io::ErrorKind;
use std::{fs, io};

/// The files of the system, over a runtime. It tells no files.
///
/// It opens up to so many different files, and has rooms for the bytes of as many. A file that is opened or made while
/// all rooms are out moves the bytes of each call by themselves. All memory is taken when the host is made.
///
/// A file that was opened for reading can't be made, nor one that is out as an output, whatever its name is, nor one
/// that another program writes. A file that is made keeps what stood in it until its first byte is written out, or until
/// it is done.
#[derive(Drop)]
pub struct FileHost<'a, R> {
    alloc: Global,
    files: &'a R,
    rooms: Vec<Room>,
    inputs: Identities,
    outputs: Identities,
    syncing: Syncing,
    reads: NamedFaults,
    writes: NamedFaults,
    lent: u64,
}

// A reason of the host's own.
fn refused(kind: FailureKind, message: &str) -> Reason {
    Reason::new(kind, io::Error::new(ErrorKind::ResourceBusy, message))
}

// Opens a file for writing, and makes it where there is none. What stands in it stays.
fn open_out<R: Files<File = File>>(files: &R, name: &str) -> io::Result<File> {
    OpenOptions::new()
        .write(true)
        .create(true)
        .open(files, name)
}

// Keeps other programs from writing the file while it is open, where its file system has locks.
fn lock(file: &File) -> Result<(), Reason> {
    match file.try_lock() {
        Err(TryLockError::WouldBlock) => {
            Err(refused(FailureKind::InUse, "another program writes it"))
        }
        _ => Ok(()),
    }
}

impl<'a, R: Files<File = File>> FileHost<'a, R> {
    /// A host over this runtime, with no object out, for so many different files, and with a room of 64 KiB for each.
    pub fn new(
        alloc: Global,
        files: &'a R,
        most: usize,
        syncing: Syncing,
    ) -> Result<FileHost<'a, R>, Memory>
        ensures rooms { IfOk result (λ host. length host.rooms.items ≡ most) }
        ensures reads { IfOk result (λ host. host.reads.faults.count ≡ 0) }
        ensures writes { IfOk result (λ host. host.writes.faults.count ≡ 0) }
        ensures lent { IfOk result (λ host. host.lent ≡ 0) }
    {
        FileHost::with_rooms(alloc, files, most, syncing).map_err(|_| Memory)
    }

    fn with_rooms(
        alloc: Global,
        files: &'a R,
        most: usize,
        syncing: Syncing,
    ) -> Result<FileHost<'a, R>, AllocError>
        ensures rooms { IfOk result (λ host. length host.rooms.items ≡ most) }
        ensures reads { IfOk result (λ host. host.reads.faults.count ≡ 0) }
        ensures writes { IfOk result (λ host. host.writes.faults.count ≡ 0) }
        ensures lent { IfOk result (λ host. host.lent ≡ 0) }
    {
        let rooms = make_rooms(alloc, most)?;
        let inputs = Identities::new(alloc, most)?;
        let outputs = Identities::new(alloc, most)?;
        let reads = NamedFaults::new(alloc)?;
        let writes = NamedFaults::new(alloc)?;
        Ok(FileHost {
            alloc,
            files,
            rooms,
            inputs,
            outputs,
            syncing,
            reads,
            writes,
            lent: 0,
        })
    }

    /// The last failure of an opening or a read, where one has failed.
    pub fn last_read_failure(&self) -> Option<Failure<'_>>
        ensures told { IsNone result ↔ (self.now.reads.faults.count ≡ 0) }
        ensures reason { option_map (λ failure. failure.reason) result ≡ self.now.reads.faults.last }
        ensures name { IfSome result (λ failure. failure.name.now ≡ string_bytes self.now.reads.name) }
    {
        self.reads.last()
    }

    /// The last failure of a making, a write or a closing, where one has failed.
    pub fn last_write_failure(&self) -> Option<Failure<'_>>
        ensures told { IsNone result ↔ (self.now.writes.faults.count ≡ 0) }
        ensures reason { option_map (λ failure. failure.reason) result ≡ self.now.writes.faults.last }
        ensures name { IfSome result (λ failure. failure.name.now ≡ string_bytes self.now.writes.name) }
    {
        self.writes.last()
    }

    // A room that is not out, or none at all, with this name.
    fn take_room(&mut self, name: &str) -> Room
        ensures reads { self.new.reads ≡ self.old.reads }
        ensures writes { self.new.writes ≡ self.old.writes }
        ensures lent { self.new.lent ≡ self.old.lent }
    {
        let mut room = match self.rooms.pop() {
            Some(room) => room,
            None => Room::none(self.alloc),
        };
        keep_name(&mut room.name, name);
        room
    }

    // Takes a file's room back.
    fn keep_room(&mut self, room: Room)
        ensures reads { self.new.reads ≡ self.old.reads }
        ensures writes { self.new.writes ≡ self.old.writes }
        ensures lent { self.new.lent ≡ self.old.lent }
    {
        if !room.bytes.is_empty() && self.rooms.len() < self.rooms.capacity() {
            self.rooms.push_reserved(room);
        }
    }

    // Opens a file for reading, and remembers it.
    fn open(&mut self, name: &str) -> Result<File, Reason>
        ensures reads { self.new.reads ≡ self.old.reads }
        ensures writes { self.new.writes ≡ self.old.writes }
        ensures lent { self.new.lent ≡ self.old.lent }
    {
        let file = about(FailureKind::Opening, fs::open(self.files, name))?;
        let attributes = about(FailureKind::Opening, file.metadata())?;
        if let Some(identity) = identity_of(&attributes) {
            if !self.inputs.add(identity) {
                return Err(refused(FailureKind::Opening, "too many files"));
            }
        }
        Ok(file)
    }

    // Opens a file for writing, with its identity if it keeps what is written, and holds it against all other writing.
    fn make(&mut self, name: &str) -> Result<(File, Option<Identity>), Reason>
        ensures reads { self.new.reads ≡ self.old.reads }
        ensures writes { self.new.writes ≡ self.old.writes }
        ensures lent { self.new.lent ≡ self.old.lent }
    {
        let file = about(FailureKind::Making, open_out(self.files, name))?;
        let attributes = about(FailureKind::Making, file.metadata())?;
        let identity = identity_of(&attributes);
        if let Some(identity) = identity {
            self.hold(&file, identity)?;
        }
        Ok((file, identity))
    }

    // Holds a file against all other writing.
    fn hold(&mut self, file: &File, identity: Identity) -> Result<(), Reason>
        ensures reads { self.new.reads ≡ self.old.reads }
        ensures writes { self.new.writes ≡ self.old.writes }
        ensures lent { self.new.lent ≡ self.old.lent }
    {
        if self.inputs.has(identity) {
            return Err(refused(FailureKind::IsInput, "it is read in this call"));
        }
        if self.outputs.has(identity) {
            return Err(refused(FailureKind::IsOutput, "it is written in this call"));
        }
        lock(file)?;
        if !self.outputs.add(identity) {
            return Err(refused(FailureKind::Making, "too many files"));
        }
        Ok(())
    }

    // Takes up the faults of an output that was handed back, closes its file, and keeps its room.
    fn take_back(&mut self, parts: Parts<StreamDisk<SystemFile>>)
        requires { 0 < self.old.lent }
        ensures adds { Adds self.old.writes.faults.count parts.disk.stream.faults.count self.new.writes.faults.count }
        ensures no_more { self.new.writes.faults.count ≤ self.old.writes.faults.count + parts.disk.stream.faults.count }
        ensures reads { self.new.reads ≡ self.old.reads }
        ensures lent { self.new.lent + 1 ≡ self.old.lent }
    {
        let file = parts.disk.into_stream();
        self.writes.add(&file.name, &file.faults);
        if let Some(identity) = file.identity {
            self.outputs.remove(identity);
        }
        self.lent -= 1;
        self.keep_room(Room {
            bytes: parts.room,
            name: file.name,
        });
    }
}

impl<'a, R: Files<File = File>> Host for FileHost<'a, R> {
    type In = FileSource<File>;

    type Out = FileStore;

    ghost files = { λ _. None };

    ghost read_faults = { λ h. h.reads.faults.count };

    ghost write_faults = { λ h. h.writes.faults.count };

    ghost lent = { λ h. h.lent };

    fn open_in(&mut self, name: &str) -> Result<FileSource<File>, Failed> {
        let opened = self.open(name);
        let file = self.reads.counted(name, opened)?;
        self.lent += 1;
        Ok(FileSource::new(file, self.take_room(name)))
    }

    fn back(&mut self, input: FileSource<File>) {
        self.reads.add(&input.room.name, &input.faults);
        self.lent -= 1;
        self.keep_room(input.room);
    }

    fn make_out(&mut self, name: &str) -> Result<FileStore, Failed> {
        let made = self.make(name);
        let (file, identity) = self.writes.counted(name, made)?;
        self.lent += 1;
        let room = self.take_room(name);
        let file = SystemFile::new(file, room.name, identity, self.syncing);
        Ok(TailStore::new(StreamDisk::new(file), room.bytes))
    }

    fn done(&mut self, output: FileStore) -> Result<(), Failed> {
        let (parts, done) = output.done();
        self.take_back(parts);
        done
    }

    fn give_up(&mut self, output: FileStore) {
        self.take_back(output.give_up());
    }
}

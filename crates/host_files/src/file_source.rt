ghost use Rattle.std.specs.Prelude.{◌≡◌, ◌≢◌, ◌↔◌, ◌≤◌, ◌<◌, ◌++◌, ℕ, [], IfErr, IsTrue, OnErr, OnOk, length, take};
ghost use Rattle.std.specs.Option.{ForSome};
ghost use Rattle.std.specs.IoError.{error_kind};
ghost use Rattle.std.specs.declared.io.ErrorKind.TheVariants.{Interrupted};
ghost use Rattle.std.specs.Io.{ReadsAtMost};
ghost use Rattle.std.specs.Io.KnownBytes.{Consumes, IsAtEnd, Keeps, ReadConsumes};
ghost use Rattle.jack_host.specs.Causes.{IsCounted};

use crate::FailureKind;
use crate::failures::{Faults, about};
use crate::rooms::Room;
use jack_host::{Failed, Source};
use std::io;
use std::io::{ErrorKind, Read};

/// A reader that is read some 64 KiB at a time, where there is room for them.
///
/// It tells its bytes where the reader does, which a file of the system does not. A read that a signal interrupted is
/// tried again, and is no failure.
#[derive(Drop)]
pub struct FileSource<F> {
    file: F,
    pub(crate) room: Room,
    at: usize,
    end: usize,
    pub(crate) faults: Faults,
    ghost ordered: { at ≤ end },
    ghost within: { end ≤ length room.bytes.items },
    ghost retried: { ForSome faults.last (λ reason. error_kind reason.error ≢ Interrupted) },
}

// Whether a signal interrupted the call.
fn is_interrupted(error: &io::Error) -> bool
    ensures { IsTrue result ↔ (error_kind error.now ≡ ErrorKind.Interrupted) }
{
    error.kind() == ErrorKind::Interrupted
}

// One read, tried again where a signal interrupts it.
fn read_on<F: Read>(file: &mut F, buffer: &mut [u8]) -> io::Result<usize>
    ensures bound { ReadsAtMost result buffer.new }
    ensures length { length buffer.new ≡ length buffer.old }
    ensures bytes { ReadConsumes (F.remaining file.old) (F.remaining file.new) result buffer.new }
    ensures retried { IfErr result (λ error. error_kind error ≢ ErrorKind.Interrupted) }
{
    for _ in 0..u64::MAX {
        match file.read(buffer) {
            Ok(count) => return Ok(count),
            Err(error) if is_interrupted(&error) => {}
            Err(error) => return Err(error),
        }
    }
    Err(io::Error::new(ErrorKind::TimedOut, "interrupted too often"))
}

impl<F> FileSource<F> {
    ghost use Rattle.host_files.specs.Gathering.{waiting};

    pub(crate) fn new(file: F, room: Room) -> FileSource<F>
        ensures { result.faults.count ≡ 0 }
    {
        FileSource {
            file,
            room,
            at: 0,
            end: 0,
            faults: Faults::new(),
        }
    }

    // Gives of the gathered bytes.
    fn give(&mut self, buffer: &mut [u8]) -> usize
        ensures bound { result ≤ length buffer.new }
        ensures bytes { waiting self.old ≡ take result buffer.new ++ waiting self.new }
        ensures end { result ≡ 0 → 0 < length buffer.new → waiting self.new ≡ [] }
        ensures file { self.new.file ≡ self.old.file }
        ensures faults { self.new.faults ≡ self.old.faults }
    {
        let count = buffer.len().min(self.end - self.at);
        buffer[..count].copy_from_slice(&self.room.bytes[self.at..self.at + count]);
        self.at += count;
        count
    }
}

impl<F: Read> FileSource<F> {
    ghost use Rattle.host_files.specs.Gathering.{waiting};

    // Gathers the reader's next bytes, behind those that were given.
    fn gather(&mut self) -> Result<(), Failed>
        ensures counted { IsCounted self.old.faults.count self.new.faults.count result }
        ensures bytes { OnOk result (Consumes (F.remaining self.old.file) (F.remaining self.new.file) (waiting self.new)) }
        ensures end { OnOk result (waiting self.new ≡ [] → 0 < length self.old.room.bytes.items → IsAtEnd (F.remaining self.new.file)) }
        ensures failed { OnErr result (Keeps (F.remaining self.old.file) (F.remaining self.new.file)) }
        ensures none { OnErr result (waiting self.new ≡ []) }
    {
        self.at = 0;
        self.end = 0;
        let read = read_on(&mut self.file, &mut self.room.bytes[..]);
        self.end = self.faults.counted(about(FailureKind::Reading, read))?;
        Ok(())
    }

    // Reads more bytes than there is room for straight into their place.
    fn read_through(&mut self, buffer: &mut [u8]) -> Result<usize, Failed>
        ensures bound { ReadsAtMost result buffer.new }
        ensures bytes { ReadConsumes (F.remaining self.old.file) (F.remaining self.new.file) result buffer.new }
        ensures counted { IsCounted self.old.faults.count self.new.faults.count result }
        ensures waits { waiting self.new ≡ waiting self.old }
    {
        let read = read_on(&mut self.file, buffer);
        self.faults.counted(about(FailureKind::Reading, read))
    }
}

impl<F: Read + Drop> Source for FileSource<F> {
    ghost use Rattle.std.specs.Io.KnownBytes.{prepend_known};
    ghost use Rattle.host_files.specs.Gathering.{waiting};

    ghost left = { λ s. prepend_known (waiting s) (F.remaining s.file) };

    ghost faults = { λ s. s.faults.count };

    fn read(&mut self, buffer: &mut [u8]) -> Result<usize, Failed> {
        if self.at == self.end {
            if buffer.len() >= self.room.bytes.len() {
                return self.read_through(buffer);
            }
            self.gather()?;
        }
        Ok(self.give(buffer))
    }
}

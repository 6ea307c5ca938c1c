ghost use Rattle.std.specs.Prelude.{None, ◌≡◌, ◌↔◌, IsNone, OnOk, option_map};
ghost use Rattle.std.specs.Io.KnownBytes.{Appends};

use crate::FailureKind;
use crate::failures::{Faults, about};
use jack_host::{Failed, Sink};
use std::io;
use std::io::Write;

/// A sink over any writer, which is flushed after each put.
///
/// It tells no bytes, since a writer does not say how much it took of what it failed to write.
#[derive(Drop)]
pub struct WriterSink<W> {
    writer: W,
    faults: Faults,
}

impl<W> WriterSink<W> {
    /// A sink over this writer, that has counted nothing.
    pub fn new(writer: W) -> WriterSink<W>
        ensures { result.faults.count ≡ 0 }
    {
        WriterSink {
            writer,
            faults: Faults::new(),
        }
    }

    /// Why the last put that failed did, where one has failed.
    pub fn last_failure(&self) -> Option<io::Error>
        ensures told { IsNone result ↔ (self.now.faults.count ≡ 0) }
        ensures reason { result ≡ option_map (λ reason. reason.error) self.now.faults.last }
    {
        match self.faults.last {
            Some(reason) => Some(reason.error),
            None => None,
        }
    }
}

// Writes all the bytes, and flushes.
fn write<W: Write>(writer: &mut W, bytes: &[u8]) -> io::Result<()>
    ensures { OnOk result (Appends (W.contents writer.old) (W.contents writer.new) bytes.now) }
{
    writer.write_all(bytes)?;
    writer.flush()
}

impl<W: Write + Drop> Sink for WriterSink<W> {
    ghost content = { λ _. None };

    ghost faults = { λ s. s.faults.count };

    ghost use Rattle.std.specs.Prelude.{◌+◌, ◌≤◌, OnOk};
    ghost use Rattle.std.specs.Io.KnownBytes.{Appends};
    ghost use Rattle.jack_host.specs.Causes.{HasCause};

    fn put(&mut self, bytes: &[u8]) -> Result<(), Failed>
        ensures cause { HasCause self.old.faults.count self.new.faults.count result }
        ensures once { self.new.faults.count ≤ self.old.faults.count + 1 }

        // Where the writer tells what it holds, `Ok` comes only where it holds all the bytes.
        ensures written { OnOk result (Appends (W.contents self.old.writer) (W.contents self.new.writer) bytes.now) }
    {
        let written = write(&mut self.writer, bytes);
        self.faults.counted(about(FailureKind::Writing, written))
    }
}

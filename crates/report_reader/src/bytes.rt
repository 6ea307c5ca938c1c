//! The bytes of a source, one after the other.

ghost use Rattle.std.specs.Prelude.{◌≡◌, IfOk, OnErr};
ghost use Rattle.std.specs.Io.KnownBytes.{Keeps};
ghost use Rattle.jack_host.specs.Causes.{HasCause};
ghost use Rattle.report_reader.specs.Lefts.{TakesByte};
ghost use Rattle.report_reader.specs.Nexts.{LeavesEnd};

use jack_host::{ReadFailed, Source};
use std::marker::Model;

/// A source, with the bytes that were read from it and not taken yet.
#[derive(Drop)]
pub struct Bytes<S: Source> {
    source: S,
    buffer: [u8; 4096],
    at: usize,
    filled: usize,
}

impl<S: Source> Model for Bytes<S> {
    ghost use Rattle.std.specs.Prelude.{◌≤◌};
    ghost use Rattle.report_reader.specs.Lefts.{bytes_left};
    ghost use Rattle.report_reader.specs.Nexts.{Unread};

    ghost Value = { Unread };

    ghost view = { λ b. record { left = bytes_left b.at b.filled b.buffer (S.left b.source); faults = S.faults b.source } };

    ghost invariant = { λ b. (b.at ≤ b.filled) × (b.filled ≤ 4096) };
}

impl<S: Source> Bytes<S> {
    /// The bytes of a source.
    pub fn of(source: S) -> Bytes<S>
        ensures left { result.left ≡ S.left source }
        ensures faults { result.faults ≡ S.faults source }
    {
        Bytes {
            source,
            buffer: [0; 4096],
            at: 0,
            filled: 0,
        }
    }

    /// The source. What was read from it and not taken is gone.
    pub fn into_source(self) -> S
        ensures left { LeavesEnd self.left (S.left result) }
        ensures faults { S.faults result ≡ self.faults }
    {
        self.source
    }

    /// The next byte, or none at the end. A read that fails takes none.
    pub fn take(&mut self) -> Result<Option<u8>, ReadFailed>
        ensures byte { IfOk result (λ b. TakesByte self.old.left self.new.left b) }
        ensures kept { OnErr result (Keeps self.old.left self.new.left) }
        ensures cause { HasCause self.old.faults self.new.faults result }
    {
        if self.at < self.filled {
            let byte = self.buffer[self.at];
            self.at += 1;
            return Ok(Some(byte));
        }
        self.at = 0;
        self.filled = 0;
        let read = self.source.read(&mut self.buffer);
        match read {
            Ok(0) => Ok(None),
            Ok(count) => {
                self.filled = count;
                self.at = 1;
                Ok(Some(self.buffer[0]))
            }
            Err(_) => Err(ReadFailed),
        }
    }
}

//! Lines that are put together.

ghost use Rattle.std.specs.Prelude.{◌≡◌, ◌++◌, OnErr, OnOk};
ghost use Rattle.jack_host.specs.Bytes.{Puts};
ghost use Rattle.jack_host.specs.Causes.{HasCause};
ghost use Rattle.report_lines.specs.Inside.{IsGathered};

use crate::lines::Line;
use arrayvec::ArrayString;
use jack_host::{Failed, Sink};

/// Lines that wait to be put, with room for 32 of the longest.
pub type Batch = ArrayString<5120>;

/// Appends a line to a batch. Where the batch has no room for it, the batch is put first.
pub fn gather<K: Sink>(out: &mut K, batch: &mut Batch, line: &Line) -> Result<(), Failed>
    ensures ok { OnOk result (IsGathered (K.content out.old) (K.content out.new) batch.new.bytes (batch.old.bytes ++ line.now.bytes)) }
    ensures err { OnErr result (Puts (K.content out.old) (K.content out.new) result batch.old.bytes) }
    ensures cause { HasCause (K.faults out.old) (K.faults out.new) result }
{
    if batch.remaining_capacity() < line.len() {
        out.put(batch.as_str().as_bytes())?;
        batch.clear();
    }
    batch.push_str(line.as_str());
    Ok(())
}

ghost use Rattle.std.specs.Prelude.{◌≡◌, ◌+◌, ◌%◌, ◌≤◌, length, OnErr, OnOk, replicate};
ghost use Rattle.std.specs.Option.{ForSome};
ghost use Rattle.jack_host.specs.Bytes.{Puts, Writes};
ghost use Rattle.jack_host.specs.Causes.{HasCause};
ghost use Rattle.wave_write.specs.Finishing.{Finished, FinishedPart};

use jack_host::{Store, WriteFailed};

// Writes the bytes at this place.
pub fn write<W: Store>(store: &mut W, place: u64, bytes: &[u8]) -> Result<(), WriteFailed>
    requires { ForSome (W.content store.old) (λ xs. place ≤ length xs) }
    ensures name { W.name store.new ≡ W.name store.old }
    ensures bytes { Writes (W.content store.old) (W.content store.new) result place bytes.now }
    ensures cause { HasCause (W.faults store.old) (W.faults store.new) result }
{
    match store.write_at(place, bytes) {
        Ok(()) => Ok(()),
        Err(_) => Err(WriteFailed),
    }
}

// Writes a zero byte behind an odd number of sample bytes.
fn pad<W: Store>(store: &mut W, written: u32) -> Result<(), WriteFailed>
    requires { ForSome (W.content store.old) (λ xs. length xs ≡ 44 + written) }
    ensures name { W.name store.new ≡ W.name store.old }
    ensures bytes { Puts (W.content store.old) (W.content store.new) result (replicate (written % 2) 0) }
    ensures cause { HasCause (W.faults store.old) (W.faults store.new) result }
{
    if written % 2 == 0 {
        return Ok(());
    }
    write(store, 44 + u64::from(written), &[0])
}

// Finishes a file of so many sample bytes: the pad byte, the size at 4, the size at 40.
pub fn complete<W: Store>(store: &mut W, written: u32) -> Result<(), WriteFailed>
    requires long { ForSome (W.content store.old) (λ xs. length xs ≡ 44 + written) }
    requires few { written ≤ 4294967000 }
    ensures name { W.name store.new ≡ W.name store.old }
    ensures finished { OnOk result (Finished (W.content store.old) (W.content store.new)) }
    ensures part { OnErr result (FinishedPart (W.content store.old) (W.content store.new)) }
    ensures cause { HasCause (W.faults store.old) (W.faults store.new) result }
{
    pad(store, written)?;
    let size = 36 + written + written % 2;
    write(store, 4, &size.to_le_bytes())?;
    write(store, 40, &written.to_le_bytes())
}

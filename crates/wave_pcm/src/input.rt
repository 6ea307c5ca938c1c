ghost use Rattle.std.specs.Prelude.{◌≡◌, ◌+◌, ◌<◌, ◌≤◌, IfOk, IfSome, IsTrue, false, length, take, drop};
ghost use Rattle.std.specs.Io.KnownBytes.{Consumes, IsAtEnd};
ghost use Rattle.jack_host.specs.Causes.{HasCause};
ghost use Rattle.wave_pcm.specs.Steps.{Drops};

use jack_host::{ReadFailed, Source};

// How many bytes are read at a time, at most.
pub const MOST_BYTES: usize = 4096;

// Reads once into the buffer, from a place on.
fn read_from<S: Source>(source: &mut S, buffer: &mut [u8], at: usize) -> Result<usize, ReadFailed>
    requires { at ≤ length buffer.old }
    ensures len { length buffer.new ≡ length buffer.old }
    ensures front { take at buffer.new ≡ take at buffer.old }
    ensures bound { IfOk result (λ n. at + n ≤ length buffer.new) }
    ensures bytes { IfOk result (λ n. Consumes (S.left source.old) (S.left source.new) (take n (drop at buffer.new))) }
    ensures end { IfOk result (λ n. n ≡ 0 → at < length buffer.new → IsAtEnd (S.left source.new)) }
    ensures cause { HasCause (S.faults source.old) (S.faults source.new) result }
{
    match source.read(&mut buffer[at..]) {
        Ok(count) => Ok(count),
        Err(_) => Err(ReadFailed),
    }
}

// Reads until the buffer is full or the input ends, and says how many bytes it read.
pub fn fill<S: Source>(source: &mut S, buffer: &mut [u8]) -> Result<usize, ReadFailed>
    ensures bound { IfOk result (λ n. n ≤ length buffer.new) }
    ensures bytes { IfOk result (λ n. Consumes (S.left source.old) (S.left source.new) (take n buffer.new)) }
    ensures short { IfOk result (λ n. n < length buffer.new → IsAtEnd (S.left source.new)) }
    ensures cause { HasCause (S.faults source.old) (S.faults source.new) result }
{
    let mut at = 0;
    'filling: while at < buffer.len() {
        let count = read_from(source, buffer, at)?;
        if count == 0 {
            break;
        }
        at += count;
    }
    Ok(at)
}

// Reads over some bytes, at most so many; none is the input's end.
fn skip_some<S: Source>(source: &mut S, most: u64) -> Result<u64, ReadFailed>
    ensures bound { IfOk result (λ n. n ≤ most) }
    ensures taken { IfOk result (λ n. Drops (S.left source.old) (S.left source.new) n) }
    ensures end { IfOk result (λ n. n ≡ 0 → 0 < most → IsAtEnd (S.left source.new)) }
    ensures cause { HasCause (S.faults source.old) (S.faults source.new) result }
{
    let mut buffer = [0u8; MOST_BYTES];
    let want = most.min(MOST_BYTES as u64) as usize;
    match read_from(source, &mut buffer[..want], 0) {
        Ok(count) => Ok(count as u64),
        Err(failed) => Err(failed),
    }
}

// Reads over so many bytes, and says whether there were as many.
pub fn skip<S: Source>(source: &mut S, count: u64) -> Result<bool, ReadFailed>
    ensures whole { IfOk result (λ all. IsTrue all → Drops (S.left source.old) (S.left source.new) count) }
    ensures short { IfOk result (λ all. all ≡ false → IfSome (S.left source.old) (λ bytes. length bytes < count)) }
    ensures cause { HasCause (S.faults source.old) (S.faults source.new) result }
{
    let mut left = count;
    'skipping: while left > 0 {
        let taken = skip_some(source, left)?;
        if taken == 0 {
            return Ok(false);
        }
        left -= taken;
    }
    Ok(true)
}

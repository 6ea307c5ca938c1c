//! The tasks that fill a file from a ring.
ghost use Rattle.std.specs.Prelude.{◌≡◌, ◌+◌, ◌<◌, ◌≤◌, ◌^◌, length, IfOk, OnErr};
ghost use Rattle.jack_host.specs.Causes.{HasCause};
ghost use Rattle.disk_recorder.specs.Recordings.{MayWrite, Drains, Serves, Fails, Finishes, Breaks};

use crate::passing::pass;
use crossbeam_utils::Backoff;
use jack_host::{Gate, Store, WriteFailed};
use record_ring::{Block, Consumer, Got};
use std::sync::Wait;
use wave_write::WaveOut;

/// Writes blocks until `most` were written, or a get finds none. Answers how many.
///
/// `block` is the spare that goes into the ring, made for as many samples as the ring's blocks. After a
/// failure the file is stopped; the block of the failing put was got, and is lost.
pub fn drain<W: Store>(
    consumer: &mut Consumer,
    block: &mut Block,
    out: &mut WaveOut<W>,
    most: u32,
) -> Result<u32, WriteFailed>
    requires room { block.old.samples.room ≡ consumer.old.samples }
    requires may { MayWrite consumer.old out.old }
    ensures ok { IfOk result (λ count. Drains most count consumer.old out.old consumer.new out.new) }
    ensures err { OnErr result (Fails consumer.old out.old consumer.new out.new) }
    ensures few { IfOk result (λ count. 0 < count → length consumer.new.got < 2 ^ 63) }
    ensures spare { block.new.samples.room ≡ block.old.samples.room }
    ensures cause { HasCause out.old.faults out.new.faults result }
{
    for count in 0..most {
        match pass(consumer, block, out)? {
            Got::Block => {}
            Got::Empty { .. } | Got::Ended => return Ok(count),
        }
    }
    Ok(most)
}

/// Writes blocks until a get answers `Ended`. Answers how many.
///
/// It calls the gate before each get, and backs off where the ring is empty. It may wait for ever.
pub fn serve<R: Wait, W: Store, G: Gate>(
    wait: &R,
    consumer: &mut Consumer,
    block: &mut Block,
    out: &mut WaveOut<W>,
    gate: &G,
    recorder: u8,
) -> Result<u64, WriteFailed>
    requires room { block.old.samples.room ≡ consumer.old.samples }
    requires may { MayWrite consumer.old out.old }
    ensures ok { IfOk result (λ count. Serves count consumer.old out.old consumer.new out.new) }
    ensures err { OnErr result (Fails consumer.old out.old consumer.new out.new) }
    ensures few { length consumer.new.got < 2 ^ 63 }
    ensures spare { block.new.samples.room ≡ block.old.samples.room }
    ensures cause { HasCause out.old.faults out.new.faults result }
{
    let backoff = Backoff::new();
    let mut count = 0;
    for _ in wait.forever() {
        gate.before_block(recorder);
        match pass(consumer, block, out)? {
            Got::Block => {
                count += 1;
                backoff.reset();
            }
            Got::Empty { .. } => backoff.snooze(),
            Got::Ended => return Ok(count),
        }
    }
    Ok(count)
}

// Writes blocks until a get finds none.
fn rest<W: Store>(
    consumer: &mut Consumer,
    block: &mut Block,
    out: &mut WaveOut<W>,
) -> Result<u64, WriteFailed>
    requires room { block.old.samples.room ≡ consumer.old.samples }
    requires may { MayWrite consumer.old out.old }
    ensures ok { IfOk result (λ count. Drains (count + 1) count consumer.old out.old consumer.new out.new) }
    ensures err { OnErr result (Fails consumer.old out.old consumer.new out.new) }
    ensures spare { block.new.samples.room ≡ block.old.samples.room }
    ensures cause { HasCause out.old.faults out.new.faults result }
{
    for count in 0..u64::MAX {
        match pass(consumer, block, out)? {
            Got::Block => {}
            Got::Empty { .. } | Got::Ended => return Ok(count),
        }
    }
    unreachable!()
}

/// Writes blocks until a get finds none, and then finishes the file. Answers how many, and the store in each case.
pub fn finish<W: Store>(
    consumer: &mut Consumer,
    block: &mut Block,
    mut out: WaveOut<W>,
) -> (W, Result<u64, WriteFailed>)
    requires room { block.old.samples.room ≡ consumer.old.samples }
    requires may { MayWrite consumer.old out }
    ensures ok { IfOk result.1 (λ count. Finishes count consumer.old out consumer.new (W.content result.0)) }
    ensures err { OnErr result.1 (Breaks consumer.old out consumer.new (W.content result.0)) }
    ensures name { W.name result.0 ≡ out.name }
    ensures spare { block.new.samples.room ≡ block.old.samples.room }
    ensures cause { HasCause out.faults (W.faults result.0) result.1 }
{
    let count = match rest(consumer, block, &mut out) {
        Ok(count) => count,
        Err(failed) => return (out.stop(), Err(failed)),
    };
    let (store, finished) = out.finish();
    match finished {
        Ok(()) => (store, Ok(count)),
        Err(failed) => (store, Err(failed)),
    }
}

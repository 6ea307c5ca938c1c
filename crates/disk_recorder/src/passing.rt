//! One block from the ring to the file.
ghost use Rattle.std.specs.Prelude.{◌≡◌, ◌<◌, ◌≤◌, ◌^◌, length, IfOk, OnErr};
ghost use Rattle.jack_host.specs.Causes.{HasCause};
ghost use Rattle.disk_recorder.specs.Recordings.{MayWrite, Fails};
ghost use Rattle.disk_recorder.specs.Passing.{Passes};

use jack_host::{Store, WriteFailed};
use record_ring::{Block, Consumer, Got};
use wave_write::WaveOut;

// Gets once, and writes the block that came, by one put.
pub fn pass<W: Store>(
    consumer: &mut Consumer,
    block: &mut Block,
    out: &mut WaveOut<W>,
) -> Result<Got, WriteFailed>
    requires room { block.old.samples.room ≡ consumer.old.samples }
    requires may { MayWrite consumer.old out.old }
    ensures ok { IfOk result (λ got. Passes consumer.old out.old consumer.new out.new got) }
    ensures err { OnErr result (Fails consumer.old out.old consumer.new out.new) }
    ensures longer { length consumer.old.got ≤ length consumer.new.got }
    ensures few { length consumer.new.got < 2 ^ 63 }
    ensures spare { block.new.samples.room ≡ block.old.samples.room }
    ensures cause { HasCause out.old.faults out.new.faults result }
{
    match consumer.get(block) {
        Got::Block => {
            out.put(block.samples.as_slice())?;
            Ok(Got::Block)
        }
        Got::Empty { sent, taken } => Ok(Got::Empty { sent, taken }),
        Got::Ended => Ok(Got::Ended),
    }
}

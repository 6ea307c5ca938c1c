//! The player of a disk file.

ghost use Rattle.std.specs.Prelude.{◌≡◌, ◌%◌, ◌≤◌, false, IfOk, is_err};
ghost use Rattle.jack_host.specs.Causes.{HasCause};
ghost use Rattle.wave_pcm.specs.Readings.{IsReadable, SameReading};
ghost use Rattle.disk_player.specs.Insides.{FillsBlock};

use device_periods::read_block;
use jack_host::{ReadFailed, Source};
use record_ring::{Block, Consumer, Full, Producer, tell};
use std::marker::Model;
use wave_pcm::Wave;

/// How a turn of the player ended.
#[derive(Clone, Copy, PartialEq, Eq, Debug, Drop)]
pub enum TurnEnd {
    /// As many blocks were put as might be, and the file has more.
    Put(u32),
    /// A put found the ring full: so many blocks were sent, and so many taken.
    Full { sent: u64, taken: u64 },
    /// All blocks of the file were put, and the ring's end stands.
    Ended,
}

/// The player of a disk file: its blocks go into a ring, in their order.
///
/// It reads one block ahead, so that the ring ends in the turn that puts the last block. Contracts see a
/// `Playing`. No call takes memory.
#[derive(Drop)]
pub struct DiskPlayer<S: Source> {
    wave: Wave<S>,
    producer: Producer,
    block: Block,
    size: u32,
    // So many samples of the file are in the block and were not put.
    waiting: u32,
    // The file has no samples but those that wait.
    exhausted: bool,
    ended: bool,
}

impl<S: Source> Model for DiskPlayer<S> {
    ghost use Rattle.disk_player.specs.Insides.{IsSound, seen_of};
    ghost use Rattle.disk_player.specs.Playing.{Playing};

    ghost Value = { Playing };

    ghost view = { λ p. seen_of p.wave p.producer p.block.samples.items p.waiting p.exhausted };

    ghost invariant = { λ p. IsSound p.wave p.producer p.block p.size p.waiting p.exhausted p.ended };
}

/// Fills a block of so many samples with the next ones of a file, and answers how many it had.
fn fill_block<S: Source>(
    wave: &mut Wave<S>,
    block: &mut Block,
    size: u32,
) -> Result<u32, ReadFailed>
    requires going { wave.old.failed ≡ false }
    requires readable { IsReadable wave.old.format }
    requires frames { size % wave.old.format.channels ≡ 0 }
    requires room { size ≤ block.old.samples.room }
    ensures fills { IfOk result (FillsBlock wave.old wave.new block.new.samples.items size) }
    ensures room { block.new.samples.room ≡ block.old.samples.room }
    ensures same { SameReading wave.old wave.new }
    ensures failed { wave.new.failed ≡ is_err result }
    ensures cause { HasCause wave.old.faults wave.new.faults result }
{
    block.samples.set_len(size);
    let frames = read_block(wave, block.samples.as_mut_slice())?;
    Ok(frames as u32 * u32::from(wave.format().channels))
}

impl<S: Source> DiskPlayer<S> {
    ghost use Rattle.std.specs.Prelude.{◌≡◌, ◌%◌, ◌^◌, ◌<◌, ◌≤◌, [], None, false, true, IfErr, IfOk, OnErr, OnOk, is_err, length};
    ghost use Rattle.jack_host.specs.Causes.{HasCause};
    ghost use Rattle.driver_words.specs.Rings.{IsFull, IsPair, Tells};
    ghost use Rattle.wave_pcm.specs.Readings.{IsReadable};
    ghost use Rattle.disk_player.specs.Insides.{LooksAhead, PutsNext};
    ghost use Rattle.disk_player.specs.Turning.{Breaks, IsReady, Turns};

    /// The player of a file of which no sample was read, over a ring into which nothing was put. The ring's
    /// blocks are of whole frames of the file, and `block` is one as it was made.
    pub fn new(wave: Wave<S>, producer: Producer, block: Block) -> DiskPlayer<S>
        requires fresh { (wave.given ≡ 0) × (wave.failed ≡ false) }
        requires readable { IsReadable wave.format }
        requires empty { (producer.put ≡ []) × (producer.ended ≡ false) }
        requires most { 2 ^ 33 ≤ producer.most }
        requires frames { (0 < producer.samples) × (producer.samples % wave.format.channels ≡ 0) }
        requires block { (length block.samples.items ≡ producer.samples) × (block.samples.room ≡ producer.samples) }
        ensures { result ≡ record { format = wave.format; sending = producer; left = wave.left; waiting = None; over = false; failed = false; faults = wave.faults } }
    {
        let size = block.samples.len();
        DiskPlayer {
            wave,
            producer,
            block,
            size,
            waiting: 0,
            exhausted: false,
            ended: false,
        }
    }

    // Reads the next block where none waits, and ends the ring where the file has no frame left.
    fn look_ahead(&mut self) -> Result<(), ReadFailed>
        requires { self.old.failed ≡ false }
        ensures ahead { IfOk result (λ _. LooksAhead self.old self.new) }
        ensures kept { OnErr result (self.new.sending ≡ self.old.sending) }
        ensures format { OnErr result (self.new.format ≡ self.old.format) }
        ensures none { OnErr result ((self.old.waiting ≡ None) × (self.old.sending.ended ≡ false)) }
        ensures failed { self.new.failed ≡ is_err result }
        ensures cause { HasCause self.old.faults self.new.faults result }
    {
        if self.ended {
            return Ok(());
        }
        if self.waiting > 0 {
            return Ok(());
        }
        if !self.exhausted {
            let count = fill_block(&mut self.wave, &mut self.block, self.size)?;
            self.waiting = count;
            self.exhausted = count < self.size;
        }
        if self.waiting == 0 {
            self.producer.end();
            self.ended = true;
        }
        Ok(())
    }

    // Whether the ring's end stands.
    fn is_over(&self) -> bool
        ensures { result ≡ self.now.sending.ended }
    {
        self.ended
    }

    // Puts the block that waits.
    fn put(&mut self) -> Result<(), Full>
        requires { IsReady self.old × (self.old.sending.ended ≡ false) }
        ensures went { OnOk result (PutsNext self.old self.new) }
        ensures full { IfErr result (λ full. IsFull self.old.sending full.taken self.new.sending × (full.sent ≡ length self.old.sending.put)) }
        ensures kept { OnErr result (self.new ≡ record self.old { sending = self.new.sending }) }
    {
        self.producer.put(&mut self.block)?;
        self.waiting = 0;
        Ok(())
    }

    /// Puts blocks of the file until `most` were put, the ring is full, or the file has no frame left; then
    /// the ring ends. A block that the full ring refused waits for a later turn.
    ///
    /// After a failure only `tell` and `into_source` may be called.
    pub fn turn(&mut self, most: u32) -> Result<TurnEnd, ReadFailed>
        requires { self.old.failed ≡ false }
        ensures ok { IfOk result (Turns most self.old self.new) }
        ensures err { OnErr result (Breaks most self.old self.new) }
        ensures failed { self.new.failed ≡ is_err result }
        ensures cause { HasCause self.old.faults self.new.faults result }
    {
        self.look_ahead()?;
        for count in 0..most {
            if self.is_over() {
                return Ok(TurnEnd::Ended);
            }
            if let Err(Full { sent, taken }) = self.put() {
                return Ok(TurnEnd::Full { sent, taken });
            }
            self.look_ahead()?;
        }
        if self.is_over() {
            Ok(TurnEnd::Ended)
        } else {
            Ok(TurnEnd::Put(most))
        }
    }

    /// Tells both ends of the ring how far the other has come, and the end that gets whether the end stands.
    pub fn tell(&mut self, consumer: &mut Consumer)
        requires { IsPair self.old.sending consumer.old }
        ensures tells { Tells self.old.sending consumer.old self.new.sending consumer.new }
        ensures pair { IsPair self.new.sending consumer.new }
        ensures same { self.new ≡ record self.old { sending = self.new.sending } }
    {
        tell(&mut self.producer, consumer);
    }

    /// Hands the source back.
    pub fn into_source(self) -> S
        ensures { S.faults result ≡ self.faults }
    {
        self.wave.into_source()
    }
}

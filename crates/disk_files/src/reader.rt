//! The reader of a disk file.

use disk_player::DiskPlayer;
use disk_serving::read_on;
use jack_host::{Gate, ReadFailed, Source};
use jack_types::Memory;
use record_ring::{Block, Consumer, Producer};
use std::alloc::Global;
use std::marker::Model;
use std::sync::Wait;
use std::sync::atomic::AtomicBool;
use wave_pcm::Wave;

/// The reader of a disk file in a session: it puts the file's blocks into a ring, and the ring's two ends
/// meet where it did.
///
/// Contracts see a `Playing`. No call but `new` takes memory.
#[derive(Drop)]
pub struct DiskReader<S: Source> {
    player: DiskPlayer<S>,
    has_failed: bool,
}

impl<S: Source> Model for DiskReader<S> {
    ghost use Rattle.std.specs.Prelude.{◌≡◌};
    ghost use Rattle.disk_player.specs.Playing.{Playing};

    ghost Value = { Playing };

    ghost view = { λ r. r.player };

    ghost invariant = { λ r. r.has_failed ≡ r.player.failed };
}

impl<S: Source> DiskReader<S> {
    ghost use Rattle.std.specs.Prelude.{◌≡◌, ◌%◌, ◌^◌, ◌<◌, ◌≤◌, [], IfErr, IfOk, None, OnErr, OnOk, false, is_err, length};
    ghost use Rattle.jack_host.specs.Causes.{HasCause};
    ghost use Rattle.driver_words.specs.Rings.{IsPair};
    ghost use Rattle.wave_pcm.specs.Readings.{IsReadable};
    ghost use Rattle.disk_serving.specs.Serving.{ReadsOff, ReadsOn};
    ghost use Rattle.disk_files.specs.Readers.{BreaksAhead, ReadsAhead, TellsAhead};

    /// The reader of a file of which no sample was read, over a new ring of blocks of so many samples, which
    /// are whole frames. Where memory lacks, the file comes back.
    pub fn new(
        alloc: Global,
        wave: Wave<S>,
        producer: Producer,
        samples: u32,
    ) -> Result<DiskReader<S>, (Wave<S>, Memory)>
        requires fresh { (wave.given ≡ 0) × (wave.failed ≡ false) }
        requires readable { IsReadable wave.format }
        requires empty { (producer.put ≡ []) × (producer.ended ≡ false) }
        requires most { 2 ^ 33 ≤ producer.most }
        requires samples { producer.samples ≡ samples }
        requires frames { (0 < samples) × (samples % wave.format.channels ≡ 0) }
        ensures made { IfOk result (λ reader. reader ≡ record { format = wave.format; sending = producer; left = wave.left; waiting = None; over = false; failed = false; faults = wave.faults }) }
        ensures back { IfErr result (λ refused. refused.0 ≡ wave) }
    {
        match Block::new(alloc, samples) {
            Ok(block) => Ok(DiskReader {
                player: DiskPlayer::new(wave, producer, block),
                has_failed: false,
            }),
            Err(_) => Err((wave, Memory)),
        }
    }

    /// Puts at most so many blocks of the file into the ring, and ends it behind the last; then the ring's
    /// ends meet, also where a read failed. After that only `tell` and `into_source` may be called.
    pub fn read_ahead(&mut self, consumer: &mut Consumer, most: u32) -> Result<(), ReadFailed>
        requires going { self.old.failed ≡ false }
        requires pair { IsPair self.old.sending consumer.old }
        ensures ok { OnOk result (ReadsAhead most self.old consumer.old self.new consumer.new) }
        ensures err { OnErr result (BreaksAhead most self.old consumer.old self.new consumer.new) }
        ensures pair { IsPair self.new.sending consumer.new }
        ensures failed { self.new.failed ≡ is_err result }
        ensures cause { HasCause self.old.faults self.new.faults result }
    {
        let turned = self.player.turn(most);
        self.player.tell(consumer);
        self.has_failed = turned.is_err();
        turned?;
        Ok(())
    }

    /// Lets the ring's ends meet: each learns how far the other has come, and the one that gets whether the
    /// end stands.
    pub fn tell(&mut self, consumer: &mut Consumer)
        requires { IsPair self.old.sending consumer.old }
        ensures tells { TellsAhead self.old consumer.old self.new consumer.new }
        ensures pair { IsPair self.new.sending consumer.new }
    {
        self.player.tell(consumer);
    }

    /// The reader of a file of which no sample was read, over a new ring, and with a block that was made for
    /// it.
    pub fn of(wave: Wave<S>, producer: Producer, block: Block) -> DiskReader<S>
        requires fresh { (wave.given ≡ 0) × (wave.failed ≡ false) }
        requires readable { IsReadable wave.format }
        requires empty { (producer.put ≡ []) × (producer.ended ≡ false) }
        requires most { 2 ^ 33 ≤ producer.most }
        requires frames { (0 < producer.samples) × (producer.samples % wave.format.channels ≡ 0) }
        requires block { (length block.samples.items ≡ producer.samples) × (block.samples.room ≡ producer.samples) }
        ensures { result ≡ record { format = wave.format; sending = producer; left = wave.left; waiting = None; over = false; failed = false; faults = wave.faults } }
    {
        DiskReader {
            player: DiskPlayer::new(wave, producer, block),
            has_failed: false,
        }
    }

    /// Puts blocks of the file into the ring until its end stands, or `over` says that the cycles are over.
    /// The ends do not meet: the other one is with the cycles. After a failure only `tell` and `into_source`
    /// may be called.
    pub fn read_on<R: Wait, G: Gate>(
        &mut self,
        wait: &R,
        gate: &G,
        place: u8,
        over: &AtomicBool,
    ) -> Result<(), ReadFailed>
        requires going { self.old.failed ≡ false }
        ensures ok { OnOk result (ReadsOn self.old self.new) }
        ensures err { OnErr result (ReadsOff self.old self.new) }
        ensures failed { self.new.failed ≡ is_err result }
        ensures cause { HasCause self.old.faults self.new.faults result }
    {
        let went = read_on(wait, gate, &mut self.player, place, over);
        self.has_failed = went.is_err();
        went
    }

    /// Whether a read of its file failed. Behind that no block is read.
    pub fn failed(&self) -> bool
        ensures { result ≡ self.now.failed }
    {
        self.has_failed
    }

    /// Hands the file's source back.
    pub fn into_source(self) -> S
        ensures { S.faults result ≡ self.faults }
    {
        self.player.into_source()
    }
}

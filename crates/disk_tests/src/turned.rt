//! How the turns of a disk file's player end.

ghost use Rattle.std.specs.Prelude.{◌≡◌, ◌^◌, [], false};
ghost use Rattle.wave_pcm.specs.Readings.{IsReadable};

use crate::deck::wave_of;
use crate::files::{FIRST, FOUR, LOST, SECOND, TEN, THIRD};
use disk_player::{DiskPlayer, TurnEnd};
use host_memory::MemorySource;
use record_ring::{Block, Consumer, Got, Producer, ring};
use std::alloc::Global;
use std::marker::Model;
use std::process::Abort;
use wave_pcm::Wave;

/// A step of a test.
#[derive(Clone, Copy)]
enum Step {
    /// A turn of up to so many blocks ends so.
    Turn(u32, TurnEnd),
    /// The ring's consumer gets this block.
    Block([i32; 4]),
    /// It gets no block, but this answer.
    Other(Got),
}

/// The player of a file of one channel over a ring of two blocks of four samples, and the ring's consumer with the block that it
/// fills.
///
/// Contracts see nothing of it.
#[derive(Drop)]
struct Disk {
    player: DiskPlayer<MemorySource>,
    consumer: Consumer,
    block: Block,
    has_failed: bool,
}

impl Model for Disk {
    ghost use Rattle.std.specs.Prelude.{◌≡◌, ⊤};

    ghost Value = { ⊤ };

    ghost view = { λ _. tt };

    ghost invariant = { λ d. (d.player.failed ≡ d.has_failed) × (d.block.samples.room ≡ d.consumer.samples) };
}

/// A new ring, and a block to fill and one to put.
fn player_of(
    rt: &impl Abort,
    alloc: Global,
    wave: Wave<MemorySource>,
    producer: Producer,
) -> DiskPlayer<MemorySource>
    requires fresh { (wave.given ≡ 0) × (wave.failed ≡ false) }
    requires readable { IsReadable wave.format }
    requires channels { wave.format.channels ≡ 1 }
    requires empty { (producer.put ≡ []) × (producer.ended ≡ false) }
    requires sizes { (producer.samples ≡ 4) × (producer.most ≡ 2 ^ 33) }
    ensures { result.failed ≡ false }
{
    let block = Block::new(alloc, 4).expect(rt, "room for a block");
    DiskPlayer::new(wave, producer, block)
}

impl Disk {
    fn open(rt: &impl Abort, alloc: Global, file: &[u8]) -> Disk {
        let wave = wave_of(rt, alloc, file, 0).expect(rt, "a wave");
        let (producer, consumer) = ring(alloc, 2, 4, 1 << 33).expect(rt, "room for a ring");
        let block = Block::new(alloc, 4).expect(rt, "room for a block");
        Disk {
            player: player_of(rt, alloc, wave, producer),
            consumer,
            block,
            has_failed: false,
        }
    }

    /// Takes these steps with the new player of a file, one after the other.
    fn play(rt: &impl Abort, alloc: Global, file: &[u8], steps: &[Step]) {
        let mut disk = Disk::open(rt, alloc, file);
        for step in steps {
            disk.step(rt, *step);
        }
    }

    fn step(&mut self, rt: &impl Abort, step: Step) {
        match step {
            Step::Turn(most, end) => self.turns(rt, most, end),
            Step::Block(samples) => self.gets(rt, &samples),
            Step::Other(got) => assert_eq!(rt; self.consumer.get(&mut self.block), got),
        }
    }

    fn turns(&mut self, rt: &impl Abort, most: u32, end: TurnEnd) {
        assert!(rt; !self.has_failed);
        let turned = self.player.turn(most);
        self.has_failed = turned.is_err();
        assert!(rt; turned == Ok(end));
    }

    fn gets(&mut self, rt: &impl Abort, samples: &[i32]) {
        assert_eq!(rt; self.consumer.get(&mut self.block), Got::Block);
        assert_eq!(rt; self.block.samples.as_slice(), samples);
    }
}

#[test]
fn a_file_ends_with_its_last_block(rt: HostRuntime) {
    Disk::play(
        &rt,
        rt.alloc(),
        TEN,
        &[
            Step::Turn(1, TurnEnd::Put(1)),
            Step::Turn(1, TurnEnd::Put(1)),
            Step::Block(FIRST),
            Step::Turn(1, TurnEnd::Ended),
            Step::Turn(1, TurnEnd::Ended),
            Step::Block(SECOND),
            Step::Block(THIRD),
            Step::Other(Got::Ended),
        ],
    );
}

#[test]
fn a_full_ring_keeps_the_block(rt: HostRuntime) {
    Disk::play(
        &rt,
        rt.alloc(),
        TEN,
        &[
            Step::Turn(3, TurnEnd::Full { sent: 2, taken: 0 }),
            Step::Turn(3, TurnEnd::Full { sent: 2, taken: 0 }),
            Step::Block(FIRST),
            Step::Turn(3, TurnEnd::Ended),
            Step::Block(SECOND),
            Step::Block(THIRD),
            Step::Other(Got::Ended),
        ],
    );
}

#[test]
fn a_turn_of_no_block_reads_ahead(rt: HostRuntime) {
    Disk::play(
        &rt,
        rt.alloc(),
        FOUR,
        &[
            Step::Turn(0, TurnEnd::Put(0)),
            Step::Other(Got::Empty { sent: 0, taken: 0 }),
            Step::Turn(1, TurnEnd::Ended),
            Step::Block(FIRST),
            Step::Other(Got::Ended),
        ],
    );
}

#[test]
fn a_file_without_a_frame_is_ended_at_once(rt: HostRuntime) {
    Disk::play(
        &rt,
        rt.alloc(),
        LOST,
        &[Step::Turn(0, TurnEnd::Ended), Step::Other(Got::Ended)],
    );
}

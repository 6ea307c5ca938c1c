//! A disk file and its player.

ghost use Rattle.std.specs.Prelude.{◌≡◌, ◌≤◌, ◌^◌, IfSome, [], false};
ghost use Rattle.driver_words.specs.Rings.{IsPair};
ghost use Rattle.wave_pcm.specs.Readings.{IsReadable};
ghost use Rattle.driver_words.specs.Feeding.{disk_at};
ghost use Rattle.disk_tests.specs.Decks.{IsFedDeck, IsNewDeck};

use disk_feeds::{DiskFeeds, a_cycle_leaves_the_disks_ready, new_disks_are_ready};
use disk_files::DiskReader;
use host_memory::MemorySource;
use jack_types::{Client, ClientId, ClientName, Kind, Underrun};
use record_ring::Producer;
use std::alloc::Global;
use std::marker::Model;
use std::process::Abort;
use wave_pcm::Wave;

/// No worked session has more underruns.
const MOST_UNDERRUNS: usize = 16;

/// A step of a test.
#[derive(Clone, Copy)]
pub enum Step {
    /// Up to so many blocks are read ahead.
    Turn(u32),
    /// The ring's ends meet, and nothing is read.
    Meeting,
    /// In the next cycle the disk's player has this block.
    Plays([i32; 4]),
    /// In the next cycle it has none: so many blocks were put into the ring, and so many taken.
    Misses(u64, u64),
    /// In the next cycle nobody plays the disk.
    Rests,
    /// So many blocks of the file were played so far.
    Played(u64),
}

/// The reader of a disk file of one channel, over a ring of two blocks of four frames, and the end of the ring from which the
/// disk's player has its blocks.
///
/// Contracts see nothing of it.
#[derive(Drop)]
pub struct Deck {
    reader: DiskReader<MemorySource>,
    feeds: DiskFeeds,
    player: Client,
    cycles: u32,
    missed: usize,
    has_failed: bool,
}

impl Model for Deck {
    ghost use Rattle.std.specs.Prelude.{⊤};
    ghost use Rattle.disk_tests.specs.Decks.{IsDeck};

    ghost Value = { ⊤ };

    ghost view = { λ _. tt };

    ghost invariant = { λ d. IsDeck d.reader d.feeds d.has_failed };
}

/// The node of the disk's player.
fn player(rt: &impl Abort) -> Client {
    let Ok(name) = ClientName::read("d") else {
        panic!(rt; "a name");
    };
    Client {
        id: ClientId(0),
        name,
        birth: 1,
        kind: Kind::Disk { disk: 0 },
        active: true,
        slow: 0,
    }
}

fn new_feeds(rt: &impl Abort, alloc: Global) -> DiskFeeds
    ensures { IsNewDeck result }
{
    match DiskFeeds::new(alloc, &[1], 2, 4, MOST_UNDERRUNS) {
        Ok(feeds) => feeds,
        Err(_) => panic!(rt; "room for a ring"),
    }
}

/// A file of one channel, of which the read of this number fails, counted from 1; none where that is one of its header.
pub fn wave_of(
    rt: &impl Abort,
    alloc: Global,
    file: &[u8],
    refused: u32,
) -> Option<Wave<MemorySource>>
    ensures fresh { IfSome result (λ wave. (wave.given ≡ 0) × (wave.failed ≡ false)) }
    ensures readable { IfSome result (λ wave. IsReadable wave.format) }
    ensures channels { IfSome result (λ wave. wave.format.channels ≡ 1) }
{
    let bytes = file.to_vec(alloc).expect(rt, "room for a file");
    let mut source = MemorySource::new(alloc, bytes);
    assert!(rt; source.refuse(refused).is_ok(), "room for a refusal");
    match Wave::open(source) {
        Ok(wave) => {
            assert_eq!(rt; wave.format().channels, 1);
            Some(wave)
        }
        Err(_) => None,
    }
}

/// The end of the ring that puts.
fn take_end(rt: &impl Abort, feeds: &mut DiskFeeds) -> Producer
    requires { IsNewDeck feeds.old }
    ensures empty { (result.put ≡ []) × (result.ended ≡ false) }
    ensures sizes { (result.samples ≡ 4) × (result.most ≡ 2 ^ 33) }
    ensures pair { IsPair result (disk_at feeds.new 0) }
    ensures feeds { IsFedDeck feeds.new }
{
    new_disks_are_ready();
    match feeds.producer(0) {
        Some(producer) => producer,
        None => panic!(rt; "an end"),
    }
}

/// The reader of a file over the end of a ring.
fn reader_of(
    rt: &impl Abort,
    alloc: Global,
    wave: Wave<MemorySource>,
    producer: Producer,
) -> DiskReader<MemorySource>
    requires fresh { (wave.given ≡ 0) × (wave.failed ≡ false) }
    requires readable { IsReadable wave.format }
    requires channels { wave.format.channels ≡ 1 }
    requires empty { (producer.put ≡ []) × (producer.ended ≡ false) }
    requires sizes { (producer.samples ≡ 4) × (producer.most ≡ 2 ^ 33) }
    ensures sending { result.sending ≡ producer }
    ensures going { result.failed ≡ false }
{
    match DiskReader::new(alloc, wave, producer, 4) {
        Ok(reader) => reader,
        Err(_) => panic!(rt; "room for a block"),
    }
}

impl Deck {
    /// The deck of a file, of which the read of this number fails; none where that is one of its header.
    pub fn open(rt: &impl Abort, alloc: Global, file: &[u8], refused: u32) -> Option<Deck> {
        let wave = wave_of(rt, alloc, file, refused)?;
        let mut feeds = new_feeds(rt, alloc);
        let producer = take_end(rt, &mut feeds);
        let reader = reader_of(rt, alloc, wave, producer);
        Some(Deck {
            reader,
            feeds,
            player: player(rt),
            cycles: 0,
            missed: 0,
            has_failed: false,
        })
    }

    /// Takes these steps with a new deck of a file, one after the other.
    pub fn play(rt: &impl Abort, alloc: Global, file: &[u8], steps: &[Step]) {
        let mut deck = Deck::open(rt, alloc, file, 0).expect(rt, "a wave");
        deck.walk(rt, steps);
    }

    /// Takes these steps, one after the other.
    pub fn walk(&mut self, rt: &impl Abort, steps: &[Step]) {
        for step in steps {
            self.step(rt, *step);
        }
    }

    fn step(&mut self, rt: &impl Abort, step: Step) {
        match step {
            Step::Turn(most) => assert!(rt; self.turn(rt, most)),
            Step::Meeting => self.meet(),
            Step::Plays(block) => self.plays(rt, &block),
            Step::Misses(sent, taken) => self.misses(rt, sent, taken),
            Step::Rests => self.rests(rt),
            Step::Played(blocks) => assert_eq!(rt; self.feeds.played(0), blocks),
        }
    }

    /// Reads up to so many blocks ahead, and answers whether no read failed. Behind one that did there is no other turn.
    pub fn turn(&mut self, rt: &impl Abort, most: u32) -> bool {
        assert!(rt; !self.has_failed);
        let read = self.reader.read_ahead(self.feeds.consumer(0), most);
        self.has_failed = read.is_err();
        !self.has_failed
    }

    fn meet(&mut self) {
        self.reader.tell(self.feeds.consumer(0));
    }

    /// A cycle of these nodes.
    fn cycle(&mut self, rt: &impl Abort, nodes: &[Client]) {
        a_cycle_leaves_the_disks_ready();
        assert!(rt; self.feeds.underruns().len() < MOST_UNDERRUNS);
        self.cycles = self.cycles.saturating_add(1);
        self.feeds.get_blocks(nodes, self.cycles);
    }

    /// What the player has in the last cycle, and how many were missed so far.
    fn has(&self, rt: &impl Abort, block: Option<&[i32]>) {
        assert_eq!(rt; self.feeds.block(0), block);
        assert_eq!(rt; self.feeds.underruns().len(), self.missed);
    }

    fn plays(&mut self, rt: &impl Abort, block: &[i32]) {
        let nodes = [self.player];
        self.cycle(rt, &nodes);
        self.has(rt, Some(block));
    }

    fn misses(&mut self, rt: &impl Abort, sent: u64, taken: u64) {
        let nodes = [self.player];
        self.cycle(rt, &nodes);
        self.missed = self.missed.saturating_add(1);
        self.has(rt, None);
        let missed = Underrun {
            disk: 0,
            cycle: self.cycles,
            sent,
            taken,
        };
        assert!(rt; self.feeds.underruns().last() == Some(&missed));
    }

    fn rests(&mut self, rt: &impl Abort) {
        self.cycle(rt, &[]);
        self.has(rt, None);
    }
}

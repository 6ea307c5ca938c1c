//! The driver's end of the disks' rings.

use crate::feed::Feed;
use jack_types::Underrun;
use record_ring::{Consumer, Producer};
use std::marker::Model;

/// The ends of the disks' rings that get, with the blocks that the players have in a cycle.
///
/// Contracts see a `Fed`. Disks are counted from 0. No call but `new` takes memory.
#[derive(Drop)]
pub struct DiskFeeds {
    pub(crate) disks: Vec<Consumer>,
    pub(crate) out: Vec<Option<Producer>>,
    pub(crate) feeds: Vec<Feed>,
    pub(crate) underruns: Vec<Underrun>,
    pub(crate) period: u32,
}

impl Model for DiskFeeds {
    ghost use Rattle.std.specs.Prelude.{vec_capacity};
    ghost use Rattle.driver_words.specs.Feeding.{Fed};
    ghost use Rattle.disk_feeds.specs.Insides.{fed_of, IsSound};

    ghost Value = { Fed };

    ghost view = { λ f. fed_of f.disks.items f.out.items f.feeds.items f.underruns.items f.period (vec_capacity f.underruns) };

    ghost invariant = { λ f. IsSound f.disks.items f.out.items f.feeds.items f.period };
}

impl DiskFeeds {
    ghost use Rattle.std.specs.Prelude.{◌≡◌, ◌*◌, ◌<◌, ◌≤◌, IfSome, None, length, slice_set};
    ghost use Rattle.std.specs.Option.{option_copied};
    ghost use Rattle.std.specs.Borrow.{sem, Lends};
    ghost use Rattle.record_ring.specs.contracts.consumer.Consumer.{the_row as the_consumer};
    ghost use Rattle.disk_feeds.specs.contracts.feeds.DiskFeeds.{the_row};
    ghost use Rattle.driver_words.specs.Feeding.{block_at, channels_at, disk_at, played_at, producer_at};

    /// How many disks there are.
    pub fn len(&self) -> usize
        ensures { result ≡ length self.now.disks }
    {
        self.disks.len()
    }

    /// How many channels a disk's blocks have.
    pub fn channels(&self, disk: u8) -> u16
        requires { disk < length self.now.disks }
        ensures channels { result ≡ channels_at self.now disk }
        ensures few { (1 ≤ result) × (result ≤ 8) }
    {
        self.feeds[usize::from(disk)].channels
    }

    /// How many blocks the cycles got from a disk's ring.
    pub fn played(&self, disk: u8) -> u64
        requires { disk < length self.now.disks }
        ensures { result ≡ played_at self.now disk }
    {
        self.feeds[usize::from(disk)].played
    }

    /// The block that a disk's player has in the last cycle, a period frame by frame: of the file, or zeros
    /// behind its end. None where nobody played the disk, in an underrun, and where there is no such disk.
    pub fn block(&self, disk: u8) -> Option<&[i32]>
        ensures block { option_copied result ≡ block_at self.now disk }
        ensures there { IfSome result (λ block. disk < length self.now.disks) }
        ensures whole { IfSome result (λ block. length block.now ≡ channels_at self.now disk * self.now.period) }
    {
        let feed = self.feeds.get(usize::from(disk))?;
        if feed.is_given {
            Some(feed.block.samples.as_slice())
        } else {
            None
        }
    }

    /// The underruns of all disks, in the order in which they came.
    pub fn underruns(&self) -> &[Underrun]
        ensures { result.now ≡ self.now.underruns }
    {
        self.underruns.as_slice()
    }

    /// The end of a disk's ring that gets, to meet the other end.
    pub fn consumer(&mut self, disk: u8) -> &mut Consumer
        requires { disk < length self.old.disks }
        ensures* writes_back { sem 𝓛 (Lends the_row the_consumer self.entry result (λ ring. record self.old { disks = slice_set self.old.disks disk ring })) }
        ensures value { result.now ≡ disk_at self.old disk }
    {
        &mut self.disks[disk as usize]
    }

    /// Hands the other end of a disk's ring out, None exactly where it is out.
    pub fn producer(&mut self, disk: u8) -> Option<Producer>
        requires { disk < length self.old.disks }
        ensures end { result ≡ producer_at self.old disk }
        ensures after { self.new ≡ record self.old { out = slice_set self.old.out disk None } }
    {
        self.out[usize::from(disk)].take()
    }
}

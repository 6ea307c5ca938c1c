//! How a cycle gets its blocks.

ghost use Rattle.std.specs.Prelude.{◌≡◌, ◌<◌, ◌^◌, [], length, true};
ghost use Rattle.driver_laws.specs.Cycling.{GetsOne};
ghost use Rattle.disk_feeds.specs.Insides.{FeedsFrom, listed};

use crate::feed::Feed;
use crate::feeds::DiskFeeds;
use crate::finding::is_played;
use jack_types::{Client, Underrun};
use record_ring::{Consumer, Got};

/// Gets a disk's block; where the ring is empty, the underrun comes back.
fn get_block(ring: &mut Consumer, feed: &mut Feed, disk: u8, cycle: u32) -> Option<Underrun>
    requires room { feed.old.block.samples.room ≡ ring.old.samples }
    requires whole { length feed.old.block.samples.items ≡ feed.old.block.samples.room }
    ensures gets { GetsOne cycle disk true ring.old ring.new [] (listed result) }
    ensures feeds { FeedsFrom feed.old feed.new ring.old ring.new }
    ensures few { length ring.new.got < 2 ^ 63 }
{
    match feed.get(ring) {
        Got::Empty { sent, taken } => Some(Underrun {
            disk,
            cycle,
            sent,
            taken,
        }),
        _ => None,
    }
}

impl DiskFeeds {
    ghost use Rattle.std.specs.Prelude.{false, true};
    ghost use Rattle.port_registry.specs.Registered.{open_clients};
    ghost use Rattle.disk_feeds.specs.Cycling.{GetsAll, is_fed};
    ghost use Rattle.driver_words.specs.Feeding.{MayGet};
    ghost use Rattle.disk_feeds.specs.Steps.{GetsOnly, MayGetOne};

    // Gets the next block of a disk.
    fn get(&mut self, disk: u8, cycle: u32)
        requires { MayGetOne self.old disk }
        ensures { GetsOnly true cycle disk self.old self.new }
    {
        let place = usize::from(disk);
        let missed = get_block(&mut self.disks[place], &mut self.feeds[place], disk, cycle);
        if let Some(underrun) = missed {
            self.underruns.push_reserved(underrun);
        }
    }

    // Gets nothing of a disk.
    fn rest(&mut self, disk: u8, cycle: u32)
        requires { MayGetOne self.old disk }
        ensures { GetsOnly false cycle disk self.old self.new }
    {
        self.feeds[usize::from(disk)].rest();
    }

    // Gets the next block of a disk, if a client of these nodes plays it.
    fn get_for(&mut self, nodes: &[Client], disk: u8, cycle: u32)
        requires { MayGetOne self.old disk }
        ensures { GetsOnly (is_fed (open_clients nodes.now) disk) cycle disk self.old self.new }
    {
        if is_played(nodes, disk) {
            self.get(disk, cycle);
        } else {
            self.rest(disk, cycle);
        }
    }

    /// Gets the next block of each disk that a client of these nodes plays, for a cycle. Where a ring is
    /// empty and has no end, an underrun is added with the counts of this get.
    pub fn get_blocks(&mut self, nodes: &[Client], cycle: u32)
        requires { MayGet self.old }
        ensures { GetsAll (open_clients nodes.now) cycle self.old self.new }
    {
        let count = self.disks.len() as u8;
        for disk in 0..count {
            self.get_for(nodes, disk, cycle);
        }
    }
}

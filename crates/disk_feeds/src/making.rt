//! How the disks' rings are made.

ghost use Rattle.std.specs.Prelude.{◌≡◌, ◌<◌, ◌≤◌, All, IfOk, length};
ghost use Rattle.disk_feeds.specs.Insides.{AreMade};
ghost use Rattle.disk_feeds.specs.Openings.{AreOpened, IsNew};

use crate::MOST_SAMPLES;
use crate::feed::Feed;
use crate::feeds::DiskFeeds;
use jack_types::Memory;
use record_ring::{Consumer, Producer, ring};
use std::alloc::{AllocError, Global};

/// The two ends of each disk's ring.
#[derive(Drop)]
struct Ends {
    disks: Vec<Consumer>,
    out: Vec<Option<Producer>>,
}

/// A ring for each disk, for blocks of a period.
fn open_rings(
    alloc: Global,
    channels: &[u16],
    capacity: u32,
    period: u32,
) -> Result<Ends, AllocError>
    requires channels { All (λ count. (1 ≤ count) × (count ≤ 8)) channels.now }
    requires capacity { (0 < capacity) × (capacity ≤ 64) }
    requires period { period ≤ 4096 }
    ensures { IfOk result (λ ends. AreOpened capacity period channels.now ends.disks.items ends.out.items) }
{
    let mut disks = Vec::new(alloc);
    let mut out = Vec::new(alloc);
    for count in channels {
        let samples = period * u32::from(*count);
        let (producer, consumer) = ring(alloc, capacity, samples, MOST_SAMPLES)?;
        disks.push(consumer)?;
        out.push(Some(producer))?;
    }
    Ok(Ends { disks, out })
}

/// A block of a period for each disk.
fn make_feeds(alloc: Global, channels: &[u16], period: u32) -> Result<Vec<Feed>, AllocError>
    requires channels { All (λ count. (1 ≤ count) × (count ≤ 8)) channels.now }
    requires period { period ≤ 4096 }
    ensures { IfOk result (λ feeds. AreMade period channels.now feeds.items) }
{
    let mut feeds = Vec::new(alloc);
    for count in channels {
        let feed = Feed::new(alloc, *count, period)?;
        feeds.push(feed)?;
    }
    Ok(feeds)
}

/// All that there is, in its room.
fn make(
    alloc: Global,
    channels: &[u16],
    capacity: u32,
    period: u32,
    underruns: usize,
) -> Result<DiskFeeds, AllocError>
    requires disks { length channels.now ≤ 255 }
    requires channels { All (λ count. (1 ≤ count) × (count ≤ 8)) channels.now }
    requires capacity { (0 < capacity) × (capacity ≤ 64) }
    requires period { period ≤ 4096 }
    ensures { IfOk result (IsNew channels.now capacity period underruns) }
{
    let Ends { disks, out } = open_rings(alloc, channels, capacity, period)?;
    let feeds = make_feeds(alloc, channels, period)?;
    let underruns = Vec::with_capacity(alloc, underruns)?;
    Ok(DiskFeeds {
        disks,
        out,
        feeds,
        underruns,
        period,
    })
}

impl DiskFeeds {
    ghost use Rattle.std.specs.Prelude.{◌<◌, ◌≤◌, All, IfOk, length};
    ghost use Rattle.disk_feeds.specs.Openings.{IsNew};

    /// The rings of disks of so many channels each, of so many blocks a ring, for periods of so many frames
    /// and at most so many underruns: one a disk and cycle is enough.
    pub fn new(
        alloc: Global,
        channels: &[u16],
        capacity: u32,
        period: u32,
        underruns: usize,
    ) -> Result<DiskFeeds, Memory>
        requires disks { length channels.now ≤ 255 }
        requires channels { All (λ count. (1 ≤ count) × (count ≤ 8)) channels.now }
        requires capacity { (0 < capacity) × (capacity ≤ 64) }
        requires period { period ≤ 4096 }
        ensures { IfOk result (IsNew channels.now capacity period underruns) }
    {
        match make(alloc, channels, capacity, period, underruns) {
            Ok(feeds) => Ok(feeds),
            Err(_) => Err(Memory),
        }
    }
}

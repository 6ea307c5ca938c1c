//! How the rings are made.

ghost use Rattle.std.specs.Prelude.{◌≡◌, ◌*◌, ◌<◌, ◌≤◌, IfOk, All, map};
ghost use Rattle.recorder_rings.specs.Openings.{AreOpened, IsNew};

use crate::MOST_SAMPLES;
use crate::rings::RecorderRings;
use jack_types::{Format, Memory};
use record_ring::{Block, Consumer, Producer, ring};
use std::alloc::{AllocError, Global};

/// The two ends of each recorder's ring.
#[derive(Drop)]
struct Ends {
    rings: Vec<Producer>,
    out: Vec<Option<Consumer>>,
}

/// How many channels the blocks of each recorder have.
fn list_channels(alloc: Global, formats: &[Format]) -> Result<Vec<u16>, AllocError>
    ensures { IfOk result (λ channels. channels.items ≡ map (λ format. format.channels) formats.now) }
{
    let mut channels = Vec::new(alloc);
    for format in formats {
        channels.push(format.channels)?;
    }
    Ok(channels)
}

/// A ring for each recorder, for blocks of a period.
fn open_rings(
    alloc: Global,
    channels: &[u16],
    capacity: u32,
    period: u32,
) -> Result<Ends, AllocError>
    requires channels { All (λ count. count ≤ 8) channels.now }
    requires capacity { (0 < capacity) × (capacity ≤ 64) }
    requires period { period ≤ 4096 }
    ensures { IfOk result (λ ends. AreOpened capacity period channels.now ends.rings.items ends.out.items) }
{
    let mut rings = Vec::new(alloc);
    let mut out = Vec::new(alloc);
    for count in channels {
        let samples = period * u32::from(*count);
        let (producer, consumer) = ring(alloc, capacity, samples, MOST_SAMPLES)?;
        rings.push(producer)?;
        out.push(Some(consumer))?;
    }
    Ok(Ends { rings, out })
}

/// A block of a period for each recorder.
fn make_blocks(alloc: Global, channels: &[u16], period: u32) -> Result<Vec<Block>, AllocError>
    requires channels { All (λ count. count ≤ 8) channels.now }
    requires period { period ≤ 4096 }
    ensures { IfOk result (λ blocks. map (λ block. block.samples.room) blocks.items ≡ map (λ count. period * count) channels.now) }
{
    let mut blocks = Vec::new(alloc);
    for count in channels {
        let block = Block::new(alloc, period * u32::from(*count))?;
        blocks.push(block)?;
    }
    Ok(blocks)
}

/// All that there is, in its room.
fn make(
    alloc: Global,
    formats: &[Format],
    capacity: u32,
    period: u32,
    overruns: usize,
) -> Result<RecorderRings, AllocError>
    requires channels { All (λ format. (1 ≤ format.channels) × (format.channels ≤ 8)) formats.now }
    requires capacity { (0 < capacity) × (capacity ≤ 64) }
    requires period { period ≤ 4096 }
    ensures { IfOk result (IsNew formats.now capacity period overruns) }
{
    let channels = list_channels(alloc, formats)?;
    let Ends { rings, out } = open_rings(alloc, &channels, capacity, period)?;
    let blocks = make_blocks(alloc, &channels, period)?;
    let sent = vec![in alloc; 0; formats.len()]?;
    let overruns = Vec::with_capacity(alloc, overruns)?;
    Ok(RecorderRings {
        rings,
        out,
        channels,
        sent,
        blocks,
        overruns,
        room: period,
    })
}

impl RecorderRings {
    ghost use Rattle.std.specs.Prelude.{◌<◌, ◌≤◌, IfOk, All};
    ghost use Rattle.recorder_rings.specs.Openings.{IsNew};

    /// The rings of recorders of these formats, each of so many blocks, for cycles of at most so many frames
    /// and at most so many overruns.
    pub fn new(
        alloc: Global,
        formats: &[Format],
        capacity: u32,
        period: u32,
        overruns: usize,
    ) -> Result<RecorderRings, Memory>
        requires channels { All (λ format. (1 ≤ format.channels) × (format.channels ≤ 8)) formats.now }
        requires capacity { (0 < capacity) × (capacity ≤ 64) }
        requires period { period ≤ 4096 }
        ensures { IfOk result (IsNew formats.now capacity period overruns) }
    {
        match make(alloc, formats, capacity, period, overruns) {
            Ok(rings) => Ok(rings),
            Err(_) => Err(Memory),
        }
    }
}

//! The readers of a session's disks, as they are made.

ghost use Rattle.std.specs.Prelude.{◌≡◌, ◌*◌, ◌≤◌, [], All, IfOk, length, map, vec_capacity};
ghost use Rattle.session_model.specs.Grammar.{IsScript};
ghost use Rattle.session_model.specs.Scripts.{turns};
ghost use Rattle.driver_laws.specs.Drivers.{greatest_period as the_greatest_period};
ghost use Rattle.disk_feeds.specs.Openings.{IsNew as AreNewFeeds};
ghost use Rattle.session_ends.specs.Openings.{AreDisks};
ghost use Rattle.session_ends.specs.Readers.{AreBlocks, AreReaders};

use client_kinds::Guest;
use jack_host::{Source, Store};
use jack_types::Memory;
use record_ring::Block;
use session_script::Script;
use session_works::script_needs::greatest_period;
use session_works::{DiskReader, Driver};
use std::alloc::{AllocError, Global};
use wave_pcm::Wave;

/// A block of a period for each disk of so many channels.
fn make_blocks(alloc: Global, channels: &[u16], period: u32) -> Result<Vec<Block>, AllocError>
    requires channels { All (λ count. (1 ≤ count) × (count ≤ 8)) channels.now }
    requires period { period ≤ 4096 }
    ensures { IfOk result (λ blocks. AreBlocks (map (λ count. period * count) channels.now) blocks.items) }
{
    let mut blocks = Vec::new(alloc);
    for count in channels {
        let block = Block::new(alloc, period * u32::from(*count))?;
        blocks.push(block)?;
    }
    Ok(blocks)
}

/// What the readers of a script's disks need besides their files: a block of a period each, and a list with room for them all.
pub(crate) fn make_room<S: Source>(
    alloc: Global,
    script: &Script,
) -> Result<(Vec<Block>, Vec<DiskReader<S>>), Memory>
    requires lawful { IsScript script.now }
    ensures blocks { IfOk result (λ room. AreBlocks (map (λ count. the_greatest_period script.now * count) script.now.header.disks) room.0.items) }
    ensures period { IfOk result (λ _. 4 ≤ the_greatest_period script.now) }
    ensures readers { IfOk result (λ room. (room.1.items ≡ []) × (length script.now.header.disks ≤ vec_capacity room.1)) }
{
    let header = script.header();
    let channels = header.disks.as_slice();
    let Ok(blocks) = make_blocks(alloc, channels, greatest_period(script)) else {
        return Err(Memory);
    };
    match Vec::with_capacity(alloc, channels.len()) {
        Ok(readers) => Ok((blocks, readers)),
        Err(_) => Err(Memory),
    }
}

/// The readers of the disks' files, each with a block of its own, over the ends of the driver's rings that put. They go into a
/// list that has room for them, so no memory is taken.
pub(crate) fn make_readers<S: Source, W: Store, G: Guest>(
    script: &Script,
    driver: &mut Driver<S, W, G>,
    mut waves: Vec<Wave<S>>,
    mut blocks: Vec<Block>,
    mut readers: Vec<DiskReader<S>>,
) -> Vec<DiskReader<S>>
    requires lawful { IsScript script.now }
    requires period { 4 ≤ the_greatest_period script.now }
    requires rings { AreNewFeeds script.now.header.disks script.now.header.ring (the_greatest_period script.now) (length (turns script.now) * length script.now.header.disks) driver.old.disks }
    requires disks { AreDisks script.now.header.disks waves.items }
    requires blocks { AreBlocks (map (λ count. the_greatest_period script.now * count) script.now.header.disks) blocks.items }
    requires room { (readers.items ≡ []) × (length script.now.header.disks ≤ vec_capacity readers) }
    ensures made { AreReaders script.now.header.ring (the_greatest_period script.now) driver.old.disks waves.items result.items }
    ensures driver { driver.new ≡ record driver.old { disks = record driver.old.disks { out = driver.new.disks.out } } }
{
    let count = script.header().disks.as_slice().len();
    for disk in 0..count {
        let Some(producer) = driver.disk_producer(disk as u8) else {
            unreachable!()
        };
        let wave = waves.remove(0);
        let block = blocks.remove(0);
        readers.push_reserved(DiskReader::of(wave, producer, block));
    }
    readers
}

//! How the driver gives way where a recorder's ring is full, or a disk's ring empty.

ghost use Rattle.std.specs.Prelude.{◌≡◌, length};

use crate::Driver;
use client_kinds::Guest;
use jack_host::{Source, Store};
use std::{hint, thread};

// How often the driver lets another thread run at most until each ring goes on. With its looks in between that takes some 25 to
// 200 ms on an idle machine, by how long its processor pauses.
const PATIENCE: u32 = 200;
// For how many of these it looks once behind each, so that a file on the same processor goes on at once.
const EAGER: u32 = 100;
// How often it looks behind each later one.
const LOOKS: u32 = 32_000;
// For how many cycles it goes on without giving way where that was in vain.
const REST: u32 = 1_000;

/// Whether the ring of a recorder has no free place. There are so many recorders.
fn has_full_ring<S: Source, W: Store, G: Guest>(driver: &mut Driver<S, W, G>, recorders: u8) -> bool
    requires all { length driver.old.rings.rings ≡ recorders }
    ensures { driver.new ≡ driver.old }
{
    for recorder in 0..recorders {
        if driver.producer(recorder).is_full() {
            return true;
        }
    }
    false
}

/// Whether the ring of a disk has no block, and its file is not over. There are so many disks.
///
/// A file that is over holds nobody up, since its ring's end stands, nor does a disk that nobody plays, since its ring stays full.
fn has_empty_ring<S: Source, W: Store, G: Guest>(driver: &mut Driver<S, W, G>, disks: u8) -> bool
    requires all { length driver.old.disks.disks ≡ disks }
    ensures { driver.new ≡ driver.old }
{
    for disk in 0..disks {
        if driver.disk_consumer(disk).is_empty() {
            return true;
        }
    }
    false
}

/// Whether a recorder or a disk is behind the cycles, so that the next one may lose a block or lack one.
fn is_held_up<S: Source, W: Store, G: Guest>(
    driver: &mut Driver<S, W, G>,
    recorders: u8,
    disks: u8,
) -> bool
    requires all { length driver.old.rings.rings ≡ recorders }
    requires all_disks { length driver.old.disks.disks ≡ disks }
    ensures { driver.new ≡ driver.old }
{
    let is_full = has_full_ring(driver, recorders);
    if is_full {
        return true;
    }
    has_empty_ring(driver, disks)
}

/// Looks at most so many times until no ring holds the driver up, and answers whether it goes on.
fn goes_on_soon<S: Source, W: Store, G: Guest>(
    driver: &mut Driver<S, W, G>,
    recorders: u8,
    disks: u8,
    looks: u32,
) -> bool
    requires all { length driver.old.rings.rings ≡ recorders }
    requires all_disks { length driver.old.disks.disks ≡ disks }
    ensures { driver.new ≡ driver.old }
{
    for _ in 0..looks {
        let is_held = is_held_up(driver, recorders, disks);
        if !is_held {
            return true;
        }
        hint::spin_loop();
    }
    false
}

// How often the driver looks behind its turn of that number.
fn looks_in(turn: u32) -> u32 {
    if turn < EAGER { 1 } else { LOOKS }
}

/// Gives way until the ring of each recorder has room and that of each disk a block or its end, but only so often, and not while
/// the driver rests from giving way. Answers for how many cycles it rests from now on: for none, where no ring holds it up.
pub(crate) fn give_way<S: Source, W: Store, G: Guest>(
    driver: &mut Driver<S, W, G>,
    recorders: u8,
    disks: u8,
    rest: u32,
) -> u32
    requires all { length driver.old.rings.rings ≡ recorders }
    requires all_disks { length driver.old.disks.disks ≡ disks }
    ensures { driver.new ≡ driver.old }
{
    let is_held = is_held_up(driver, recorders, disks);
    if !is_held {
        return 0;
    }
    if rest > 0 {
        return rest - 1;
    }
    for turn in 0..PATIENCE {
        thread::yield_now();
        let goes_on = goes_on_soon(driver, recorders, disks, looks_in(turn));
        if goes_on {
            return 0;
        }
    }
    REST
}

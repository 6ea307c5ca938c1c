//! The end of a driver's rings.

ghost use Rattle.std.specs.Prelude.{◌≡◌, All, false, length, map};
ghost use Rattle.cycle_driver.specs.Runs.{with_end};

use crate::Driver;
use client_kinds::Guest;
use jack_host::{Source, Store};

/// Ends the ring of each recorder, so that each that is served from one finds its end. There are so many of them.
///
/// No block follows until the two ends of a ring meet. One store for each ring.
pub fn end_rings<S: Source, W: Store, G: Guest>(driver: &mut Driver<S, W, G>, recorders: u8)
    requires all { length driver.old.rings.rings ≡ recorders }
    requires no_end { All (λ ring. ring.ended ≡ false) driver.old.rings.rings }
    ensures { driver.new ≡ record driver.old { rings = record driver.old.rings { rings = map with_end driver.old.rings.rings } } }
{
    for recorder in 0..recorders {
        driver.producer(recorder).end();
    }
}

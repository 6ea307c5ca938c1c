//! How blocks go into the rings of a session's disks.

ghost use Rattle.std.specs.Prelude.{◌≡◌, ◌<◌, ℕ, All, OnErr, OnOk, false, length, slice_set, true};
ghost use Rattle.driver_words.specs.Feeding.{disk_at};
ghost use Rattle.driver_words.specs.Rings.{IsPair};
ghost use Rattle.disk_runs.specs.disk_files.specs.Serving.{IsGoing};
ghost use Rattle.session_works.specs.DiskSteps.{AreReadOn, AreTold, AreTried, DisksMoved, SomeRose, TriedOne};
ghost use Rattle.session_works.specs.Insides.{DisksPaired};
ghost use Rattle.session_works.specs.Parts.{AreReadLater};

use client_kinds::Guest;
use cycle_driver::Driver;
use disk_runs::disk_files::DiskReader;
use jack_host::{ReadFailed, Source, Store};

/// Lets a disk's reader put at most so many blocks, and the ends of its ring meet. It answers whether no read failed.
fn read_one<S: Source, W: Store, G: Guest>(
    driver: &mut Driver<S, W, G>,
    reader: &mut DiskReader<S>,
    disk: u8,
    most: u32,
) -> bool
    requires there { disk < length driver.old.disks.disks }
    requires pair { IsPair reader.old.sending (disk_at driver.old.disks disk) }
    requires going { reader.old.failed ≡ false }
    ensures read { TriedOne most true result reader.old (disk_at driver.old.disks disk) reader.new (disk_at driver.new.disks disk) }
    ensures driver { driver.new ≡ record driver.old { disks = record driver.old.disks { disks = slice_set driver.old.disks.disks disk (disk_at driver.new.disks disk) } } }
{
    let read = reader.read_ahead(driver.disk_consumer(disk), most);
    read.is_ok()
}

/// Lets the ends of a disk's ring meet.
fn tell_one<S: Source, W: Store, G: Guest>(
    driver: &mut Driver<S, W, G>,
    reader: &mut DiskReader<S>,
    disk: u8,
)
    requires there { disk < length driver.old.disks.disks }
    requires pair { IsPair reader.old.sending (disk_at driver.old.disks disk) }
    ensures told { (most : ℕ) → TriedOne most false false reader.old (disk_at driver.old.disks disk) reader.new (disk_at driver.new.disks disk) }
    ensures driver { driver.new ≡ record driver.old { disks = record driver.old.disks { disks = slice_set driver.old.disks.disks disk (disk_at driver.new.disks disk) } } }
{
    reader.tell(driver.disk_consumer(disk));
}

/// Reads ahead where `goes` says that no read failed before. It answers whether none has failed.
fn try_one<S: Source, W: Store, G: Guest>(
    driver: &mut Driver<S, W, G>,
    reader: &mut DiskReader<S>,
    disk: u8,
    most: u32,
    goes: bool,
) -> bool
    requires there { disk < length driver.old.disks.disks }
    requires pair { IsPair reader.old.sending (disk_at driver.old.disks disk) }
    requires going { goes ≡ true → reader.old.failed ≡ false }
    ensures tried { TriedOne most goes result reader.old (disk_at driver.old.disks disk) reader.new (disk_at driver.new.disks disk) }
    ensures driver { driver.new ≡ record driver.old { disks = record driver.old.disks { disks = slice_set driver.old.disks.disks disk (disk_at driver.new.disks disk) } } }
{
    if goes {
        read_one(driver, reader, disk, most)
    } else {
        tell_one(driver, reader, disk);
        false
    }
}

/// Goes over all disks: where it starts with `goes`, their readers put at most so many blocks each, until a read fails. The ends
/// of each ring meet in any case. It answers whether it started so, and no read failed.
fn try_all<S: Source, W: Store, G: Guest>(
    driver: &mut Driver<S, W, G>,
    readers: &mut Vec<DiskReader<S>>,
    most: u32,
    goes: bool,
) -> bool
    requires pairs { DisksPaired driver.old readers.old.items }
    requires going { goes ≡ true → All IsGoing readers.old.items }
    ensures read { result ≡ true → AreReadOn G.sound most driver.old readers.old.items driver.new readers.new.items }
    ensures tried { AreTried G.sound most driver.old readers.old.items driver.new readers.new.items }
    ensures told { goes ≡ false → AreTold G.sound driver.old readers.old.items driver.new readers.new.items }
    ensures cause { goes ≡ true → result ≡ false → SomeRose driver.old readers.old.items driver.new readers.new.items }
    ensures driver { DisksMoved driver.old driver.new }
    ensures pairs { DisksPaired driver.new readers.new.items }
    ensures later { AreReadLater readers.old.items readers.new.items }
{
    let mut went = goes;
    for disk in 0..readers.len() {
        went = try_one(driver, &mut readers[disk], disk as u8, most, went);
    }
    went
}

/// Lets each disk's reader put at most so many blocks of its file. The ends of each ring meet, also where a read failed; the
/// readers behind that one put nothing.
///
/// Its clauses hold beside any desk and any recorders, since it touches neither.
pub fn read_ahead<S: Source, W: Store, G: Guest>(
    driver: &mut Driver<S, W, G>,
    readers: &mut Vec<DiskReader<S>>,
    most: u32,
) -> Result<(), ReadFailed>
    requires pairs { DisksPaired driver.old readers.old.items }
    requires going { All IsGoing readers.old.items }
    ensures read { OnOk result (AreReadOn G.sound most driver.old readers.old.items driver.new readers.new.items) }
    ensures broken { OnErr result (AreTried G.sound most driver.old readers.old.items driver.new readers.new.items) }
    ensures cause { OnErr result (SomeRose driver.old readers.old.items driver.new readers.new.items) }
    ensures driver { DisksMoved driver.old driver.new }
    ensures pairs { DisksPaired driver.new readers.new.items }
    ensures later { AreReadLater readers.old.items readers.new.items }
{
    if try_all(driver, readers, most, true) {
        Ok(())
    } else {
        Err(ReadFailed)
    }
}

/// Lets the ends of each disk's ring meet: each learns how far the other has come, and the one that gets whether the end stands.
/// It may be called behind a failure too.
pub fn tell_all<S: Source, W: Store, G: Guest>(
    driver: &mut Driver<S, W, G>,
    readers: &mut Vec<DiskReader<S>>,
)
    requires pairs { DisksPaired driver.old readers.old.items }
    ensures told { AreTold G.sound driver.old readers.old.items driver.new readers.new.items }
    ensures driver { DisksMoved driver.old driver.new }
    ensures pairs { DisksPaired driver.new readers.new.items }
    ensures later { AreReadLater readers.old.items readers.new.items }
{
    let _ = try_all(driver, readers, 0, false);
}

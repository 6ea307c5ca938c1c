ghost use Rattle.std.specs.Prelude.{◌≡◌, ◌⊎◌, ◌+◌, ◌≤◌, [], IsTrue, OnErr, OnOk, false, true, length};
ghost use Rattle.std.specs.Option.{ForSome};
ghost use Rattle.jack_host.specs.Bytes.{Writes};
ghost use Rattle.jack_host.specs.Causes.{IsCounted};
ghost use Rattle.file_stores.specs.Gathering.{waits};
ghost use Rattle.file_stores.specs.Standing.{LeavesPart, Stays, StaysOrHolds, standing};

use crate::gathered::Gathered;
use crate::target::Target;
use crate::{Disk, Parts};
use jack_host::Failed;

/// A file that is written, as many bytes at a time as have room.
///
/// It tells its bytes where its disk does: those that wait count as written. What stood on the disk before is given up
/// with the first byte that is written out. Bytes that could not be written out wait on, and are tried again.
#[derive(Drop)]
pub(crate) struct Draft<D: Disk> {
    pub(crate) target: Target<D>,
    pub(crate) gathered: Gathered,
    pub(crate) place: u64,
    ghost reached: { ForSome (standing target.emptied (D.bytes target.disk)) (λ xs. place ≤ length xs) },
}

impl<D: Disk> Draft<D> {
    ghost use Rattle.file_stores.specs.Drafts.{IsLeft, content_of, on_disk, faults_of, stands};

    /// A file over this disk, empty, with this room for the bytes that wait.
    pub(crate) fn new(disk: D, room: Vec<u8>) -> Draft<D>
        ensures disk { result.target.disk ≡ disk }
        ensures stands { result.target.emptied ≡ false }
        ensures place { result.place ≡ 0 }
        ensures waits { waits result.gathered ≡ [] }
    {
        Draft {
            target: Target {
                disk,
                emptied: false,
            },
            gathered: Gathered::new(room),
            place: 0,
        }
    }

    /// Writes out what waits. After a failure it waits on.
    pub(crate) fn write_out(&mut self) -> Result<(), Failed>
        ensures content { Stays (content_of self.old) (content_of self.new) }
        ensures written { OnOk result (waits self.new.gathered ≡ []) }
        ensures emptied { self.old.target.emptied ≡ true → self.new.target.emptied ≡ true }
        ensures part { LeavesPart (stands self.old) (content_of self.old) (stands self.new) }
        ensures counted { IsCounted (faults_of self.old) (faults_of self.new) result }
    {
        let bytes = self.gathered.as_bytes();
        self.target.write(self.place, bytes)?;
        self.gathered.clear();
        Ok(())
    }

    /// Writes bytes at a place, or has them wait for it.
    pub(crate) fn put(&mut self, place: u64, bytes: &[u8]) -> Result<(), Failed>
        requires { ForSome (content_of self.old) (λ xs. place ≤ length xs) }
        ensures bytes { Writes (content_of self.old) (content_of self.new) result place bytes.now }

        // A part of what was to stand is there, with the bytes waiting; or all of it.
        ensures stands { LeavesPart (stands self.old) (content_of self.old) (stands self.new)
            × StaysOrHolds (content_of self.old) (content_of self.new) place bytes.now
            ⊎ Stays (content_of self.new) (stands self.new) }
        ensures counted { IsCounted (faults_of self.old) (faults_of self.new) result }
    {
        if self.gathered.has_room(bytes.len()) && self.goes_on(place) {
            self.gathered.add(bytes);
            return Ok(());
        }
        self.write_out()?;
        if !self.gathered.has_room(bytes.len()) {
            return self.target.write(place, bytes);
        }
        self.place = place;
        self.gathered.add(bytes);
        Ok(())
    }

    /// Writes bytes at a place, where nothing waits.
    pub(crate) fn write_through(&mut self, place: u64, bytes: &[u8]) -> Result<(), Failed>
        requires nothing { waits self.old.gathered ≡ [] }
        requires place { ForSome (content_of self.old) (λ xs. place ≤ length xs) }
        ensures bytes { Writes (content_of self.old) (content_of self.new) result place bytes.now }
        ensures stands { Stays (content_of self.new) (stands self.new) }
        ensures counted { IsCounted (faults_of self.old) (faults_of self.new) result }
    {
        self.target.write(place, bytes)
    }

    // Whether this place is where the gathered bytes end.
    fn goes_on(&self, place: u64) -> bool
        ensures { IsTrue result → place ≡ self.now.place + length (waits self.now.gathered) }
    {
        self.place.checked_add(self.gathered.count as u64) == Some(place)
    }

    // Gives up what stood on the disk before, if that was not done, and writes out what waits.
    fn write_all(&mut self) -> Result<(), Failed>
        ensures whole { OnOk result (Stays (content_of self.old) (on_disk self.new)) }
        ensures part { IsLeft self.old (on_disk self.new) }
        ensures counted { IsCounted (faults_of self.old) (faults_of self.new) result }
    {
        self.target.empty()?;
        self.write_out()
    }

    // The same, and waits until the bytes are kept.
    fn finish(&mut self) -> Result<(), Failed>
        ensures whole { OnOk result (Stays (content_of self.old) (on_disk self.new)) }
        ensures kept { OnOk result (Stays (content_of self.old) (D.kept self.new.target.disk)) }
        ensures part { IsLeft self.old (on_disk self.new) }
        ensures counted { IsCounted (faults_of self.old) (faults_of self.new) result }
    {
        self.write_all()?;
        self.target.disk.sync()
    }

    // Writes out what waits, if bytes were written out before.
    fn settle(&mut self)
        ensures kept { self.old.target.emptied ≡ false → Stays (on_disk self.old) (on_disk self.new) }
        ensures part { IsLeft self.old (on_disk self.new) }
        ensures whole { self.old.target.emptied ≡ true → faults_of self.new ≡ 0 → Stays (content_of self.old) (on_disk self.new) }
        ensures later { faults_of self.old ≤ faults_of self.new }
        ensures once { faults_of self.new ≤ faults_of self.old + 1 }
    {
        if self.target.emptied {
            let _ = self.write_out();
        }
    }

    /// Takes the file back, with all its bytes on the disk, and kept there.
    ///
    /// `Ok` comes only where no call of the disk has failed.
    pub(crate) fn done(mut self) -> (Parts<D>, Result<(), Failed>)
        ensures whole { OnOk result.1 (Stays (content_of self) (D.bytes result.0.disk)) }
        ensures kept { OnOk result.1 (Stays (content_of self) (D.kept result.0.disk)) }
        ensures part { IsLeft self (D.bytes result.0.disk) }
        ensures none { OnOk result.1 (D.faults result.0.disk ≡ 0) }
        ensures failed { OnErr result.1 (1 ≤ D.faults result.0.disk) }
        ensures later { faults_of self ≤ D.faults result.0.disk }
        ensures once { D.faults result.0.disk ≤ faults_of self + 1 }
    {
        let _ = self.finish();
        let done = as_result(&self.target.disk);
        (self.into_parts(), done)
    }

    /// Takes the file back unfinished. If nothing was written out yet, what stood on the disk before stays.
    pub(crate) fn give_up(mut self) -> Parts<D>
        ensures kept { self.target.emptied ≡ false → Stays (on_disk self) (D.bytes result.disk) }
        ensures part { IsLeft self (D.bytes result.disk) }
        ensures whole { self.target.emptied ≡ true → D.faults result.disk ≡ 0 → Stays (content_of self) (D.bytes result.disk) }
        ensures later { faults_of self ≤ D.faults result.disk }
        ensures once { D.faults result.disk ≤ faults_of self + 1 }
    {
        self.settle();
        self.into_parts()
    }

    fn into_parts(self) -> Parts<D>
        ensures { result.disk ≡ self.target.disk }
    {
        Parts {
            disk: self.target.disk,
            room: self.gathered.room,
        }
    }
}

// `Ok` where no call of the disk has failed.
fn as_result<D: Disk>(disk: &D) -> Result<(), Failed>
    ensures ok { OnOk result (D.faults disk.now ≡ 0) }
    ensures err { OnErr result (1 ≤ D.faults disk.now) }
{
    if disk.count() == 0 {
        Ok(())
    } else {
        Err(Failed)
    }
}

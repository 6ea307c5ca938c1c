ghost use Rattle.std.specs.Prelude.{◌≡◌, ◌+◌, ◌≤◌, [], Some, IsSomeAnd, OnErr, OnOk, false, length, max, true};
ghost use Rattle.std.specs.Option.{ForSome};
ghost use Rattle.jack_host.specs.Bytes.{Writes};
ghost use Rattle.jack_host.specs.Causes.{IsCounted};
ghost use Rattle.jack_host.specs.Files.{IsFrontOf};
ghost use Rattle.file_stores.specs.Drafts.{IsFrontLeft, content_of, on_disk, faults_of, stands};
ghost use Rattle.file_stores.specs.Gathering.{waits};
ghost use Rattle.file_stores.specs.Standing.{Stays};

use crate::draft::Draft;
use crate::{Disk, Parts};
use jack_host::{Failed, Store};

/// A file that is written, of which only bytes at its end wait for their place.
///
/// What stands on its disk are always its first bytes. It tells its bytes where its disk does: those that wait count as
/// written. What stood on the disk before is given up with the first byte that is written out. A failed write of bytes
/// that waited shows at a later write, or when the file is handed back.
#[derive(Drop)]
pub struct TailStore<D: Disk> {
    draft: Draft<D>,
    // Where the file ends, if that is known.
    end: Option<u64>,
    ghost ends: { ForSome end (λ n. ForSome (content_of draft) (λ ys. length ys ≡ n)) },
    ghost front: { ForSome (content_of draft) (λ ys. ForSome (stands draft) (IsFrontOf (Some ys))) },
}

impl<D: Disk> TailStore<D> {
    /// A file over this disk, empty, with this room for the bytes that wait.
    pub fn new(disk: D, room: Vec<u8>) -> TailStore<D>
        ensures disk { result.draft.target.disk ≡ disk }
        ensures stands { result.draft.target.emptied ≡ false }
        ensures place { result.draft.place ≡ 0 }
        ensures waits { waits result.draft.gathered ≡ [] }
    {
        TailStore {
            draft: Draft::new(disk, room),
            end: Some(0),
        }
    }

    // Writes bytes at the end, or has them wait there.
    fn append(&mut self, place: u64, bytes: &[u8]) -> Result<(), Failed>
        requires { ForSome (content_of self.old.draft) (λ xs. length xs ≡ place) }
        ensures bytes { Writes (content_of self.old.draft) (content_of self.new.draft) result place bytes.now }
        ensures counted { IsCounted (faults_of self.old.draft) (faults_of self.new.draft) result }
    {
        self.end = None;
        self.draft.put(place, bytes)?;
        self.end = behind(place, bytes.len() as u64);
        Ok(())
    }

    // Writes bytes over others.
    fn patch(&mut self, place: u64, bytes: &[u8]) -> Result<(), Failed>
        requires { ForSome (content_of self.old.draft) (λ xs. place ≤ length xs) }
        ensures bytes { Writes (content_of self.old.draft) (content_of self.new.draft) result place bytes.now }
        ensures counted { IsCounted (faults_of self.old.draft) (faults_of self.new.draft) result }
    {
        let end = self.end.take();
        self.draft.write_out()?;
        self.draft.write_through(place, bytes)?;
        self.end = end_of(end, place, bytes.len() as u64);
        Ok(())
    }

    /// Takes the file back, with all its bytes on the disk, and kept there.
    ///
    /// `Ok` comes only where no call of the disk has failed. After `Failed` the first of the file's bytes stand there, or
    /// what stood there before the file was made.
    pub fn done(self) -> (Parts<D>, Result<(), Failed>)
        ensures whole { OnOk result.1 (Stays (content_of self.draft) (D.bytes result.0.disk)) }
        ensures kept { OnOk result.1 (Stays (content_of self.draft) (D.kept result.0.disk)) }
        ensures part { IsFrontLeft self.draft (D.bytes result.0.disk) }
        ensures none { OnOk result.1 (D.faults result.0.disk ≡ 0) }
        ensures failed { OnErr result.1 (1 ≤ D.faults result.0.disk) }
        ensures later { faults_of self.draft ≤ D.faults result.0.disk }
        ensures once { D.faults result.0.disk ≤ faults_of self.draft + 1 }
    {
        self.draft.done()
    }

    /// Takes the file back unfinished: the first of its bytes stand on the disk, or what stood there before.
    ///
    /// If nothing was written out yet, what stood there before stays. Else what waits is written out.
    pub fn give_up(self) -> Parts<D>
        ensures kept { self.draft.target.emptied ≡ false → Stays (on_disk self.draft) (D.bytes result.disk) }
        ensures part { IsFrontLeft self.draft (D.bytes result.disk) }
        ensures whole { self.draft.target.emptied ≡ true → D.faults result.disk ≡ 0 → Stays (content_of self.draft) (D.bytes result.disk) }
        ensures later { faults_of self.draft ≤ D.faults result.disk }
        ensures once { D.faults result.disk ≤ faults_of self.draft + 1 }
    {
        self.draft.give_up()
    }
}

// The place behind so many bytes at a place.
fn behind(place: u64, more: u64) -> Option<u64>
    ensures { ForSome result (λ n. n ≡ place + more) }
{
    place.checked_add(more)
}

// Where a file ends once bytes are written at a place of it.
fn end_of(end: Option<u64>, place: u64, more: u64) -> Option<u64>
    ensures { ForSome result (λ n. IsSomeAnd end (λ m. n ≡ max m (place + more))) }
{
    let end = end?;
    let reached = behind(place, more)?;
    Some(end.max(reached))
}

impl<D: Disk> Store for TailStore<D> {
    ghost use Rattle.std.specs.Prelude.{None};
    ghost use Rattle.file_stores.specs.Drafts.{content_of, faults_of};

    ghost name = { λ _. None };

    ghost content = { λ s. content_of s.draft };

    ghost faults = { λ s. faults_of s.draft };

    fn write_at(&mut self, place: u64, bytes: &[u8]) -> Result<(), Failed> {
        if self.end == Some(place) {
            return self.append(place, bytes);
        }
        self.patch(place, bytes)
    }
}

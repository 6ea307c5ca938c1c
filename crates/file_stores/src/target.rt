ghost use Rattle.std.specs.Prelude.{◌≡◌, ◌≤◌, length, OnErr, OnOk, true};
ghost use Rattle.std.specs.Option.{ForSome};
ghost use Rattle.jack_host.specs.Bytes.{Writes};
ghost use Rattle.jack_host.specs.Causes.{IsCounted};
ghost use Rattle.file_stores.specs.Standing.{Stays, standing};

use crate::Disk;
use jack_host::Failed;

/// A disk that keeps what stood on it until the first byte is written.
#[derive(Drop)]
pub(crate) struct Target<D> {
    pub(crate) disk: D,
    // Whether what stood there before was given up.
    pub(crate) emptied: bool,
}

impl<D: Disk> Target<D> {
    /// Gives up what stood there before, if that was not done.
    pub(crate) fn empty(&mut self) -> Result<(), Failed>
        ensures bytes { Stays (standing self.old.emptied (D.bytes self.old.disk)) (standing self.new.emptied (D.bytes self.new.disk)) }
        ensures emptied { OnOk result (self.new.emptied ≡ true) }
        ensures kept { OnErr result (Stays (D.bytes self.old.disk) (D.bytes self.new.disk)) }
        ensures not { OnErr result (self.new.emptied ≡ self.old.emptied) }
        ensures counted { IsCounted (D.faults self.old.disk) (D.faults self.new.disk) result }
    {
        if !self.emptied {
            self.disk.cut()?;
            self.emptied = true;
        }
        Ok(())
    }

    /// Writes bytes at a place.
    pub(crate) fn write(&mut self, place: u64, bytes: &[u8]) -> Result<(), Failed>
        requires { ForSome (standing self.old.emptied (D.bytes self.old.disk)) (λ xs. place ≤ length xs) }
        ensures bytes { Writes (standing self.old.emptied (D.bytes self.old.disk)) (standing self.new.emptied (D.bytes self.new.disk)) result place bytes.now }
        ensures emptied { self.old.emptied ≡ true → self.new.emptied ≡ true }
        ensures counted { IsCounted (D.faults self.old.disk) (D.faults self.new.disk) result }
    {
        if bytes.is_empty() {
            return Ok(());
        }
        self.empty()?;
        self.disk.write(place, bytes)
    }
}

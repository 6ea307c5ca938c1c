ghost use Rattle.std.specs.Prelude.{◌≡◌, ◌≤◌, ℕ, List, OnOk, length};
ghost use Rattle.std.specs.Option.{ForSome};
ghost use Rattle.std.specs.declared.option.Option.{Option};
ghost use Rattle.jack_host.specs.Bytes.{Writes};
ghost use Rattle.jack_host.specs.Causes.{IsCounted};
ghost use Rattle.file_stores.specs.Standing.{Cuts, Stays};

use jack_host::Failed;

/// What a file that is written stands on: bytes at any place up to their end, that can be given up all at once.
///
/// A disk that tells its bytes is bound by the clauses on them; `None` tells nothing, as a file of the system does.
pub trait Disk: Drop {
    /// The bytes that stand there, where the disk tells them.
    ghost bytes: { Self → Option (List ℕ) };

    /// The bytes that a loss of power would leave, where the disk tells them.
    ghost kept: { Self → Option (List ℕ) };

    /// How many calls have failed. It never falls, and stands still at 2^64 − 1.
    ghost faults: { Self → ℕ };

    /// Writes a piece at this place, counted in bytes from 0.
    ///
    /// After `Failed` a front of the piece may stand there, and all else is as before.
    fn write(&mut self, place: u64, piece: &[u8]) -> Result<(), Failed>
        requires { ForSome (bytes self.old) (λ xs. place ≤ length xs) }
        ensures bytes { Writes (bytes self.old) (bytes self.new) result place piece.now }
        ensures counted { IsCounted (faults self.old) (faults self.new) result };

    /// Gives up all bytes. After `Failed` they stand as before.
    fn cut(&mut self) -> Result<(), Failed>
        ensures bytes { Cuts (bytes self.old) (bytes self.new) result }
        ensures counted { IsCounted (faults self.old) (faults self.new) result };

    /// Waits until the bytes that stand there are kept.
    fn sync(&mut self) -> Result<(), Failed>
        ensures bytes { Stays (bytes self.old) (bytes self.new) }
        ensures kept { OnOk result (Stays (bytes self.new) (kept self.new)) }
        ensures counted { IsCounted (faults self.old) (faults self.new) result };

    /// How many calls have failed.
    fn count(&self) -> u64
        ensures { result ≡ faults self.now };
}

ghost use Rattle.std.specs.Prelude.{◌≡◌, ◌≤◌, ℕ, List, OnOk, length};
ghost use Rattle.std.specs.Option.{ForSome};
ghost use Rattle.std.specs.declared.option.Option.{Option};
ghost use Rattle.jack_host.specs.Causes.{IsCounted};
ghost use Rattle.file_stores.specs.Standing.{Stays};
ghost use Rattle.file_stores.specs.Streams.{Empties, Moves, Runs, stream_bytes};

use jack_host::Failed;

/// The calls of the system on a file that is written: it stands at a place, is written there, and moves on.
pub trait Stream: Drop {
    /// The place at which it stands and its bytes, where it tells them.
    ghost told: { Self → Option (ℕ × List ℕ) };

    /// The bytes that a loss of power would leave, where it tells them.
    ghost kept: { Self → Option (List ℕ) };

    /// How many calls have failed. It never falls, and stands still at 2^64 − 1.
    ghost faults: { Self → ℕ };

    /// Moves to a place.
    fn move_to(&mut self, place: u64) -> Result<(), Failed>
        ensures bytes { Moves (told self.old) (told self.new) result place }
        ensures counted { IsCounted (faults self.old) (faults self.new) result };

    /// Writes a piece where it stands, and then stands behind it.
    ///
    /// After `Failed` a front of the piece may stand there, and it may stand anywhere.
    fn run(&mut self, piece: &[u8]) -> Result<(), Failed>
        requires { ForSome (told self.old) (λ s. s.0 ≤ length s.1) }
        ensures bytes { Runs (told self.old) (told self.new) result piece.now }
        ensures counted { IsCounted (faults self.old) (faults self.new) result };

    /// Gives up all bytes, and stays where it stands.
    fn empty(&mut self) -> Result<(), Failed>
        ensures bytes { Empties (told self.old) (told self.new) result }
        ensures counted { IsCounted (faults self.old) (faults self.new) result };

    /// Waits until its bytes are kept.
    fn sync(&mut self) -> Result<(), Failed>
        ensures told { told self.new ≡ told self.old }
        ensures kept { OnOk result (Stays (stream_bytes (told self.new)) (kept self.new)) }
        ensures counted { IsCounted (faults self.old) (faults self.new) result };

    /// How many calls have failed.
    fn count(&self) -> u64
        ensures { result ≡ faults self.now };
}

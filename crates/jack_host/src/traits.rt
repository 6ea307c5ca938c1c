ghost use Rattle.std.specs.Prelude.{◌≡◌, ◌+◌, ◌<◌, ◌≤◌, ℕ, List, [], IfOk, OnErr, OnOk, length, is_ok, if◌then◌else◌};
ghost use Rattle.std.specs.Option.{ForSome};
ghost use Rattle.std.specs.declared.option.Option.{Option};
ghost use Rattle.std.specs.Io.{ReadsAtMost};
ghost use Rattle.std.specs.Io.KnownBytes.{ReadConsumes};
ghost use Rattle.jack_host.specs.Causes.{Rose, HasCause, Adds};
ghost use Rattle.jack_host.specs.Bytes.{Writes, Puts};
ghost use Rattle.jack_host.specs.Files.{IsThere, Gives, SameFiles, Makes, IsNamedThere, Stands, StandsInPart};
ghost use Rattle.jack_host.specs.Told.{TellsAs};

/// One call on the outside failed.
#[derive(Clone, Copy, Debug, PartialEq, Eq)]
pub struct Failed;

/// A source failed, and with it what was read from it.
#[derive(Clone, Copy, Debug, PartialEq, Eq)]
pub struct ReadFailed;

/// A store failed, and with it what was written to it.
#[derive(Clone, Copy, Debug, PartialEq, Eq)]
pub struct WriteFailed;

/// Where bytes come from, as a file that is read.
///
/// A source may keep its bytes to itself, as a real file does: `left` is then `None`, and the clauses on
/// bytes say nothing. The clauses on faults hold for every source. Code that is generic over `Source` cannot
/// raise `faults` by itself, so `Failed` means that the outside failed.
pub trait Source: Drop {
    /// The bytes that were not read yet, where the source tells them.
    ghost left: { Self → Option (List ℕ) };

    /// How many reads have failed. It never falls, and stands still at 2^64 − 1.
    ghost faults: { Self → ℕ };

    /// Reads the next bytes into the buffer's front and says how many.
    ///
    /// Zero for a buffer that is not empty is the end of the input. After `Failed` no byte was taken, and the
    /// source may be used again.
    fn read(&mut self, buffer: &mut [u8]) -> Result<usize, Failed>
        ensures bound { ReadsAtMost result buffer.new }
        ensures bytes { ReadConsumes (left self.old) (left self.new) result buffer.new }
        ensures cause { HasCause (faults self.old) (faults self.new) result }
        ensures once { faults self.new ≤ faults self.old + 1 };
}

/// A file that is written, at any place up to its end.
///
/// A store that tells its name and its bytes is bound by the clauses on them; `None` tells nothing.
pub trait Store: Drop {
    /// The bytes of the file's name, where the store tells them.
    ghost name: { Self → Option (List ℕ) };

    /// The file's bytes, where the store tells them.
    ghost content: { Self → Option (List ℕ) };

    /// How many writes have failed. It never falls, and stands still at 2^64 − 1.
    ghost faults: { Self → ℕ };

    /// Writes the bytes at this place, counted in bytes from 0, and makes the file longer where needed.
    ///
    /// After `Failed` a prefix of the bytes may stand there, and all else is as before.
    fn write_at(&mut self, place: u64, bytes: &[u8]) -> Result<(), Failed>
        requires { ForSome (content self.old) (λ xs. place ≤ length xs) }
        ensures name { name self.new ≡ name self.old }
        ensures bytes { Writes (content self.old) (content self.new) result place bytes.now }
        ensures cause { HasCause (faults self.old) (faults self.new) result }
        ensures once { faults self.new ≤ faults self.old + 1 };
}

/// Where bytes go, one piece after the other, as standard output.
pub trait Sink: Drop {
    /// The bytes that were put so far, where the sink tells them.
    ghost content: { Self → Option (List ℕ) };

    /// How many puts have failed. It never falls, and stands still at 2^64 − 1.
    ghost faults: { Self → ℕ };

    /// Puts all the bytes behind those that were put before.
    ///
    /// After `Failed` a prefix of the bytes may have gone out, and the sink may be used again.
    fn put(&mut self, bytes: &[u8]) -> Result<(), Failed>
        ensures bytes { Puts (content self.old) (content self.new) result bytes.now }
        ensures cause { HasCause (faults self.old) (faults self.new) result }
        ensures once { faults self.new ≤ faults self.old + 1 };
}

/// Opens files by name, and takes them back.
///
/// Each object that `open_in` or `make_out` gave out is handed back by `back`, `done` or `give_up`, which add its
/// faults to the host's counts.
pub trait Host {
    type In: Source + Send;

    type Out: Store + Send;

    /// The names with their bytes, where the host tells them. The first entry of a name counts.
    ghost files: { Self → Option (List (List ℕ × List ℕ)) };

    /// How many openings and reads have failed. It never falls, and stands still at 2^64 − 1.
    ghost read_faults: { Self → ℕ };

    /// How many makings, writes and closings have failed. It never falls, and stands still at 2^64 − 1.
    ghost write_faults: { Self → ℕ };

    /// How many objects are out.
    ghost lent: { Self → ℕ };

    /// Opens the file of this name for reading from its beginning.
    fn open_in(&mut self, name: &str) -> Result<Self::In, Failed>
        requires { lent self.old < 1000 }

        // The input has the file's bytes left, and has counted nothing yet.
        ensures there { OnOk result (IsThere (files self.old) name.now) }
        ensures bytes { IfOk result (λ input. Gives (files self.old) name.now (Self.In.left input)) }
        ensures fresh { IfOk result (λ input. Self.In.faults input ≡ 0) }

        // Where a told name is missing no count changes, and else a failure has raised the count by one.
        ensures missing { ¬ IsThere (files self.old) name.now → read_faults self.new ≡ read_faults self.old }
        ensures later { read_faults self.old ≤ read_faults self.new }
        ensures failed { IsThere (files self.old) name.now → OnErr result (Rose (read_faults self.old) (read_faults self.new)) }
        ensures kept { OnOk result (read_faults self.new ≡ read_faults self.old) }
        ensures once { read_faults self.new ≤ read_faults self.old + 1 }

        ensures writes { write_faults self.new ≡ write_faults self.old }
        ensures files { SameFiles (files self.old) (files self.new) }
        ensures lent { lent self.new ≡ lent self.old + (if is_ok result then 1 else 0) };

    /// Takes an input back.
    fn back(&mut self, input: Self::In)
        requires { 0 < lent self.old }
        ensures reads { Adds (read_faults self.old) (Self.In.faults input) (read_faults self.new) }
        ensures no_more { read_faults self.new ≤ read_faults self.old + Self.In.faults input }
        ensures writes { write_faults self.new ≡ write_faults self.old }
        ensures files { SameFiles (files self.old) (files self.new) }
        ensures lent { lent self.new + 1 ≡ lent self.old };

    /// Makes a file of this name in place of what was there. What was there may stand until the file is handed back.
    ///
    /// After `Failed` every name has the bytes that it had.
    fn make_out(&mut self, name: &str) -> Result<Self::Out, Failed>
        requires { lent self.old < 1000 }
        ensures name { IfOk result (λ output. TellsAs (files self.old) (Self.Out.name output) name.now) }
        ensures empty { IfOk result (λ output. TellsAs (files self.old) (Self.Out.content output) []) }
        ensures fresh { IfOk result (λ output. Self.Out.faults output ≡ 0) }
        ensures made { OnOk result (Makes (files self.old) (files self.new) name.now) }
        ensures cause { HasCause (write_faults self.old) (write_faults self.new) result }
        ensures once { write_faults self.new ≤ write_faults self.old + 1 }
        ensures same { OnErr result (SameFiles (files self.old) (files self.new)) }
        ensures reads { read_faults self.new ≡ read_faults self.old }
        ensures lent { lent self.new ≡ lent self.old + (if is_ok result then 1 else 0) };

    /// Takes an output back, whose bytes then stand under its name.
    ///
    /// `Ok` comes only where no write of the output has failed. After `Failed` the first of its bytes stand there, or
    /// what stood there before.
    fn done(&mut self, output: Self::Out) -> Result<(), Failed>
        requires out { 0 < lent self.old }
        requires named { IsNamedThere (files self.old) (Self.Out.name output) }
        ensures bytes { OnOk result (Stands (files self.old) (files self.new) (Self.Out.name output) (Self.Out.content output)) }
        ensures part { OnErr result (StandsInPart (files self.old) (files self.new) (Self.Out.name output) (Self.Out.content output)) }
        ensures whole { OnOk result (Self.Out.faults output ≡ 0) }
        ensures kept { OnOk result (write_faults self.new ≡ write_faults self.old) }

        // The output's faults are the host's, and a closing that fails is one more.
        ensures adds { Adds (write_faults self.old) (Self.Out.faults output) (write_faults self.new) }
        ensures once { write_faults self.new ≤ write_faults self.old + Self.Out.faults output + 1 }
        ensures failed { OnErr result (Rose (write_faults self.old) (write_faults self.new)) }
        ensures reads { read_faults self.new ≡ read_faults self.old }
        ensures lent { lent self.new + 1 ≡ lent self.old };

    /// Takes an output back that nobody wants any more: the first of its bytes stand under its name, or what stood
    /// there before.
    fn give_up(&mut self, output: Self::Out)
        requires out { 0 < lent self.old }
        requires named { IsNamedThere (files self.old) (Self.Out.name output) }
        ensures part { StandsInPart (files self.old) (files self.new) (Self.Out.name output) (Self.Out.content output) }

        // The output's faults are the host's, and a closing that fails is one more.
        ensures adds { Adds (write_faults self.old) (Self.Out.faults output) (write_faults self.new) }
        ensures once { write_faults self.new ≤ write_faults self.old + Self.Out.faults output + 1 }
        ensures reads { read_faults self.new ≡ read_faults self.old }
        ensures lent { lent self.new + 1 ≡ lent self.old };
}

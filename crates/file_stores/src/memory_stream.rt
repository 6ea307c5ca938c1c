ghost use Rattle.std.specs.Prelude.{◌≡◌, ◌≤◌, OnErr, OnOk, vec_len};
ghost use Rattle.jack_host.specs.Bytes.{put_at};

use crate::Stream;
use jack_host::Failed;
use std::alloc::AllocError;

// Puts a piece at a place, and grows the bytes where needed.
fn spread(bytes: &mut Vec<u8>, place: usize, piece: &[u8]) -> Result<(), AllocError>
    requires { place ≤ vec_len bytes.old }
    ensures ok { OnOk result (bytes.new.items ≡ put_at bytes.old.items place piece.now) }
    ensures err { OnErr result (bytes.new.items ≡ bytes.old.items) }
{
    let over = piece.len().min(bytes.len() - place);
    bytes.extend_from_slice(&piece[over..])?;
    bytes[place..place + over].copy_from_slice(&piece[..over]);
    Ok(())
}

/// A file in memory, with room for so many bytes. A write that has no room leaves those that have, and fails.
#[derive(Drop)]
pub struct MemoryStream {
    bytes: Vec<u8>,
    kept: Vec<u8>,
    at: u64,
    most: usize,
    faults: u64,
    wants: u64,
}

impl MemoryStream {
    ghost use Rattle.file_stores.specs.Memory.{bytes_in, faults_in, kept_in, place_in, room_in, wants_in};

    /// A file of these bytes, with room for so many, of which others are kept. It stands at its beginning.
    pub fn new(bytes: Vec<u8>, kept: Vec<u8>, most: usize) -> MemoryStream
        ensures bytes { bytes_in result ≡ bytes.items }
        ensures kept { kept_in result ≡ kept.items }
        ensures place { place_in result ≡ 0 }
        ensures room { room_in result ≡ most }
        ensures faults { faults_in result ≡ 0 }
        ensures wants { wants_in result ≡ 0 }
    {
        MemoryStream {
            bytes,
            kept,
            at: 0,
            most,
            faults: 0,
            wants: 0,
        }
    }

    /// The bytes that stand there.
    pub fn as_bytes(&self) -> &[u8]
        ensures { result.now ≡ bytes_in self.now }
    {
        &self.bytes
    }

    /// The bytes that are kept.
    pub fn as_kept(&self) -> &[u8]
        ensures { result.now ≡ kept_in self.now }
    {
        &self.kept
    }
}

impl Stream for MemoryStream {
    ghost use Rattle.std.specs.Prelude.{Some};
    ghost use Rattle.file_stores.specs.Memory.{told_in};

    ghost told = { λ s. told_in s };

    ghost kept = { λ s. Some s.kept.items };

    ghost faults = { λ s. s.faults };

    ghost use Rattle.std.specs.Prelude.{◌⊎◌, ◌≡◌, ◌+◌, ◌<◌, ◌≤◌, IsErr, IsOk, OnErr, OnOk, length};
    ghost use Rattle.std.specs.Option.{ForSome};
    ghost use Rattle.jack_host.specs.Causes.{IsCounted, Rose};
    ghost use Rattle.file_stores.specs.Memory.{bytes_in, faults_in, kept_in, place_in, room_in, told_in, wants_in};
    ghost use Rattle.file_stores.specs.Streams.{Empties, Moves, Runs};

    fn move_to(&mut self, place: u64) -> Result<(), Failed>
        ensures ok { IsOk result }
        ensures bytes { Moves (told_in self.old) (told_in self.new) result place }
        ensures faults { faults_in self.new ≡ faults_in self.old }
        ensures room { room_in self.new ≡ room_in self.old }
    {
        self.at = place;
        Ok(())
    }

    fn run(&mut self, piece: &[u8]) -> Result<(), Failed>
        requires { ForSome (told_in self.old) (λ s. s.0 ≤ length s.1) }
        ensures bytes { Runs (told_in self.old) (told_in self.new) result piece.now }
        ensures counted { IsCounted (faults_in self.old) (faults_in self.new) result }

        // It fails where the piece has no room, and else only for its own want of memory.
        ensures full { room_in self.old < place_in self.old + length piece.now → 0 < length piece.now → IsErr result }
        ensures failed { OnErr result ((room_in self.old < place_in self.old + length piece.now) ⊎ Rose (wants_in self.old) (wants_in self.new)) }
        ensures room { room_in self.new ≡ room_in self.old }
    {
        let place = self.at as usize;
        let room = self.most.saturating_sub(place);
        let fits = piece.len().min(room);
        if spread(&mut self.bytes, place, &piece[..fits]).is_err() {
            self.wants = self.wants.saturating_add(1);
            self.faults = self.faults.saturating_add(1);
            return Err(Failed);
        }
        if fits < piece.len() {
            self.faults = self.faults.saturating_add(1);
            return Err(Failed);
        }
        self.at += piece.len() as u64;
        Ok(())
    }

    fn empty(&mut self) -> Result<(), Failed>
        ensures ok { IsOk result }
        ensures bytes { Empties (told_in self.old) (told_in self.new) result }
        ensures faults { faults_in self.new ≡ faults_in self.old }
        ensures room { room_in self.new ≡ room_in self.old }
    {
        self.bytes.clear();
        Ok(())
    }

    fn sync(&mut self) -> Result<(), Failed>
        ensures place { place_in self.new ≡ place_in self.old }
        ensures bytes { bytes_in self.new ≡ bytes_in self.old }
        ensures kept { OnOk result (kept_in self.new ≡ bytes_in self.new) }
        ensures counted { IsCounted (faults_in self.old) (faults_in self.new) result }
        ensures failed { OnErr result (Rose (wants_in self.old) (wants_in self.new)) }
        ensures room { room_in self.new ≡ room_in self.old }
    {
        self.kept.clear();
        if self.kept.extend_from_slice(&self.bytes).is_err() {
            self.wants = self.wants.saturating_add(1);
            self.faults = self.faults.saturating_add(1);
            return Err(Failed);
        }
        Ok(())
    }

    fn count(&self) -> u64
        ensures { result ≡ faults_in self.now }
    {
        self.faults
    }
}

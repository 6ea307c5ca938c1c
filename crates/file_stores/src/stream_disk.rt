ghost use Rattle.std.specs.Prelude.{◌≡◌, ◌≤◌, length};
ghost use Rattle.std.specs.Option.{ForSome};
ghost use Rattle.jack_host.specs.Bytes.{Writes};
ghost use Rattle.jack_host.specs.Causes.{IsCounted};
ghost use Rattle.file_stores.specs.Streams.{Moves, stream_bytes};

use crate::{Disk, Stream};
use jack_host::Failed;

/// A disk over a stream, which is moved only where it does not stand at the place already.
#[derive(Drop)]
pub struct StreamDisk<S: Stream> {
    stream: S,
    // Where the stream stands, if that is known.
    stands: Option<u64>,
    ghost known: { ForSome stands (λ place. ForSome (S.told stream) (λ s. s.0 ≡ place)) },
}

impl<S: Stream> StreamDisk<S> {
    /// A disk over this stream.
    pub fn new(stream: S) -> StreamDisk<S>
        ensures { result.stream ≡ stream }
    {
        StreamDisk {
            stream,
            stands: None,
        }
    }

    /// The stream.
    pub fn into_stream(self) -> S
        ensures { result ≡ self.stream }
    {
        self.stream
    }

    // Moves to a place, if the stream does not stand there already.
    fn move_to(&mut self, place: u64) -> Result<(), Failed>
        ensures moves { Moves (S.told self.old.stream) (S.told self.new.stream) result place }
        ensures counted { IsCounted (S.faults self.old.stream) (S.faults self.new.stream) result }
    {
        if self.stands.take() == Some(place) {
            return Ok(());
        }
        self.stream.move_to(place)
    }
}

impl<S: Stream> Disk for StreamDisk<S> {
    ghost use Rattle.file_stores.specs.Streams.{stream_bytes};

    ghost bytes = { λ s. stream_bytes (S.told s.stream) };

    ghost kept = { λ s. S.kept s.stream };

    ghost faults = { λ s. S.faults s.stream };

    fn write(&mut self, place: u64, piece: &[u8]) -> Result<(), Failed> {
        self.move_to(place)?;
        self.stands = None;
        self.stream.run(piece)?;
        self.stands = place.checked_add(piece.len() as u64);
        Ok(())
    }

    fn cut(&mut self) -> Result<(), Failed> {
        self.stream.empty()
    }

    fn sync(&mut self) -> Result<(), Failed> {
        self.stream.sync()
    }

    fn count(&self) -> u64 {
        self.stream.count()
    }
}

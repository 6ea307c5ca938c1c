//! A sink that listens to the report that goes through it.

ghost use Rattle.std.specs.Prelude.{◌≡◌, []};
ghost use Rattle.lost_blocks.specs.Losses.{none_noted};

use jack_host::{Failed, Sink};
use lost_blocks::Losses;
use refused_calls::Notes;

/// A sink in front of another one. It passes each put on as it is, and notes the calls, the recorders and the disks of the
/// report: of each put the lines from the first on, up to the first of another kind.
///
/// It takes no memory and copies no byte. Of the lines of cycles it reads the first of each put. A put holds whole lines.
#[derive(Drop)]
pub struct ListeningSink<K> {
    inner: K,
    notes: Notes,
    losses: Losses,
}

impl<K> ListeningSink<K> {
    /// A sink in front of this one, which has noted nothing.
    pub fn new(inner: K) -> ListeningSink<K>
        ensures inner { result.inner ≡ inner }
        ensures notes { result.notes ≡ record { first = []; refused = 0; calls = 0 } }
        ensures losses { result.losses ≡ none_noted }
    {
        ListeningSink {
            inner,
            notes: Notes::new(),
            losses: Losses::new(),
        }
    }

    /// The sink behind it.
    pub fn inner(&self) -> &K
        ensures { result.now ≡ self.now.inner }
    {
        &self.inner
    }

    /// What is noted so far of calls.
    pub fn notes(&self) -> &Notes
        ensures { result.now ≡ self.now.notes }
    {
        &self.notes
    }

    /// What is noted so far of recorders and of disks.
    pub fn losses(&self) -> &Losses
        ensures { result.now ≡ self.now.losses }
    {
        &self.losses
    }
}

// The first line, and what stands behind its end.
fn first_line(bytes: &[u8]) -> (&[u8], &[u8]) {
    for place in 0..bytes.len() {
        if bytes[place] == b'\n' {
            return (&bytes[..place], &bytes[place + 1..]);
        }
    }
    (bytes, &bytes[..0])
}

// Hears lines of a report, up to the first that is none of a call, of a recorder or of a disk.
fn hear(notes: &mut Notes, losses: &mut Losses, lines: &[u8]) {
    let mut rest = lines;
    for _ in 0..lines.len() {
        let (line, behind) = first_line(rest);
        if rest.is_empty() || !(notes.hear(line) || losses.hear(line)) {
            return;
        }
        rest = behind;
    }
}

impl<K: Sink> Sink for ListeningSink<K> {
    ghost content = { λ s. K.content s.inner };

    ghost faults = { λ s. K.faults s.inner };

    fn put(&mut self, bytes: &[u8]) -> Result<(), Failed> {
        let put = self.inner.put(bytes);
        if put.is_ok() {
            hear(&mut self.notes, &mut self.losses, bytes);
        }
        put
    }
}

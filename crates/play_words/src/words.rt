//! The names that the words of a play give.

ghost use Rattle.std.specs.Prelude.{◌≡◌, ◌+◌, ◌<◌, ◌≤◌, ◌++◌, [], length, map, slice_index_or, string_bytes};
ghost use Rattle.play_words.specs.Words.{names_of};

use crate::pairs::name_at;
use std::marker::Model;

/// The names of a play: its script, its capture and its playback, a file for each recorder, and each disk file, in the order
/// of the words. Contracts see the `Play`.
#[derive(Drop)]
pub struct Names<'a> {
    pub script: &'a str,
    pub capture: &'a str,
    pub playback: &'a str,
    // The pairs of the recorders, and those of the disks.
    pub(crate) records: &'a [String],
    pub(crate) disks: &'a [String],
}

impl<'a> Model for Names<'a> {
    ghost use Rattle.std.specs.Prelude.{◌≤◌, length, map, string_bytes};
    ghost use Rattle.play_words.specs.Pairs.{seconds};
    ghost use Rattle.play_words.specs.Words.{Play};

    ghost Value = { Play };

    ghost view = { λ n. record {
      script = n.script.now;
      capture = n.capture.now;
      playback = n.playback.now;
      records = seconds (map string_bytes n.records.now);
      disks = seconds (map string_bytes n.disks.now);
    } };

    ghost invariant = { λ n. (length n.records.now ≤ 8) × (length n.disks.now ≤ 8) };
}

impl<'a> Names<'a> {
    /// How many recorders have a name.
    pub fn records(&self) -> usize
        ensures value { result ≡ length self.now.records }
        ensures few { result ≤ 4 }
    {
        self.records.len() / 2
    }

    /// The name of a recorder's file.
    pub fn record(&self, i: usize) -> &'a str
        requires { i < length self.now.records }
        ensures { result.now ≡ slice_index_or self.now.records i [] }
    {
        name_at(self.records, i)
    }

    /// How many disk files are named.
    pub fn disks(&self) -> usize
        ensures value { result ≡ length self.now.disks }
        ensures few { result ≤ 4 }
    {
        self.disks.len() / 2
    }

    /// The name of a disk file.
    pub fn disk(&self, i: usize) -> &'a str
        requires { i < length self.now.disks }
        ensures { result.now ≡ slice_index_or self.now.disks i [] }
    {
        name_at(self.disks, i)
    }

    // The name at a place among those of recorders and disks.
    fn behind(&self, place: usize) -> &'a str
        requires { place < length (self.now.records ++ self.now.disks) }
        ensures { result.now ≡ slice_index_or (self.now.records ++ self.now.disks) place [] }
    {
        let records = self.records();
        if place < records {
            return self.record(place);
        }
        self.disk(place - records)
    }

    /// The name at a place among all.
    pub(crate) fn name(&self, place: usize) -> &'a str
        requires { place < length (names_of self.now) }
        ensures { result.now ≡ slice_index_or (names_of self.now) place [] }
    {
        match place {
            0 => self.script,
            1 => self.capture,
            2 => self.playback,
            _ => self.behind(place - 3),
        }
    }

    /// How many names there are.
    pub(crate) fn count(&self) -> usize
        ensures { result ≡ length (names_of self.now) }
    {
        3 + self.records() + self.disks()
    }
}

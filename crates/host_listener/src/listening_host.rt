//! A host that keeps the first bytes of the files that are read through it.

ghost use Rattle.std.specs.Prelude.{◌≡◌, IfOk};

use crate::fronts::Front;
use crate::listening_source::ListeningSource;
use jack_host::{Failed, Host};
use std::alloc::{AllocError, Global};

// How many files it listens to.
const LISTENED: usize = 2;

/// A host in front of another one, which keeps the first bytes of the first two files that are opened. All its memory is taken
/// when it is made.
///
/// The bytes are there once the file was handed back. So a pipe, which can't be read again, can still be told of.
#[derive(Drop)]
pub struct ListeningHost<H> {
    inner: H,
    opened: usize,
    fronts: [Option<Front>; 2],
}

impl<H: Drop> ListeningHost<H> {
    /// A host in front of this one, with room for so many bytes of the first file, and of the second.
    pub fn new(
        alloc: Global,
        inner: H,
        first: usize,
        second: usize,
    ) -> Result<ListeningHost<H>, AllocError>
        ensures { IfOk result (λ host. host.inner ≡ inner) }
    {
        let first = Front::with_room(alloc, first)?;
        let second = Front::with_room(alloc, second)?;
        Ok(ListeningHost {
            inner,
            opened: 0,
            fronts: [Some(first), Some(second)],
        })
    }
}

impl<H> ListeningHost<H> {
    /// The host behind it.
    pub fn inner(&self) -> &H
        ensures { result.now ≡ self.now.inner }
    {
        &self.inner
    }

    /// How many files were opened.
    pub fn opened(&self) -> usize
        ensures { result ≡ self.now.opened }
    {
        self.opened
    }

    /// The front of the first or the second file, counted from 0, which is not out.
    pub fn front(&self, place: usize) -> Option<&Front> {
        if place >= LISTENED {
            return None;
        }
        self.fronts[place].as_ref()
    }

    // The room for the next file that is opened, where it is listened to.
    fn take_front(&mut self) -> Option<Front>
        ensures { self.new.inner ≡ self.old.inner }
    {
        let place = self.opened;
        self.opened = self.opened.saturating_add(1);
        if place >= LISTENED {
            return None;
        }
        self.fronts[place].take()
    }

    // Takes back what was read of a file.
    fn keep_front(&mut self, place: usize, front: Option<Front>)
        ensures { self.new.inner ≡ self.old.inner }
    {
        if place < LISTENED {
            self.fronts[place] = front;
        }
    }
}

impl<H: Host> Host for ListeningHost<H> {
    type In = ListeningSource<H::In>;

    type Out = H::Out;

    ghost files = { λ h. H.files h.inner };

    ghost read_faults = { λ h. H.read_faults h.inner };

    ghost write_faults = { λ h. H.write_faults h.inner };

    ghost lent = { λ h. H.lent h.inner };

    fn open_in(&mut self, name: &str) -> Result<Self::In, Failed> {
        let inner = self.inner.open_in(name)?;
        let place = self.opened;
        Ok(ListeningSource {
            inner,
            place,
            front: self.take_front(),
        })
    }

    fn back(&mut self, input: Self::In) {
        let ListeningSource {
            inner,
            place,
            front,
        } = input;
        self.inner.back(inner);
        self.keep_front(place, front);
    }

    fn make_out(&mut self, name: &str) -> Result<Self::Out, Failed> {
        self.inner.make_out(name)
    }

    fn done(&mut self, output: Self::Out) -> Result<(), Failed> {
        self.inner.done(output)
    }

    fn give_up(&mut self, output: Self::Out) {
        self.inner.give_up(output)
    }
}

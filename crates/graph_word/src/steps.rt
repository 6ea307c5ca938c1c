//! The kinds of step that the two ends make.
use crate::plans::Numbered;
use crate::view::SeatView;
use atomic_table::{Join, Play, Split};
use std::marker::PhantomData;

/// A load by which the publisher takes its slot, once.
pub(crate) struct Open;

impl<P> Play<Option<P>, SeatView> for Open {
    ghost use Rattle.graph_word.specs.Steps.{Opened};

    ghost then = { Opened };
}

/// A load by which the reader takes its slot, once.
pub(crate) struct Settle;

impl<P> Play<Option<P>, SeatView> for Settle {
    ghost use Rattle.graph_word.specs.Steps.{Settled};

    ghost then = { Settled };
}

/// The publisher's exchange of the graph word.
pub(crate) struct Commit<P> {
    plan: PhantomData<P>,
}

impl<P: Numbered> Play<Option<P>, SeatView> for Commit<P> {
    ghost use Rattle.graph_word.specs.Steps.{Committed};

    ghost then = { Committed P.content P.base };
}

/// The publisher's load of the cycle word.
pub(crate) struct Note;

impl<S> Play<S, SeatView> for Note {
    ghost use Rattle.graph_word.specs.Steps.{Noted};

    ghost then = { Noted };
}

/// The reader's load of the graph word.
pub(crate) struct See;

impl<S> Play<S, SeatView> for See {
    ghost use Rattle.graph_word.specs.Steps.{Saw};

    ghost then = { Saw };
}

/// The reader's exchange of the graph word.
pub(crate) struct Swap<P> {
    plan: PhantomData<P>,
}

impl<P: Numbered> Play<Option<P>, SeatView> for Swap<P> {
    ghost use Rattle.graph_word.specs.Steps.{Swapped};

    ghost then = { Swapped P.content P.base };
}

/// The reader's store of the cycle word.
pub(crate) struct Begin;

impl<S> Play<S, SeatView> for Begin {
    ghost use Rattle.graph_word.specs.Steps.{Begun};

    ghost then = { Begun };
}

/// A load of the graph word by a seat that is both ends.
pub(crate) struct Meet;

impl<S> Play<S, SeatView> for Meet {
    ghost use Rattle.graph_word.specs.Steps.{Met};

    ghost then = { Met };
}

/// The reader's part of a seat goes to a new seat, or comes back from it to the publisher's.
pub(crate) struct Ends;

impl Split<SeatView> for Ends {
    ghost use Rattle.graph_word.specs.Steps.{without_reader, without_publisher};

    ghost left = { without_reader };

    ghost right = { without_publisher };
}

impl Join<SeatView> for Ends {
    ghost use Rattle.graph_word.specs.Steps.{joined, nobody};

    ghost both = { joined };

    ghost spent = { nobody };
}

/// The reader's part comes back to a seat with no part.
pub(crate) struct Home;

impl Join<SeatView> for Home {
    ghost use Rattle.graph_word.specs.Steps.{returned, nobody};

    ghost both = { returned };

    ghost spent = { nobody };
}

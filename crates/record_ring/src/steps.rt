//! The kinds of step that the two ends make.
use crate::block::Block;
use crate::view::SeatView;
use atomic_table::{Join, Play, Split};

/// The producer's load of the number taken.
pub(crate) struct Look;

impl Play<Block, SeatView> for Look {
    ghost use Rattle.record_ring.specs.Steps.{Looked};

    ghost then = { Looked };
}

/// The producer's load of the number taken, of which it notes nothing.
pub(crate) struct Glance;

impl Play<Block, SeatView> for Glance {
    ghost use Rattle.record_ring.specs.Steps.{Glanced};

    ghost then = { Glanced };
}

/// The producer's store of the number sent.
pub(crate) struct Send;

impl Play<Block, SeatView> for Send {
    ghost use Rattle.record_ring.specs.Steps.{Sent};

    ghost then = { Sent };
}

/// The producer's store of the end mark.
pub(crate) struct Mark;

impl Play<Block, SeatView> for Mark {
    ghost use Rattle.record_ring.specs.Steps.{Marked};

    ghost then = { Marked };
}

/// The consumer's load of the number sent.
pub(crate) struct Find;

impl Play<Block, SeatView> for Find {
    ghost use Rattle.record_ring.specs.Steps.{Found};

    ghost then = { Found };
}

/// The consumer's load of the number sent, of which it notes nothing.
pub(crate) struct Peek;

impl Play<Block, SeatView> for Peek {
    ghost use Rattle.record_ring.specs.Steps.{Peeked};

    ghost then = { Peeked };
}

/// The consumer's store of the number taken.
pub(crate) struct Take;

impl Play<Block, SeatView> for Take {
    ghost use Rattle.record_ring.specs.Steps.{Took};

    ghost then = { Took };
}

/// The store that takes the end mark away, by a seat that is both ends.
pub(crate) struct Renew;

impl Play<Block, SeatView> for Renew {
    ghost use Rattle.record_ring.specs.Steps.{Renewed};

    ghost then = { Renewed };
}

/// A load of the number sent, by a seat that is both ends.
pub(crate) struct Tell;

impl Play<Block, SeatView> for Tell {
    ghost use Rattle.record_ring.specs.Steps.{Told};

    ghost then = { Told };
}

/// The consumer's part of a seat goes to a new seat, or comes back from it.
pub(crate) struct Ends;

impl Split<SeatView> for Ends {
    ghost use Rattle.record_ring.specs.Steps.{without_consumer, without_producer};

    ghost left = { without_consumer };

    ghost right = { without_producer };
}

impl Join<SeatView> for Ends {
    ghost use Rattle.record_ring.specs.Steps.{joined, nobody};

    ghost both = { joined };

    ghost spent = { nobody };
}

//! The rule of a crew's table, and its kinds of step.
use crate::views::{Item, Size, View};
use crate::work::Work;
use atomic_table::{Join, Play, Split, TableRule};
use std::marker::PhantomData;

pub struct CrewRule<B> {
    bench: PhantomData<B>,
}

impl<B: Work> TableRule<Option<Item<B, B::Value>>, View<Option<Item<B, B::Value>>, B>, Size>
    for CrewRule<B> {
    ghost use Rattle.activation.specs.Rule.{Rule};
    ghost use Rattle.activation.specs.Contents.{IsFull, IsDone, first_view};

    ghost holds = { λ _ s. Rule (IsFull B.memory B.has_room B.after B.gives) (IsDone B.memory B.has_room B.after B.gives) s };

    ghost first = { λ size. first_view size.links.items size.slots size.seats };
}

/// The load of a slot's word that takes the slot out.
pub struct Take<B> {
    bench: PhantomData<B>,
}

impl<B: Work> Play<Option<Item<B, B::Value>>, View<Option<Item<B, B::Value>>, B>> for Take<B> {
    ghost use Rattle.activation.specs.Contents.{IsFull};
    ghost use Rattle.activation.specs.Plays.{taken};

    ghost then = { taken (IsFull B.memory B.has_room B.after B.gives) };
}

/// The load that gives a slot back, emptied.
pub struct Open;

impl<S, B> Play<S, View<S, B>> for Open {
    ghost use Rattle.activation.specs.Plays.{opened};

    ghost then = { opened };
}

/// The load that gives a slot back with a played bench, or with a value that was used.
pub struct Fill;

impl<S, B> Play<S, View<S, B>> for Fill {
    ghost use Rattle.activation.specs.Plays.{filled};

    ghost then = { filled };
}

/// The load that gives a slot back with what was taken from it.
pub struct Refill;

impl<S, B> Play<S, View<S, B>> for Refill {
    ghost use Rattle.activation.specs.Plays.{refilled};

    ghost then = { refilled };
}

/// The decrement for the start of a node.
pub struct Start;

impl<S, B> Play<S, View<S, B>> for Start {
    ghost use Rattle.activation.specs.Plays.{started_by};

    ghost then = { started_by };
}

/// The decrement for a link, which gives its slot back with the value.
pub struct Release;

impl<S, B> Play<S, View<S, B>> for Release {
    ghost use Rattle.activation.specs.Plays.{released_by};

    ghost then = { released_by };
}

/// The decrement of the count of benches out.
pub struct ComeHome;

impl<S, B> Play<S, View<S, B>> for ComeHome {
    ghost use Rattle.activation.specs.Plays.{came_home};

    ghost then = { came_home };
}

/// The store of 1 in the left word of a node.
pub struct Leave;

impl<S, B> Play<S, View<S, B>> for Leave {
    ghost use Rattle.activation.specs.Plays.{left_node};

    ghost then = { left_node };
}

/// The exchange of a node's left word with 0.
pub struct Pick;

impl<S, B> Play<S, View<S, B>> for Pick {
    ghost use Rattle.activation.specs.Plays.{picked};

    ghost then = { picked };
}

/// How seats that hold nothing are split and joined.
pub struct Shares;

impl<S, B> Split<View<S, B>> for Shares {
    ghost use Rattle.activation.specs.Plays.{left_of, right_of};

    ghost left = { left_of };

    ghost right = { right_of };
}

impl<S, B> Join<View<S, B>> for Shares {
    ghost use Rattle.activation.specs.Plays.{joined, nobody};

    ghost both = { joined };

    ghost spent = { nobody };
}

/// The load behind which the seat knows the whole table.
pub struct Enter<B> {
    bench: PhantomData<B>,
}

impl<B: Work> Play<Option<Item<B, B::Value>>, View<Option<Item<B, B::Value>>, B>> for Enter<B> {
    ghost use Rattle.activation.specs.Contents.{IsFull, IsDone};
    ghost use Rattle.activation.specs.Plays.{entered};

    ghost then = { entered (IsFull B.memory B.has_room B.after B.gives) (IsDone B.memory B.has_room B.after B.gives) };
}

/// The store of a word by the one seat.
pub struct Set;

impl<S, B> Play<S, View<S, B>> for Set {
    ghost use Rattle.activation.specs.Plays.{stored};

    ghost then = { stored };
}

/// The load by which the one seat takes a slot.
pub struct Lift;

impl<S, B> Play<S, View<S, B>> for Lift {
    ghost use Rattle.activation.specs.Plays.{lifted};

    ghost then = { lifted };
}

/// The load by which the one seat gives a slot back.
pub struct LayDown;

impl<S, B> Play<S, View<S, B>> for LayDown {
    ghost use Rattle.activation.specs.Plays.{laid_down};

    ghost then = { laid_down };
}

/// How a seat leaves a spent one behind.
pub struct Husks;

impl<S, B> Split<View<S, B>> for Husks {
    ghost use Rattle.activation.specs.Plays.{nobody};

    ghost left = { λ v. v };

    ghost right = { λ v. nobody };
}

/// The load by which the one seat empties its list of links.
pub struct Unlink;

impl<S, B> Play<S, View<S, B>> for Unlink {
    ghost use Rattle.activation.specs.Plays.{unlinked};

    ghost then = { unlinked };
}

/// The store by which the one seat adds a link to its list: the word is the link's source, and the number
/// its target.
pub struct AddLink;

impl<S, B> Play<S, View<S, B>> for AddLink {
    ghost use Rattle.activation.specs.Plays.{linked};

    ghost then = { linked };
}

/// The load with which the next cycle begins.
pub struct Begin;

impl<B, Y> Play<Option<Item<B, Y>>, View<Option<Item<B, Y>>, B>> for Begin {
    ghost use Rattle.activation.specs.Contents.{benches_of};
    ghost use Rattle.activation.specs.Plays.{begun};

    ghost then = { begun benches_of };
}

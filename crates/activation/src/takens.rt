//! A node that a seat holds, and the seat.
ghost use Rattle.std.specs.Prelude.{◌≡◌, List, map, Some};
ghost use Rattle.activation.specs.declared.views.Duty.{Duty};
ghost use Rattle.activation.specs.Takens.{IsUnplayed, IsPlayed};

use crate::views::{Item, Tray, View};
use crate::work::Work;
use atomic_table::Seat as Token;

/// A worker's right to act on a crew: it starts the nodes of its share, and holds those that it takes.
#[derive(Drop)]
pub struct Seat<B: Work> {
    pub(crate) number: u32,
    pub(crate) token: Token<Option<Item<B, B::Value>>, View<Option<Item<B, B::Value>>, B>>,
}

impl<B: Work> Seat<B> {
    /// The number of the seat, counted from 0.
    pub fn number(&self) -> u32
        ensures { result ≡ self.now.number }
    {
        self.number
    }
}

/// A node that a seat holds: its bench, and the values of its incoming links.
#[derive(Drop)]
pub struct Taken<B: Work> {
    pub(crate) node: u32,
    pub(crate) tray: Tray<B, B::Value>,
}

impl<B: Work> Taken<B> {
    /// The node.
    pub fn node(&self) -> u32
        ensures { result ≡ self.now.node }
    {
        self.node
    }

    /// The node's bench.
    pub fn bench(&self) -> &B
        ensures { result.now ≡ self.now.tray.bench }
    {
        &self.tray.bench
    }

    /// Plays the bench on the values of its incoming links. It is played once.
    pub fn play(&mut self)
        requires given { (values : List B.Value) × (self.old.tray.given.items ≡ map Some values) }
        ensures node { self.new.node ≡ self.old.node }
        ensures played { (duty : Duty B) → IsUnplayed B.memory B.has_room B.value_at B.after B.gives duty self.old.node self.old.tray → IsPlayed B.memory B.has_room B.value_at B.after B.gives duty self.new.node self.new.tray }
    {
        self.tray.bench.play(self.tray.given.as_slice());
    }
}

//! How all seats of a crew become one, and one is shared out again.
ghost use Rattle.std.specs.Prelude.{◌≡◌, ◌<◌, ◌≤◌, ◌+◌, ℕ, List, [], ◌∷◌, length, map, All, true};
ghost use Rattle.session_laws.specs.session_model.specs.Samples.{below};
ghost use Rattle.activation.specs.Contents.{from_to};
ghost use Rattle.activation.specs.Seats.{IsIdle, IsAt, IsShare, new_duty};
ghost use Rattle.activation.specs.Crews.{AreAllOf};

use crate::crews::Crew;
use crate::rules::{Husks, Shares};
use crate::takens::Seat;
use crate::views::{Item, View};
use crate::work::Work;
use atomic_table::Seat as Token;
use std::mem;

impl<B: Work> Crew<B> {
    ghost use Rattle.activation.specs.Rule.{has};
    ghost use Rattle.activation.specs.Rounds.{HavePlayed, AreUnused, Know};

    // Takes the seat's token, and leaves a spent one behind.
    fn part(
        &self,
        seat: &mut Seat<B>,
    ) -> Token<Option<Item<B, B::Value>>, View<Option<Item<B, B::Value>>, B>>
        requires { (seat.old.token.table_id ≡ self.now.board.shared.table_id) × IsIdle seat.old.token.me }
        ensures { (seat.new.number ≡ seat.old.number) × (result.table_id ≡ self.now.board.shared.table_id) × (result.me ≡ seat.old.token.me) }
    {
        let husk = self.board.shared.split_seat::<Husks>(&mut seat.token);
        mem::replace(&mut seat.token, husk)
    }

    // Joins all seats into one.
    pub(crate) fn gather(
        &self,
        seats: &mut [Seat<B>],
    ) -> Token<Option<Item<B, B::Value>>, View<Option<Item<B, B::Value>>, B>>
        requires { AreAllOf self.now seats.old }
        ensures numbers { map (λ seat. seat.number) seats.new ≡ below self.now.seats }
        ensures token { IsAt self.now.board.shared.table_id self.now.links.items self.now.nodes result }
        ensures duty { (result.me.0.duty.seats ≡ self.now.seats) × (result.me.0.duty.shares ≡ from_to 0 self.now.seats) × (result.me.0.duty.held ≡ []) × (result.me.0.duty.left ≡ []) }
        ensures before { (before : List B) → Know before seats.old → result.me.0.duty.before ≡ before }
        ensures played { HavePlayed self.now.nodes self.now.seats seats.old → (n : ℕ) → n < self.now.nodes → has result.me.0.duty.started n ≡ true }
        ensures unused { AreUnused seats.old → result.me.0.duty.started ≡ [] }
    {
        let mut one = self.part(&mut seats[0]);
        for number in 1..seats.len() {
            let other = self.part(&mut seats[number]);
            self.board.shared.join_seat::<Shares>(&mut one, other);
        }
        one
    }

    // Gives each seat its share back.
    pub(crate) fn deal(
        &self,
        mut token: Token<Option<Item<B, B::Value>>, View<Option<Item<B, B::Value>>, B>>,
        seats: &mut [Seat<B>],
    )
        requires token { (token.table_id ≡ self.now.board.shared.table_id) × IsIdle token.me × (token.me.0.duty ≡ new_duty token.me.0.duty.links token.me.0.duty.before self.now.seats (from_to 0 self.now.seats)) }
        requires numbers { map (λ seat. seat.number) seats.old ≡ below self.now.seats }
        ensures numbers { map (λ seat. seat.number) seats.new ≡ below self.now.seats }
        ensures each { All (λ seat. IsShare self.now.board.shared.table_id token.me.0.duty.links token.me.0.duty.before self.now.seats seat.number seat.token) seats.new }
    {
        let last = seats.len() - 1;
        for number in 0..last {
            seats[number].token = self.board.shared.split_seat::<Shares>(&mut token);
        }
        seats[last].token = token;
    }
}

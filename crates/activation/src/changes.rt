//! What becomes of a crew between two cycles, and at its end.
ghost use Rattle.std.specs.Prelude.{◌≡◌, ◌<◌, ◌≤◌, ◌⊎◌, ℕ, List, length, map};
ghost use mathlib.Core.Option.{some};
ghost use lib.ListN.{get_elem?};
ghost use Rattle.session_laws.specs.session_model.specs.Activation.{AreLinks, outgoing};
ghost use Rattle.session_laws.specs.session_model.specs.Samples.{below};
ghost use Rattle.activation.specs.declared.views.Tray.{Tray};
ghost use Rattle.activation.specs.Contents.{HasRoomFor, benches_in, from_to};
ghost use Rattle.activation.specs.Plays.{AreClear};
ghost use Rattle.activation.specs.Seats.{IsIdle, IsSole, new_duty};
ghost use Rattle.activation.specs.Returns.{BenchAt};
ghost use Rattle.activation.specs.Crews.{AreAllOf};

use crate::crews::{Crew, Emptied};
use crate::indexes::refill;
use crate::opening::{set_counters, write};
use crate::rules::Enter;
use crate::takens::Seat;
use crate::turns::{add_links, give_back, open_cycle, swap_benches, take_benches};
use crate::views::{Item, View};
use crate::work::Work;
use atomic_table::Seat as Token;
use session_laws::jack_types::Link;

impl<B: Work> Crew<B> {
    ghost use Rattle.activation.specs.Rounds.{AreSeats, HavePlayed, AreUnused, Know, AreFresh, ArePlayed, AreReturned, IsReturned};

    /// The number of benches.
    pub fn nodes(&self) -> u32
        ensures { result ≡ self.now.nodes }
    {
        self.nodes as u32
    }

    /// The list of links of `new` or of the last `reset`.
    pub fn links(&self) -> &[Link]
        ensures { result.now ≡ self.now.links.items }
    {
        self.links.as_slice()
    }

    /// The positions of the links that go out from the node, in the order of the list of links.
    pub fn outgoing(&self, node: u32) -> &[u32]
        requires node { node < self.now.nodes }
        ensures { result.now ≡ outgoing self.now.links.items node }
    {
        self.out[node as usize].as_slice()
    }

    /// Exchanges the bench of each node with the one at that node's place in the list.
    ///
    /// It takes all seats, and no node was started since the crew was made or reset.
    pub fn swap(&mut self, seats: &mut [Seat<B>], benches: &mut [B])
        requires all { AreAllOf self.old seats.old }
        requires unused { AreUnused seats.old }
        requires count { length benches.old ≡ self.old.nodes }
        ensures crew { self.new ≡ self.old }
        ensures seats { AreAllOf self.new seats.new }
        ensures fresh { AreFresh self.new.links.items benches.old self.new.seats seats.new }
        ensures benches { (before : List B) → Know before seats.old → benches.new ≡ before }
    {
        let mut token = self.gather(seats);
        self.board.shared.load::<Enter<B>>(&mut token, 0);
        swap_benches(&self.board, &mut token, benches);
        open_cycle(&self.board, &mut token);
        self.deal(token, seats);
    }

    // Joins all seats into one that knows the table, and gives each bench the values back that it handed.
    fn recover(
        &self,
        seats: &mut [Seat<B>],
    ) -> Token<Option<Item<B, B::Value>>, View<Option<Item<B, B::Value>>, B>>
        requires all { AreAllOf self.now seats.old }
        requires over { HavePlayed self.now.nodes self.now.seats seats.old ⊎ AreUnused seats.old }
        ensures numbers { map (λ seat. seat.number) seats.new ≡ below self.now.seats }
        ensures token { (result.table_id ≡ self.now.board.shared.table_id) × IsSole result.me × (result.me.0.duty.seats ≡ self.now.seats) × (result.me.0.duty.shares ≡ from_to 0 self.now.seats) }
        ensures sizes { (length result.me.0.shelf.items ≡ self.now.board.shared.table_id.slots) × (self.now.nodes ≤ length result.me.0.shelf.words) }
        ensures clear { AreClear self.now.nodes result.me.0.shelf.words }
        ensures benches { (n : ℕ) → n < self.now.nodes → (tray : Tray B B.Value) × BenchAt result.me.0.shelf.items n tray × HasRoomFor tray }
        ensures played { (before : List B) → Know before seats.old → HavePlayed self.now.nodes self.now.seats seats.old → (n : ℕ) (tray : Tray B B.Value) → n < self.now.nodes → BenchAt result.me.0.shelf.items n tray → IsReturned B.memory B.has_room B.after B.gives self.now.links.items before n tray.bench }
        ensures unused { (before : List B) → Know before seats.old → AreUnused seats.old → (n : ℕ) (tray : Tray B B.Value) → n < self.now.nodes → BenchAt result.me.0.shelf.items n tray → get_elem? before n ≡ some tray.bench }
    {
        let mut token = self.gather(seats);
        let counter = self.board.shared.load::<Enter<B>>(&mut token, 0);
        if counter != 0 {
            return token;
        }
        give_back(
            &self.board,
            &mut token,
            self.links.as_slice(),
            self.places.as_slice(),
            self.nodes,
        );
        token
    }

    // Begins a cycle over the crew's links.
    fn restart(
        &self,
        token: &mut Token<Option<Item<B, B::Value>>, View<Option<Item<B, B::Value>>, B>>,
    )
        requires token { (token.old.table_id ≡ self.now.board.shared.table_id) × IsSole token.old.me × (token.old.me.0.duty.seats ≡ self.now.seats) × (token.old.me.0.duty.shares ≡ from_to 0 self.now.seats) }
        requires sizes { (length token.old.me.0.shelf.items ≡ self.now.board.shared.table_id.slots) × (self.now.nodes ≤ length token.old.me.0.shelf.words) }
        requires clear { AreClear self.now.nodes token.old.me.0.shelf.words }
        requires benches { (n : ℕ) → n < self.now.nodes → (tray : Tray B B.Value) × BenchAt token.old.me.0.shelf.items n tray × HasRoomFor tray }
        ensures token { (token.new.table_id ≡ token.old.table_id) × IsIdle token.new.me }
        ensures duty { token.new.me.0.duty ≡ new_duty self.now.links.items (benches_in self.now.nodes token.old.me.0.shelf.items) self.now.seats (from_to 0 self.now.seats) }
    {
        add_links(&self.board, token, self.links.as_slice());
        write(&self.board, token, self.nodes + 512, self.nodes as u64);
        set_counters(&self.board, token, self.into.as_slice());
        open_cycle(&self.board, token);
    }

    /// Makes the crew as new over these links, for the next cycle.
    ///
    /// It takes all seats; every node is home, or none was started since the crew was made or reset. Each
    /// bench has the memory that it had, and gets the values back that it handed.
    pub fn reset(&mut self, seats: &mut [Seat<B>], links: &[Link])
        requires all { AreAllOf self.old seats.old }
        requires over { HavePlayed self.old.nodes self.old.seats seats.old ⊎ AreUnused seats.old }
        requires links { AreLinks self.old.nodes links.now × (length links.now ≤ 512) }
        ensures crew { (self.new.board ≡ self.old.board) × (self.new.nodes ≡ self.old.nodes) × (self.new.seats ≡ self.old.seats) × (self.new.links.items ≡ links.now) }
        ensures seats { AreSeats self.new.board.shared.table_id links.now self.new.nodes self.new.seats seats.new }
        ensures fresh { (benches : List B) × (length benches ≡ self.old.nodes) × AreFresh links.now benches self.new.seats seats.new
            × ((before : List B) → Know before seats.old → HavePlayed self.old.nodes self.old.seats seats.old → AreReturned B.memory B.has_room B.after B.gives self.old.links.items before benches)
            × ((before : List B) → Know before seats.old → AreUnused seats.old → benches ≡ before) }
    {
        let mut token = self.recover(seats);
        refill(
            links,
            &mut self.links,
            &mut self.into,
            &mut self.out,
            &mut self.places,
        );
        self.restart(&mut token);
        self.deal(token, seats);
    }

    /// The benches, in the order of the nodes.
    ///
    /// It takes all seats; every node is home, or none was started since the crew was made or reset.
    /// Values that are left in links' slots are dropped.
    pub fn close(self, mut seats: Vec<Seat<B>>) -> Vec<B>
        requires all { AreAllOf self seats.items }
        requires over { HavePlayed self.nodes self.seats seats.items ⊎ AreUnused seats.items }
        ensures count { length result.items ≡ self.nodes }
        ensures played { (before : List B) → Know before seats.items → HavePlayed self.nodes self.seats seats.items → ArePlayed B.memory B.has_room B.after B.gives self.links.items before result.items }
        ensures unused { (before : List B) → Know before seats.items → AreUnused seats.items → result.items ≡ before }
    {
        let mut token = self.gather(seats.as_mut_slice());
        self.board.shared.load::<Enter<B>>(&mut token, 0);
        let Crew {
            board,
            links: _,
            nodes,
            seats: _,
            into: _,
            out: _,
            places: _,
            emptied,
        } = self;
        let Emptied { mut benches } = emptied.into_inner();
        take_benches(&board, &mut token, nodes, &mut benches);
        benches
    }
}

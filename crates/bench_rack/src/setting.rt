//! How the benches of a rack are set.

use crate::racks::Rack;
use bench_crew::client_benches::Stint;
use bench_crew::client_kinds::{Guest, Shape};
use jack_types::Moment;

impl<G: Guest> Rack<G> {
    ghost use Rattle.std.specs.Prelude.{◌≡◌, ◌*◌, ◌<◌, ◌≤◌, [], IfNone, IfSome, List, None, Some, false, length, map, slice_set};
    ghost use Rattle.std.specs.Option.{ForSome};
    ghost use Rattle.session_model.specs.Kinds.{first};
    ghost use Rattle.bench_crew.specs.client_kinds.specs.Scores.{Score};
    ghost use Rattle.bench_crew.specs.client_kinds.specs.Standings.{HasScore, IsDisk, IsGuest};
    ghost use Rattle.bench_crew.specs.client_benches.specs.Seen.{MayPlay, cleared, moved_to, rested};
    ghost use Rattle.bench_rack.specs.Racks.{begun, bench_at, fed_with, moved, with_bench};

    /// Exchanges the benches at two places.
    pub fn swap(&mut self, first: usize, second: usize)
        requires first { first < length self.old.benches }
        requires second { second < length self.old.benches }
        ensures { self.new ≡ record self.old { benches = slice_set (slice_set self.old.benches first (bench_at self.old second)) second (bench_at self.old first) } }
    {
        self.benches.swap(first, second);
    }

    /// Makes a bench idle: its task, its connections and its rooms go.
    pub fn clear(&mut self, place: usize)
        requires { place < length self.old.benches }
        ensures { self.new ≡ with_bench self.old place (cleared (bench_at self.old place)) }
    {
        self.benches[place].clear(&mut self.spare, &mut self.spare_links);
    }

    /// Makes a bench idle, and what it got and gave last goes too.
    pub fn rest(&mut self, place: usize)
        requires { place < length self.old.benches }
        ensures { self.new ≡ with_bench self.old place (rested (bench_at self.old place)) }
    {
        self.benches[place].rest(&mut self.spare, &mut self.spare_links);
    }

    /// Sets what a client does in the next cycle. There are as many links out of its node.
    pub fn begin(&mut self, place: usize, turn: &Stint)
        requires place { place < length self.old.benches }
        requires routes { (bench_at self.old place).kept.routes ≡ [] }
        requires turn { MayPlay (bench_at self.old place).kept.standing turn.now }
        ensures { self.new ≡ with_bench self.old place (begun turn.now (bench_at self.old place)) }
    {
        self.benches[place].begin(&turn.moment, turn.ports, turn.links);
    }

    /// Sets the moment and the period of a client's next cycle.
    pub fn set_moment(&mut self, place: usize, moment: &Moment, period: u32)
        requires place { place < length self.old.benches }
        requires turn { ForSome (bench_at self.old place).kept.turn (λ turn. MayPlay (bench_at self.old place).kept.standing (moved_to moment.now period turn)) }
        ensures { self.new ≡ with_bench self.old place (moved moment.now period (bench_at self.old place)) }
    {
        self.benches[place].set_moment(moment, period);
    }

    /// Feeds the disk player at a place the interleaved block that its next cycle plays and uses up, or its
    /// front, where that cycle is shorter.
    pub fn feed(&mut self, place: usize, samples: &[i32], channels: u16)
        requires place { place < length self.old.benches }
        requires kind { IsDisk (bench_at self.old place).kept.standing.kind }
        requires least { 1 ≤ channels }
        requires most { channels ≤ 8 }
        requires samples { length samples.now ≡ channels * (bench_at self.old place).kept.standing.period }
        ensures { self.new ≡ with_bench self.old place (fed_with channels samples.now (bench_at self.old place)) }
    {
        self.benches[place].feed(samples, channels);
    }

    /// Lends a guest to the bench at a place. The guest is reset.
    pub fn lend(&mut self, place: usize, guest: G)
        requires place { place < length self.old.benches }
        requires kind { IsGuest (bench_at self.old place).kept.standing.kind }
        requires none { (bench_at self.old place).kept.standing.score ≡ None }
        ensures kind { (bench_at self.new place).kept.standing.kind ≡ (bench_at self.old place).kept.standing.kind }
        ensures period { (bench_at self.new place).kept.standing.period ≡ (bench_at self.old place).kept.standing.period }
        ensures score { (bench_at self.new place).kept.standing.score ≡ Some (G.score guest) }
        ensures memory { (scores : List Score) → HasScore (bench_at self.new place).kept.standing scores → (bench_at self.new place).kept.standing.memory ≡ first (map G.sound scores) (bench_at self.new place).kept.standing.kind }
        ensures others { self.new ≡ with_bench self.old place (record (bench_at self.old place) { kept = record (bench_at self.old place).kept { standing = (bench_at self.new place).kept.standing } }) }
    {
        self.benches[place].lend(guest);
    }

    /// The guest that was lent to the bench at a place, if there is one. It leaves. The bench is idle.
    pub fn give_back(&mut self, place: usize) -> Option<G>
        requires place { place < length self.old.benches }
        requires idle { (bench_at self.old place).kept.turn ≡ None }
        ensures none { IfNone result ((bench_at self.old place).kept.standing.score ≡ None) }
        ensures guest { IfSome result (λ guest. (bench_at self.old place).kept.standing.score ≡ Some (G.score guest)) }
        ensures numbers { IfSome result (λ guest. (bench_at self.old place).kept.standing.memory.numbers ≡ G.numbers guest) }
        ensures after { self.new ≡ with_bench self.old place (record (bench_at self.old place) { kept = record (bench_at self.old place).kept { standing = record (bench_at self.old place).kept.standing { score = None; memory = record (bench_at self.old place).kept.standing.memory { numbers = []; is_dead = false } } } }) }
    {
        self.benches[place].give_back()
    }
}

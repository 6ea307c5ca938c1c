//! A cycle of the benches of a rack.

ghost use Rattle.std.specs.Prelude.{◌≡◌, ◌<◌, ◌≤◌, ℕ, length, true};
ghost use Rattle.session_model.specs.Activation.{AreLinks, link_at, place_among, sequential};
ghost use Rattle.bench_crew.specs.client_benches.specs.Seen.{has_room_at, kept_after, kept_gives};
ghost use Rattle.bench_rack.specs.Insides.{bench_among};

use crate::racks::Rack;
use bench_crew::client_benches::ClientBench;
use bench_crew::client_kinds::Guest;
use bench_crew::{Ensemble, Load};
use jack_host::Gate;
use jack_types::Link;
use std::thread::Threads;

/// Plays the first benches of a list, as many as the crew has nodes.
fn play_front<G: Guest + Send, T: Threads + Sync, K: Gate>(
    threads: &T,
    gate: &K,
    ensemble: &mut Ensemble<G>,
    links: &[Link],
    load: Load,
    benches: &mut [ClientBench<G>],
)
    requires count { ensemble.old.nodes ≤ length benches.old }
    requires links { AreLinks ensemble.old.nodes links.now × (length links.now ≤ 512) }
    requires rooms { (l : ℕ) → l < length links.now → has_room_at (bench_among benches.old (link_at links.now l).from) (place_among links.now l) ≡ true }
    ensures crew { ensemble.new ≡ ensemble.old }
    ensures count { length benches.new ≡ length benches.old }
    ensures played { (n : ℕ) → n < ensemble.old.nodes → (bench_among benches.new n).kept ≡ sequential (kept_after G.sound) (kept_gives G.sound) links.now (λ n. (bench_among benches.old n).kept) n }
    ensures rooms { (n place : ℕ) → has_room_at (bench_among benches.new n) place ≡ has_room_at (bench_among benches.old n) place }
    ensures others { (n : ℕ) → ensemble.old.nodes ≤ n → bench_among benches.new n ≡ bench_among benches.old n }
{
    let nodes = ensemble.nodes() as usize;
    ensemble.play(threads, gate, links, load, &mut benches[..nodes]);
}

impl<G: Guest + Send> Rack<G> {
    ghost use Rattle.bench_rack.specs.Racks.{bench_at};

    /// Plays the first benches, as many as the crew has nodes, over these links.
    ///
    /// Where the cycle's load is worth it, the crew's seats are shared among as many threads. It takes no memory.
    pub fn play<T: Threads + Sync, K: Gate>(
        &mut self,
        threads: &T,
        gate: &K,
        ensemble: &mut Ensemble<G>,
        links: &[Link],
        load: Load,
    )
        requires count { ensemble.old.nodes ≤ length self.old.benches }
        requires links { AreLinks ensemble.old.nodes links.now × (length links.now ≤ 512) }
        requires rooms { (l : ℕ) → l < length links.now → has_room_at (bench_at self.old (link_at links.now l).from) (place_among links.now l) ≡ true }
        ensures crew { ensemble.new ≡ ensemble.old }
        ensures count { length self.new.benches ≡ length self.old.benches }
        ensures links { self.new.links ≡ self.old.links }
        ensures played { (n : ℕ) → n < ensemble.old.nodes → (bench_at self.new n).kept ≡ sequential (kept_after G.sound) (kept_gives G.sound) links.now (λ n. (bench_at self.old n).kept) n }
        ensures rooms { (n place : ℕ) → has_room_at (bench_at self.new n) place ≡ has_room_at (bench_at self.old n) place }
        ensures others { (n : ℕ) → ensemble.old.nodes ≤ n → bench_at self.new n ≡ bench_at self.old n }
    {
        play_front(threads, gate, ensemble, links, load, &mut self.benches);
    }
}

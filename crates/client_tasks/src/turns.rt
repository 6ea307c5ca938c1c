//! When the clients play, and with how many ports.

ghost use Rattle.std.specs.Prelude.{◌≡◌, ◌≤◌, ◌<◌, ◌+◌, ◌^◌, ℕ, List, [], ℤ, length};
ghost use Rattle.std.specs.Option.{ForSome};
ghost use Rattle.jack_types.specs.declared.ports.Link.{Link as LinkValue};
ghost use Rattle.jack_types.specs.declared.moments.Moment.{Moment as MomentValue};
ghost use Rattle.bench_rack.specs.client_benches.specs.Seen.{MayPlay, cleared, moved_to, rested};
ghost use Rattle.client_wiring.specs.Wirings.{Wired};
ghost use Rattle.bench_rack.specs.Racks.{bench_at, begun, moved};
ghost use Rattle.client_tasks.specs.Steps.{count_out};
ghost use Rattle.client_tasks.specs.Tasks.{AreSet, turn_of as the_turn, widths_at};

use bench_rack::Rack;
use bench_rack::client_benches::Stint;
use bench_rack::client_kinds::{Guest, Shape};
use client_wiring::Wiring;
use jack_types::{Link, Moment};

/// Makes the first benches idle: what they were set to do goes, what they played last stays.
pub fn clear_all<G: Guest>(rack: &mut Rack<G>, count: usize)
    requires { count ≤ length rack.old.benches }
    ensures cleared { (p : ℕ) → p < count → bench_at rack.new p ≡ cleared (bench_at rack.old p) }
    ensures others { (p : ℕ) → count ≤ p → bench_at rack.new p ≡ bench_at rack.old p }
    ensures lengths { length rack.new.benches ≡ length rack.old.benches }
    ensures links { rack.new.links ≡ rack.old.links }
{
    for place in 0..count {
        rack.clear(place);
    }
}

/// Makes all benches idle, and what they played last goes.
pub fn rest_all<G: Guest>(rack: &mut Rack<G>)
    ensures rested { (p : ℕ) → bench_at rack.new p ≡ rested (bench_at rack.old p) }
    ensures lengths { length rack.new.benches ≡ length rack.old.benches }
    ensures links { rack.new.links ≡ rack.old.links }
{
    for place in 0..rack.len() {
        rack.rest(place);
    }
}

/// How many of the first links go out from a node.
pub(crate) fn count_from(links: &[Link], node: usize, first: usize) -> usize
    requires { first ≤ length links.now }
    ensures count { result ≡ count_out links.now node first }
    ensures few { result ≤ first }
{
    let mut count = 0;
    for place in 0..first {
        if links[place].from as usize == node {
            count += 1;
        }
    }
    count
}

/// When the client of a node plays, with how many ports, and how many links go out from the node.
fn turn_of(wiring: &Wiring, links: &[Link], node: usize, moment: &Moment, period: u32) -> Stint
    requires node { node < length wiring.now.widths }
    requires inputs { (widths_at wiring.now node).inputs ≤ 16 }
    requires outputs { (widths_at wiring.now node).outputs ≤ 16 }
    requires links { length links.now < 2 ^ 32 }
    ensures { result ≡ the_turn wiring.now links.now moment.now period node }
{
    let widths = wiring.widths()[node];
    let ports = Shape {
        inputs: widths.inputs as u16,
        outputs: widths.outputs as u16,
        period,
    };
    Stint {
        moment: *moment,
        ports,
        links: count_from(links, node, links.len()) as u32,
    }
}

/// Begins the turn of the client of each node.
pub(crate) fn begin_all<G: Guest>(
    rack: &mut Rack<G>,
    wiring: &Wiring,
    links: &[Link],
    moment: &Moment,
    period: u32,
)
    requires places { length wiring.now.widths ≤ length rack.old.benches }
    requires links { length links.now < 2 ^ 32 }
    requires routes { (n : ℕ) → n < length wiring.now.widths → (bench_at rack.old n).kept.routes ≡ [] }
    requires turns { (n : ℕ) → n < length wiring.now.widths → MayPlay (bench_at rack.old n).kept.standing (the_turn wiring.now links.now moment.now period n) }
    ensures begun { (n : ℕ) → n < length wiring.now.widths → bench_at rack.new n ≡ begun (the_turn wiring.now links.now moment.now period n) (bench_at rack.old n) }
    ensures others { (p : ℕ) → length wiring.now.widths ≤ p → bench_at rack.new p ≡ bench_at rack.old p }
    ensures lengths { length rack.new.benches ≡ length rack.old.benches }
    ensures links { rack.new.links ≡ rack.old.links }
{
    for node in 0..wiring.widths().len() {
        let turn = turn_of(wiring, links, node, moment, period);
        rack.begin(node, &turn);
    }
}

/// Sets the moment and the period of the next cycle of the first benches.
pub fn move_all<G: Guest>(rack: &mut Rack<G>, count: usize, moment: &Moment, period: u32)
    requires count { count ≤ length rack.old.benches }
    requires turns { (n : ℕ) → n < count → ForSome (bench_at rack.old n).kept.turn (λ turn. MayPlay (bench_at rack.old n).kept.standing (moved_to moment.now period turn)) }
    ensures moved { (n : ℕ) → n < count → bench_at rack.new n ≡ moved moment.now period (bench_at rack.old n) }
    ensures set { (wiring : Wired) (links : List LinkValue) (before : MomentValue) (frames : ℕ) (sources : ℕ → List ℤ) → AreSet wiring links before frames sources count rack.old → AreSet wiring links moment.now period sources count rack.new }
    ensures others { (p : ℕ) → count ≤ p → bench_at rack.new p ≡ bench_at rack.old p }
    ensures lengths { length rack.new.benches ≡ length rack.old.benches }
    ensures links { rack.new.links ≡ rack.old.links }
{
    for place in 0..count {
        rack.set_moment(place, moment, period);
    }
}

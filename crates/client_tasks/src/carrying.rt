//! What the clients' links carry.

ghost use Rattle.std.specs.Prelude.{◌≡◌, ◌≤◌, ◌<◌, ℕ, All, None, [], length, replicate};
ghost use Rattle.jack_types.specs.declared.ports.Link.{Link as LinkValue};
ghost use Rattle.client_wiring.specs.declared.joints.Carried.{Carried as CarriedValue};
ghost use Rattle.bench_rack.specs.Racks.{bench_at, with_bench};
ghost use Rattle.client_tasks.specs.Steps.{IsNarrow, IsOutput, count_out, routed, with_routes};
ghost use Rattle.client_tasks.specs.Tasks.{HasRooms, audio_of, routes_of};

use crate::turns::count_from;
use bench_rack::Rack;
use bench_rack::client_kinds::Guest;
use client_wiring::{Carried, Output};
use jack_types::Link;

/// The audio output, if it is one. A MIDI output carries no audio.
fn audio_output(output: Output) -> Option<u16>
    requires { IsNarrow output }
    ensures { result ≡ audio_of output }
{
    match output {
        Output::Audio(output) => Some(output as u16),
        Output::Midi(_) => None,
    }
}

/// Adds the route of an output.
fn carry<G: Guest>(rack: &mut Rack<G>, one: Carried)
    requires node { one.node < length rack.old.benches }
    requires output { IsOutput rack.old one }
    requires few { length (bench_at rack.old one.node).kept.routes < 512 }
    ensures { rack.new ≡ with_bench rack.old one.node (routed one (bench_at rack.old one.node)) }
{
    rack.carry(one.node, one.place as u32, audio_output(one.output));
}

/// Adds the routes of all connections that links carry, in the order of making, to benches that have none.
pub(crate) fn carry_all<G: Guest>(rack: &mut Rack<G>, carried: &[Carried])
    requires nodes { All (λ (one : CarriedValue). one.node < length rack.old.benches) carried.now }
    requires outputs { All (IsOutput rack.old) carried.now }
    requires few { length carried.now ≤ 512 }
    requires none { (p : ℕ) → (bench_at rack.old p).kept.routes ≡ [] }
    ensures routes { (p : ℕ) → bench_at rack.new p ≡ with_routes (routes_of carried.now p) (bench_at rack.old p) }
    ensures lengths { length rack.new.benches ≡ length rack.old.benches }
    ensures links { rack.new.links ≡ rack.old.links }
{
    for place in 0..carried.len() {
        carry(rack, carried[place]);
    }
}

/// Gives benches that have no room one at each place of an outgoing link.
pub(crate) fn link_all<G: Guest>(rack: &mut Rack<G>, links: &[Link])
    requires nodes { All (λ (link : LinkValue). link.from < length rack.old.benches) links.now }
    requires few { (n k : ℕ) → k ≤ length links.now → count_out links.now n k ≤ 64 }
    requires links { length links.now ≤ rack.old.links }
    requires none { (p : ℕ) → (bench_at rack.old p).rooms ≡ replicate 64 None }
    ensures rooms { HasRooms links.now rack.new }
    ensures kept { (p : ℕ) → (bench_at rack.new p).kept ≡ (bench_at rack.old p).kept }
    ensures others { (count p : ℕ) → All (λ (link : LinkValue). link.from < count) links.now → count ≤ p → bench_at rack.new p ≡ bench_at rack.old p }
    ensures lengths { length rack.new.benches ≡ length rack.old.benches }
    ensures links { rack.new.links ≡ rack.old.links }
{
    for place in 0..links.len() {
        let node = links[place].from as usize;
        rack.link(node, count_from(links, node, place) as u32);
    }
}

//! A cycle by one seat: each node is played behind its sources, since links go upward.
ghost use Rattle.std.specs.Prelude.{◌≡◌, ◌≤◌, ◌<◌, ℕ, true, false, [], length, map, Some, All, IsSome, slice_index_or, vec_capacity};
ghost use Rattle.session_model.specs.Activation.{link_at, place_among};
ghost use Rattle.client_benches.specs.activation.specs.Rounds.{AreReturned};
ghost use Rattle.steal_workers.specs.cycle_workers.specs.Runs.{HaveRoom};
ghost use Rattle.bench_crew.specs.Turns.{IsRow, IsApart, ShowRoom, AreLike, IsTurn};

use crate::sources::Sources;
use client_benches::activation::Work;
use jack_host::Gate;

/// Hands out the values of these links, in their order.
fn take_values<B: Work>(
    sources: &Sources,
    which: &[u32],
    benches: &mut [B],
    given: &mut Vec<Option<B::Value>>,
)
    requires row { (length benches.old ≡ sources.now.nodes) × IsRow sources.now.links.items which.now }
    requires room { ShowRoom B.has_room true sources.now.links.items which.now 0 (length which.now) benches.old }
    requires given { (given.old.items ≡ []) × (512 ≤ vec_capacity given.old) }
    ensures benches { AreLike B.memory B.has_room B.value_at (IsApart sources.now.links.items which.now 0 (length which.now)) benches.old benches.new }
    ensures room { ShowRoom B.has_room false sources.now.links.items which.now 0 (length which.now) benches.new }
    ensures given { (d : B) → given.new.items ≡ map (λ l. Some (B.value_at (slice_index_or benches.old (link_at sources.now.links.items l).from d) (place_among sources.now.links.items l))) which.now }
    ensures capacity { vec_capacity given.new ≡ vec_capacity given.old }
{
    for position in which {
        let (source, place) = sources.origin(*position);
        given.push_reserved(Some(benches[source].hand(place)));
    }
}

/// Gives the values of these links back to the benches that handed them.
fn return_values<B: Work>(
    sources: &Sources,
    which: &[u32],
    benches: &mut [B],
    given: &mut Vec<Option<B::Value>>,
)
    requires row { (length benches.old ≡ sources.now.nodes) × IsRow sources.now.links.items which.now }
    requires room { ShowRoom B.has_room false sources.now.links.items which.now 0 (length which.now) benches.old }
    requires given { All (λ value. IsSome value) given.old.items × (length given.old.items ≡ length which.now) }
    ensures benches { AreLike B.memory B.has_room B.value_at (IsApart sources.now.links.items which.now 0 (length which.now)) benches.old benches.new }
    ensures room { ShowRoom B.has_room true sources.now.links.items which.now 0 (length which.now) benches.new }
    ensures given { (given.new.items ≡ []) × (vec_capacity given.new ≡ vec_capacity given.old) }
{
    while let Some(taken) = given.pop() {
        let Some(value) = taken else { unreachable!() };
        let (source, place) = sources.origin(which[given.len()]);
        benches[source].back(place, value);
    }
}

/// Plays the node on what its sources hand it, and gives them the room for it back.
fn play_node<B: Work>(
    sources: &Sources,
    node: u32,
    benches: &mut [B],
    given: &mut Vec<Option<B::Value>>,
)
    requires node { node < sources.now.nodes }
    requires benches { (length benches.old ≡ sources.now.nodes) × HaveRoom B.has_room sources.now.links.items benches.old }
    requires given { (given.old.items ≡ []) × (512 ≤ vec_capacity given.old) }
    ensures turn { IsTurn B.memory B.has_room B.value_at B.after B.gives sources.now.links.items node benches.old benches.new }
    ensures given { (given.new.items ≡ []) × (vec_capacity given.new ≡ vec_capacity given.old) }
{
    let which = sources.into(node);
    take_values(sources, which, benches, given);
    benches[node as usize].play(given.as_slice());
    return_values(sources, which, benches, given);
}

/// Plays these benches, one a node, in the order of the nodes. It takes no memory.
pub(crate) fn play_in_order<B: Work, G: Gate>(
    gate: &G,
    sources: &Sources,
    benches: &mut [B],
    given: &mut Vec<Option<B::Value>>,
)
    requires benches { (length benches.old ≡ sources.now.nodes) × HaveRoom B.has_room sources.now.links.items benches.old }
    requires given { (given.old.items ≡ []) × (512 ≤ vec_capacity given.old) }
    ensures played { AreReturned B.memory B.has_room B.after B.gives sources.now.links.items benches.old benches.new }
    ensures given { (given.new.items ≡ []) × (vec_capacity given.new ≡ vec_capacity given.old) }
{
    for node in 0..sources.nodes() {
        gate.before_client(0, node);
        play_node(sources, node, benches, given);
    }
}

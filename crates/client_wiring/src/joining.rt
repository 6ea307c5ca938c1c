//! Where connections bring their audio.

ghost use Rattle.std.specs.Prelude.{◌≡◌, ◌≤◌, length};
ghost use Rattle.std.specs.Vec.{vec_capacity};
ghost use Rattle.client_wiring.specs.Ends.{carried_from, heard_from, joint_from, origin_by, output_at, sound_at};
ghost use Rattle.client_wiring.specs.Tables.{AreIndices, ArePlaces};
ghost use Rattle.client_wiring.specs.Wirings.{wired_of};

use crate::adding::put_some;
use crate::ends::{End, end_at};
use crate::joints::{Carried, Heard, Joint, Origin, Output, Sound};
use crate::links::{count_over, first_link, place_into, place_out_of};
use crate::tables::Tables;
use cycle_plan::Plan;
use jack_types::{Link, Mark, PortKind};

/// The output that a port is.
fn output_of(source: &End) -> Output
    ensures { result ≡ output_at source.now }
{
    match source.kind {
        PortKind::Audio => Output::Audio(source.place),
        PortKind::Midi => Output::Midi(source.place),
    }
}

/// What a link carries of an edge, if one does.
fn carried_of(links: &[Link], mark: Mark, source: &End, destination: &End) -> Option<Carried>
    ensures { result ≡ carried_from links.now mark source.now destination.now }
{
    match (mark, source.node, destination.node) {
        (Mark::Direct, Some(from), Some(to)) => Some(Carried {
            node: from,
            place: place_out_of(links, from, to),
            link: first_link(links, from, to),
            output: output_of(source),
        }),
        _ => None,
    }
}

/// Where an edge into this node has its audio from, behind the connections that links carry so far.
fn origin_of(links: &[Link], mark: Mark, source: &End, node: usize, carried: &[Carried]) -> Origin
    ensures { result ≡ origin_by links.now mark source.now node carried.now }
{
    match (source.node, mark) {
        (Some(from), Mark::Direct) => Origin::Handed {
            link: place_into(links, from, node),
            connection: count_over(carried, first_link(links, from, node)),
        },
        (Some(from), Mark::Feedback) => Origin::Kept {
            node: from,
            output: source.place,
            birth: source.birth,
        },
        (None, _) => Origin::Captured {
            channel: source.place,
        },
    }
}

/// The connection into an audio input of a node that an edge is, if it is one.
fn joint_of(
    links: &[Link],
    mark: Mark,
    source: &End,
    destination: &End,
    carried: &[Carried],
) -> Option<Joint>
    ensures { result ≡ joint_from links.now mark source.now destination.now carried.now }
{
    match (destination.kind, destination.node) {
        (PortKind::Audio, Some(node)) => Some(Joint {
            node,
            input: destination.place,
            origin: origin_of(links, mark, source, node, carried),
        }),
        _ => None,
    }
}

/// Where a playback port has audio from that comes from this end.
fn sound_of(source: &End) -> Sound
    ensures { result ≡ sound_at source.now }
{
    let place = source.place;
    match source.node {
        Some(node) => Sound::Played {
            node,
            output: place,
        },
        None => Sound::Captured { channel: place },
    }
}

/// The connection into a playback port that an edge is, if it is one: what goes into no node goes into the device.
fn heard_of(source: &End, destination: &End) -> Option<Heard>
    ensures { result ≡ heard_from source.now destination.now }
{
    match (destination.kind, destination.node) {
        (PortKind::Audio, None) => Some(Heard {
            channel: destination.place,
            sound: sound_of(source),
        }),
        _ => None,
    }
}

/// Makes anew what links carry, where connections bring their audio, and what is played back.
pub(crate) fn join_edges(
    joints: &mut Vec<Joint>,
    carried: &mut Vec<Carried>,
    heard: &mut Vec<Heard>,
    plan: &Plan,
    tables: &Tables,
)
    requires joint_room { 512 ≤ vec_capacity joints.old }
    requires carried_room { 512 ≤ vec_capacity carried.old }
    requires heard_room { 512 ≤ vec_capacity heard.old }
    requires indices { AreIndices plan.now.network.held.ports tables.now.indices }
    requires places { ArePlaces plan.now.network.held.ports tables.now.places }
    ensures joints { joints.new.items ≡ (wired_of plan.now).joints }
    ensures carried { carried.new.items ≡ (wired_of plan.now).carried }
    ensures heard { heard.new.items ≡ (wired_of plan.now).heard }
    ensures few_heard { length heard.new.items ≤ 512 }
    ensures joint_room { vec_capacity joints.old ≤ vec_capacity joints.new }
    ensures carried_room { vec_capacity carried.old ≤ vec_capacity carried.new }
    ensures heard_room { vec_capacity heard.old ≤ vec_capacity heard.new }
{
    joints.clear();
    carried.clear();
    heard.clear();
    let (ports, nodes, links) = (plan.ports(), plan.nodes(), plan.links());
    for edge in plan.edges() {
        let source = end_at(ports, tables, nodes, edge.source);
        let destination = end_at(ports, tables, nodes, edge.destination);
        let joint = joint_of(links, edge.mark, &source, &destination, carried);
        put_some(joints, joint);
        let connection = carried_of(links, edge.mark, &source, &destination);
        put_some(carried, connection);
        let playback = heard_of(&source, &destination);
        put_some(heard, playback);
    }
}

//! How the blocks of a cycle are put.

ghost use Rattle.std.specs.Prelude.{true};
ghost use Rattle.port_registry.specs.Registered.{open_clients};
ghost use Rattle.recorder_rings.specs.Sending.{channels_at};
ghost use Rattle.cycle_blocks.specs.Blocks.{MaySend, Sends, block_by, heard_at, is_taped};
ghost use Rattle.cycle_blocks.specs.Steps.{MaySendOne, SendsOne};

use crate::finding::tape_place;
use crate::laying::lay_block;
use bench_rack::Rack;
use client_kinds::Guest;
use jack_types::Client;
use recorder_rings::RecorderRings;

/// Puts what the client of a node heard into the ring of a recorder.
fn send_from<G: Guest>(
    rings: &mut RecorderRings,
    rack: &Rack<G>,
    place: usize,
    recorder: u8,
    cycle: u32,
    period: u32,
)
    requires { MaySendOne rings.old period recorder }
    ensures { SendsOne true (heard_at rack.now period (channels_at rings.old recorder) place) cycle recorder rings.old rings.new }
{
    lay_block(rings, rack, place, recorder, period);
    rings.put(recorder, cycle);
}

/// Puts the block of a recorder into its ring, if a client of these nodes records on it.
fn send_block<G: Guest>(
    rings: &mut RecorderRings,
    rack: &Rack<G>,
    nodes: &[Client],
    recorder: u8,
    cycle: u32,
    period: u32,
)
    requires { MaySendOne rings.old period recorder }
    ensures { SendsOne (is_taped (open_clients nodes.now) recorder) (block_by rack.now (open_clients nodes.now) period (channels_at rings.old recorder) recorder) cycle recorder rings.old rings.new }
{
    match tape_place(nodes, recorder) {
        Some(place) => send_from(rings, rack, place, recorder, cycle, period),
        None => {}
    }
}

/// Puts the block of each recorder whose client is among these nodes into its ring, as that of a cycle: what that
/// client's inputs got when its node's bench was last played. Where a ring is full, an overrun is added.
///
/// It takes no memory.
pub fn send_blocks<G: Guest>(
    rings: &mut RecorderRings,
    rack: &Rack<G>,
    nodes: &[Client],
    cycle: u32,
    period: u32,
)
    requires { MaySend rings.old period }
    ensures { Sends rack.now (open_clients nodes.now) cycle period rings.old rings.new }
{
    let count = rings.len() as u8;
    for recorder in 0..count {
        send_block(rings, rack, nodes, recorder, cycle, period);
    }
}

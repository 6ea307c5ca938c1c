//! What goes along a link.

ghost use Rattle.std.specs.Prelude.{◌≡◌, ◌*◌, ◌<◌, ◌≤◌, All, IfOk, [], length, map, slice_index_or, vec_capacity};
ghost use Rattle.activation.specs.session_model.specs.Benches.{no_signal};
ghost use Rattle.client_kinds.specs.Buffers.{buffers_of};
ghost use Rattle.client_benches.specs.Routes.{carried_by, HasOutput};

use crate::filling::copy_routes;
use crate::{MOST_CONNECTIONS, MOST_FRAMES, MOST_PORTS};
use activation::jack_types::Memory;
use client_kinds::Shape;
use std::alloc::{AllocError, Global};
use std::marker::Model;

/// A connection over an outgoing link, which carries one of its client's outputs, or no audio at all.
/// Outputs and links are counted from 0.
#[derive(Clone, Copy, PartialEq, Eq, Debug, Drop)]
pub struct Route {
    pub link: u32,
    pub output: Option<u16>,
}

/// What goes along a link: for each of its connections, in the order of making, a period of one of its
/// source's outputs, or nothing.
///
/// There is room for sixteen outputs of 4,096 frames and for 512 connections, so that any rooms do for
/// any link; of it no more is touched than was needed so far. An output that several connections carry
/// lies there once. Contracts see a signal per connection.
#[derive(Drop)]
pub struct Rooms {
    load: Box<Load>,
}

/// The load of a link. It lies in one place, since a crew hands it from bench to bench in each cycle.
#[derive(Drop)]
struct Load {
    outputs: Vec<i32>,
    frames: usize,
    carried: Vec<Option<u16>>,
}

impl Model for Rooms {
    ghost use Rattle.std.specs.Prelude.{List};
    ghost use Rattle.activation.specs.session_model.specs.Benches.{Signal};

    ghost Value = { List Signal };

    ghost use Rattle.client_benches.specs.Rooms.{signals_in, AreRooms};

    ghost view = { λ r. signals_in r.load.value };

    ghost invariant = { λ r. AreRooms r.load.value };
}

/// The room of a link.
fn make_rooms(alloc: Global) -> Result<Rooms, AllocError>
    ensures { IfOk result (λ rooms. rooms ≡ []) }
{
    let outputs = Vec::with_capacity(alloc, MOST_PORTS * MOST_FRAMES)?;
    let carried = Vec::with_capacity(alloc, MOST_CONNECTIONS)?;
    let load = Box::new(
        alloc,
        Load {
            outputs,
            frames: 0,
            carried,
        },
    )?;
    Ok(Rooms { load })
}

/// Makes the samples no fewer than this, within their room.
pub(crate) fn lengthen(samples: &mut Vec<i32>, least: usize)
    requires { least ≤ vec_capacity samples.old }
    ensures least { least ≤ length samples.new.items }
    ensures capacity { vec_capacity samples.new ≡ vec_capacity samples.old }
{
    for place in samples.len()..least {
        samples.push_reserved(0);
    }
}

impl Rooms {
    /// Room for a link, with no connection.
    pub fn new(alloc: Global) -> Result<Rooms, Memory>
        ensures { IfOk result (λ rooms. rooms ≡ []) }
    {
        match make_rooms(alloc) {
            Ok(rooms) => Ok(rooms),
            Err(_) => Err(Memory),
        }
    }

    /// The samples that a connection carries, none where it carries no audio or there is no such connection.
    pub fn audio(&self, connection: usize) -> &[i32]
        ensures { result.now ≡ (slice_index_or self.now connection no_signal).audio }
    {
        let load = &*self.load;
        match load.carried.get(connection) {
            Some(Some(output)) => {
                let first = usize::from(*output) * load.frames;
                &load.outputs[first..first + load.frames]
            }
            _ => &[],
        }
    }

    /// Copies what the connections of a link carry, from the planar outputs of its source.
    pub(crate) fn fill(&mut self, routes: &[Route], link: u32, ports: Shape, outputs: &[i32])
        requires few { length routes.now ≤ 512 }
        requires routes { All (HasOutput ports.outputs) routes.now }
        requires ports { ports.outputs ≤ 16 }
        requires frames { ports.period ≤ 4096 }
        requires outputs { ports.outputs * ports.period ≤ length outputs.now }
        ensures { self.new ≡ carried_by ports.period (buffers_of ports.outputs ports.period outputs.now) link routes.now }
    {
        let load = &mut *self.load;
        load.frames = ports.period as usize;
        lengthen(&mut load.outputs, usize::from(ports.outputs) * load.frames);
        copy_routes(
            &mut load.carried,
            &mut load.outputs,
            routes,
            link,
            ports,
            outputs,
        );
    }

    /// Takes all connections off.
    pub(crate) fn clear(&mut self)
        ensures { self.new ≡ [] }
    {
        self.load.carried.clear();
    }
}

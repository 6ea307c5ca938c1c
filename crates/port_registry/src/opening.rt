//! The registry before any client opens: `system`, with its ports.

ghost use Rattle.std.specs.Prelude.{◌≡◌, ◌≤◌, ◌<◌, ◌+◌, ◌++◌, ◌∷◌, [], codes, decimal, length, map, IfOk, OnOk};
ghost use Rattle.session_laws.specs.session_model.specs.Samples.{below};
ghost use Rattle.session_laws.specs.session_model.specs.State.{opening};
ghost use Rattle.port_registry.specs.Kept.{AreFree, IsListed};
ghost use Rattle.port_registry.specs.Registered.{IsRegistered, state_of, system_entry, system_port, system_ports, unlisted};

use crate::registries::Registry;
use crate::tables::PortTable;
use arrayvec::ArrayVec;
use session_laws::jack_types::{
    Client, ClientId, ClientName, Kind, Memory, Node, Port, PortFlags, PortId, PortKind, PortName,
    Way,
};
use std::alloc::Global;

/// The name of the device's port that gives what this channel captures.
fn capture_name(channel: u16) -> PortName
    requires { channel < 8 }
    ensures { result ≡ codes "system:capture_" ++ decimal (channel + 1) }
{
    let mut bytes = *b"system:capture_1";
    bytes[15] = b'1' + channel as u8;
    match PortName::from_bytes(&bytes) {
        Ok(name) => name,
        Err(_) => unreachable!(),
    }
}

/// The name of the device's port that takes what this channel plays back.
fn playback_name(channel: u16) -> PortName
    requires { channel < 8 }
    ensures { result ≡ codes "system:playback_" ++ decimal (channel + 1) }
{
    let mut bytes = *b"system:playback_1";
    bytes[16] = b'1' + channel as u8;
    match PortName::from_bytes(&bytes) {
        Ok(name) => name,
        Err(_) => unreachable!(),
    }
}

/// The device's port of this channel and direction, without its id.
fn device_port(way: Way, channel: u16) -> Port
    requires { channel < 8 }
    ensures { result ≡ system_port way channel }
{
    let (name, node, flags) = match way {
        Way::Out => (capture_name(channel), Node::Capture, PortFlags::capture()),
        Way::In => (
            playback_name(channel),
            Node::Playback,
            PortFlags::playback(),
        ),
    };
    Port {
        id: PortId(0),
        name,
        birth: 0,
        node,
        flags,
        kind: PortKind::Audio,
        active: true,
    }
}

/// Registers so many of the device's ports of a direction.
fn add_device_ports(
    table: &mut PortTable,
    list: &mut ArrayVec<u16, 32>,
    way: Way,
    channels: u16,
) -> Result<(), Memory>
    requires few { channels ≤ 8 }
    requires room { length table.old.ports ≤ 8 }
    requires listed { IsListed table.old.ports list.old.items }
    ensures ports { OnOk result (map unlisted table.new.ports ≡ map unlisted table.old.ports ++ map (system_port way) (below channels)) }
    ensures long { OnOk result (length table.new.ports ≡ length table.old.ports + channels) }
    ensures listed { OnOk result (IsListed table.new.ports list.new.items) }
{
    for channel in 0..channels {
        let id = table.add(device_port(way, channel))?;
        list.push(id.0);
    }
    Ok(())
}

/// The client that is always open.
fn system_client() -> Client
    ensures { result ≡ system_entry }
{
    match ClientName::from_bytes(b"system") {
        Ok(name) => Client {
            id: ClientId(0),
            name,
            birth: 0,
            kind: Kind::Pass,
            active: true,
            slow: 0,
        },
        Err(_) => unreachable!(),
    }
}

/// The numbers of the ids that clients besides `system` may have.
fn free_ids() -> ArrayVec<u16, 64>
    ensures { AreFree result.items (system_entry ∷ []) }
{
    let mut free = ArrayVec::new();
    for id in 1..65 {
        free.push(id);
    }
    free
}

impl Registry {
    /// `system` alone, with a port for each channel of the device: first those that capture, then those that play back.
    pub fn new(alloc: Global, capture: u16, playback: u16) -> Result<Registry, Memory>
        requires capture { capture ≤ 8 }
        requires playback { playback ≤ 8 }
        ensures opening { IfOk result (λ registry. state_of registry ≡ opening capture playback) }
        ensures clients { IfOk result (λ registry. registry.clients ≡ system_entry ∷ []) }
        ensures ports { IfOk result (λ registry. map unlisted registry.ports ≡ system_ports capture playback) }
        ensures registered { IfOk result (λ registry. IsRegistered registry) }
    {
        let mut table = PortTable::new(alloc)?;
        let mut list = ArrayVec::new();
        add_device_ports(&mut table, &mut list, Way::Out, capture)?;
        add_device_ports(&mut table, &mut list, Way::In, playback)?;
        let clients = alone(alloc, system_client())?;
        let lists = alone(alloc, list)?;
        Ok(Registry {
            clients,
            lists,
            table,
            free: free_ids(),
            client_room: 0,
            port_room: 0,
        })
    }
}

/// A list of one item.
fn alone<T: Drop>(alloc: Global, item: T) -> Result<Vec<T>, Memory>
    ensures { IfOk result (λ items. items.items ≡ item ∷ []) }
{
    let mut items = Vec::new(alloc);
    match items.push(item) {
        Ok(()) => Ok(items),
        Err(_) => Err(Memory),
    }
}

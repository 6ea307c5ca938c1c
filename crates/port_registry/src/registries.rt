//! The registry itself: what it keeps, its room, and what it tells.

ghost use Rattle.std.specs.Prelude.{◌≡◌, ◌≤◌, position, vec_capacity, OnOk, OnErr};
ghost use Rattle.port_registry.specs.Registered.{client_by, port_by, has_name, IsRegistered};

use crate::tables::{PortIter, PortTable};
use arrayvec::ArrayVec;
use session_laws::jack_types::{Client, ClientName, Memory, Port, PortId, PortName};
use std::marker::Model;

/// The open clients, in order of opening, and their ports, in order of birth.
/// Contracts see both lists, and for how many of each there is room.
#[derive(Drop)]
pub struct Registry {
    pub(crate) clients: Vec<Client>,
    // Of each client the numbers of its ports' ids, in order of birth.
    pub(crate) lists: Vec<ArrayVec<u16, 32>>,
    pub(crate) table: PortTable,
    // The numbers of the ids that no client has.
    pub(crate) free: ArrayVec<u16, 64>,
    pub(crate) client_room: usize,
    pub(crate) port_room: usize,
}

impl Model for Registry {
    ghost use Rattle.std.specs.Prelude.{vec_capacity};
    ghost use Rattle.port_registry.specs.Registered.{Registered};

    ghost Value = { Registered };

    ghost use Rattle.port_registry.specs.Kept.{IsKept};

    ghost view = { λ r. record { clients = r.clients.items; ports = r.table.ports; client_room = r.client_room; port_room = r.port_room } };

    ghost invariant = { λ r. IsKept (record { clients = r.clients.items; ports = r.table.ports; client_room = r.client_room; port_room = r.port_room })
        r.lists.items r.free.items (vec_capacity r.clients) (vec_capacity r.lists) r.table.room };
}

/// Makes room for so many items in all.
fn widen<T>(items: &mut Vec<T>, room: usize) -> Result<(), Memory>
    ensures items { items.new.items ≡ items.old.items }
    ensures room { OnOk result (room ≤ vec_capacity items.new) }
    ensures more { vec_capacity items.old ≤ vec_capacity items.new }
{
    let more = room.saturating_sub(items.len());
    items.reserve(more).map_err(|_| Memory)
}

/// Where the client of this name stands.
fn place_in(clients: &[Client], name: &ClientName) -> Option<usize>
    ensures { result ≡ position (has_name name.now) clients.now }
{
    clients
        .iter()
        .position(|client| client.name.text() == name.text())
}

impl Registry {
    /// Makes room for so many clients and ports in all. There are at most 2,064 ports: 32 of each of 64 clients,
    /// and 16 of `system`.
    pub fn reserve(&mut self, clients: u32, ports: u32) -> Result<(), Memory>
        requires most_ports { ports ≤ 2064 }
        ensures clients { self.new.clients ≡ self.old.clients }
        ensures ports { self.new.ports ≡ self.old.ports }
        ensures client_room { OnOk result (clients ≤ self.new.client_room) }
        ensures port_room { OnOk result (ports ≤ self.new.port_room) }
        ensures more_clients { self.old.client_room ≤ self.new.client_room }
        ensures more_ports { self.old.port_room ≤ self.new.port_room }
        ensures same { OnErr result (self.new ≡ self.old) }
        ensures registered { IsRegistered self.new }
    {
        let clients = clients as usize;
        let ports = ports as usize;
        widen(&mut self.clients, clients)?;
        widen(&mut self.lists, clients)?;
        self.table.reserve(ports)?;
        self.client_room = self.client_room.max(clients);
        self.port_room = self.port_room.max(ports);
        Ok(())
    }

    /// Where the client of this name stands.
    pub(crate) fn place(&self, name: &ClientName) -> Option<usize>
        ensures value { result ≡ position (has_name name.now) self.now.clients }
        ensures registered { IsRegistered self.now }
    {
        place_in(&self.clients, name)
    }

    /// The client of this name. `system` is always open: its id and its birth are 0.
    pub fn client(&self, name: &ClientName) -> Option<Client>
        ensures { result ≡ client_by self.now name.now }
    {
        match self.place(name) {
            Some(place) => Some(self.clients[place]),
            None => None,
        }
    }

    /// The port of this name.
    pub fn port(&self, name: &PortName) -> Option<Port>
        ensures { result ≡ port_by self.now name.now }
    {
        let place = self.place(&name.client())?;
        let ids = self.lists[place].as_slice();
        let found = self.table.find(ids, name)?;
        let id = ids[found];
        self.table.get(PortId(id)).copied()
    }

    /// The open clients, in order of opening.
    pub fn clients(&self) -> &[Client]
        ensures value { result.now ≡ self.now.clients }
        ensures registered { IsRegistered self.now }
    {
        &self.clients
    }

    /// The ports, in order of birth: those of `system` first, capture before playback.
    pub fn ports(&self) -> PortIter<'_>
        ensures value { result ≡ self.now.ports }
        ensures registered { IsRegistered self.now }
    {
        self.table.iter()
    }
}

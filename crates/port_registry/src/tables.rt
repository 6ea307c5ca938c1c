//! Ports in order of birth, each under an id that it keeps.

ghost use Rattle.std.specs.Prelude.{◌≡◌, ◌≤◌, ◌<◌, [], ◌∷◌, ◌++◌, count_by, fold, length, position, slice_get, IfOk, OnOk, OnErr, IsOk, IsSome, ℕ, option_copied};
ghost use Rattle.session_laws.specs.jack_types.specs.declared.ports.Port.{Port as PortValue};
ghost use Rattle.session_laws.specs.session_model.specs.Ids.{port_with, way_of as way_of_port};
ghost use Rattle.session_laws.specs.session_model.specs.Soundness.{Apart};
ghost use Rattle.port_registry.specs.Listings.{bears, bears_name, has_way, without_id, without_number, with_id_active, with_number_active};
ghost use Rattle.slab.specs.Slab.{get, slab_len, ContainsKey, Updates};

use bitflags::Flags;
use session_laws::jack_types::{Memory, Port, PortId, PortName, Way};
use slab::Slab;
use std::alloc::Global;
use std::marker::Model;

/// How many ports there may be: 32 of each of 64 clients, and 16 of `system`.
pub(crate) const PORTS: usize = 2064;

/// Ports in order of birth, each under an id that no other has.
/// Contracts see the list of the ports, and how many may stand there without asking for memory.
#[derive(Drop)]
pub(crate) struct PortTable {
    listed: Vec<Port>,
    // Under each id the place of its port.
    places: Slab<usize>,
}

impl Model for PortTable {
    ghost use Rattle.std.specs.Prelude.{vec_capacity};
    ghost use Rattle.port_registry.specs.Listings.{Listing, IsTable};

    ghost Value = { Listing };

    ghost view = { λ t. record { ports = t.listed.items; room = vec_capacity t.listed } };

    ghost invariant = { λ t. IsTable t.listed.items t.places };
}

impl PortTable {
    /// A table with no port.
    pub(crate) fn new(alloc: Global) -> Result<PortTable, Memory>
        ensures ports { IfOk result (λ table. table.ports ≡ []) }
    {
        let places = Slab::with_capacity(alloc, PORTS).map_err(|_| Memory)?;
        if places.capacity() > PORTS {
            return Err(Memory);
        }
        let listed = Vec::new(alloc);
        Ok(PortTable { listed, places })
    }

    /// Makes room for so many ports in all.
    pub(crate) fn reserve(&mut self, room: usize) -> Result<(), Memory>
        ensures ports { self.new.ports ≡ self.old.ports }
        ensures room { OnOk result (room ≤ self.new.room) }
        ensures more { self.old.room ≤ self.new.room }
    {
        if room <= self.listed.len() {
            return Ok(());
        }
        let more = room - self.listed.len();
        self.listed.reserve(more).map_err(|_| Memory)
    }

    /// Where the port of this id stands.
    pub(crate) fn place(&self, id: PortId) -> Option<usize>
        ensures { result ≡ position (bears id) self.now.ports }
    {
        let place = *self.places.get(id.0 as usize)?;
        if self.listed.get(place)?.id == id {
            Some(place)
        } else {
            None
        }
    }

    /// The port of this id.
    pub(crate) fn get(&self, id: PortId) -> Option<&Port>
        ensures { option_copied result ≡ port_with self.now.ports id }
    {
        self.listed.get(self.place(id)?)
    }

    /// Puts a port last, and tells the id that it gets in place of its own.
    pub(crate) fn add(&mut self, port: Port) -> Result<PortId, Memory>
        ensures added { IfOk result (λ id. self.new.ports ≡ self.old.ports ++ record port { id = id } ∷ []) }
        ensures apart { Apart (λ (other : PortValue). other.id.0) self.new.ports }
        ensures below { IfOk result (λ id. id.0 < 2064) }
        ensures kept { OnErr result (self.new.ports ≡ self.old.ports) }
        ensures room { self.old.room ≤ self.new.room }
        ensures succeeds { length self.old.ports < self.old.room → length self.old.ports < 2064 → IsOk result }
    {
        let place = self.listed.len();
        if place >= PORTS {
            return Err(Memory);
        }
        self.listed.reserve(1).map_err(|_| Memory)?;
        let key = self.places.insert_reserved(place);
        let id = PortId(key as u16);
        match self.listed.push(Port { id, ..port }) {
            Ok(()) => Ok(id),
            Err(_) => unreachable!(),
        }
    }

    /// Which of these ids is the first of a port of this name.
    pub(crate) fn find(&self, ids: &[u16], name: &PortName) -> Option<usize>
        ensures { result ≡ position (bears_name self.now.ports name.now) ids.now }
    {
        ids.iter().position(|id| self.is_named(*id, name))
    }

    /// Whether the port of this id has the name.
    fn is_named(&self, id: u16, name: &PortName) -> bool
        ensures { result ≡ bears_name self.now.ports name.now id }
    {
        match self.get(PortId(id)) {
            Some(port) => port.name.text() == name.text(),
            None => false,
        }
    }

    /// How many of these ids are of ports of this direction.
    pub(crate) fn count(&self, ids: &[u16], way: Way) -> usize
        ensures { result ≡ count_by (has_way self.now.ports way) ids.now }
    {
        let mut count = 0;
        for id in ids {
            if self.goes(*id, way) {
                count += 1;
            }
        }
        count
    }

    /// Whether the port of this id has the direction.
    fn goes(&self, id: u16, way: Way) -> bool
        ensures { result ≡ has_way self.now.ports way id }
    {
        match self.get(PortId(id)) {
            Some(port) => way_of(port) == way,
            None => false,
        }
    }

    /// Takes the port of this id away, if there is one.
    pub(crate) fn remove(&mut self, id: PortId)
        ensures ports { self.new.ports ≡ without_id self.old.ports id }
        ensures room { self.new.room ≡ self.old.room }
    {
        if let Some(place) = self.place(id) {
            self.listed.remove(place);
            self.places.remove(id.0 as usize);
            settle(&mut self.places, &self.listed, place);
        }
    }

    /// Takes the ports of these ids away.
    pub(crate) fn remove_all(&mut self, ids: &[u16])
        ensures ports { self.new.ports ≡ fold without_number self.old.ports ids.now }
        ensures room { self.new.room ≡ self.old.room }
    {
        for id in ids {
            self.remove(PortId(*id));
        }
    }

    /// Makes the port of this id active or not.
    fn set_active(&mut self, id: PortId, active: bool)
        ensures ports { self.new.ports ≡ with_id_active active self.old.ports id }
        ensures room { self.new.room ≡ self.old.room }
    {
        if let Some(place) = self.place(id) {
            self.listed[place].active = active;
        }
    }

    /// Makes the ports of these ids active or not.
    pub(crate) fn set_all_active(&mut self, ids: &[u16], active: bool)
        ensures ports { self.new.ports ≡ fold (with_number_active active) self.old.ports ids.now }
        ensures room { self.new.room ≡ self.old.room }
    {
        for id in ids {
            self.set_active(PortId(*id), active);
        }
    }

    /// The ports, in order of birth.
    pub(crate) fn iter(&self) -> PortIter<'_>
        ensures { result ≡ self.now.ports }
    {
        PortIter {
            ports: &self.listed,
        }
    }
}

/// A port's direction.
fn way_of(port: &Port) -> Way
    ensures { result ≡ way_of_port port.now }
{
    if port.flags.bits() & 1 == 1 {
        Way::In
    } else {
        Way::Out
    }
}

/// Tells again under each id where its port stands, from a place on.
fn settle(places: &mut Slab<usize>, ports: &[Port], from: usize)
    requires there { (i : ℕ) (port : PortValue) → slice_get ports.now i ≡ Some port → IsSome (get places.old port.id.0) }
    requires before { (i : ℕ) (port : PortValue) → slice_get ports.now i ≡ Some port → i < from → get places.old port.id.0 ≡ Some i }
    requires apart { Apart (λ (port : PortValue). port.id.0) ports.now }
    ensures placed { (i : ℕ) (port : PortValue) → slice_get ports.now i ≡ Some port → get places.new port.id.0 ≡ Some i }
    ensures len { slab_len places.new ≡ slab_len places.old }
    ensures capacity { places.new.capacity ≡ places.old.capacity }
{
    for place in from..ports.len() {
        put(places, ports[place].id.0 as usize, place);
    }
}

/// Puts another place under a key that has one.
fn put(places: &mut Slab<usize>, key: usize, place: usize)
    requires { ContainsKey places.old key }
    ensures updates { Updates places.old places.new key (Some place) }
    ensures len { slab_len places.new ≡ slab_len places.old }
    ensures capacity { places.new.capacity ≡ places.old.capacity }
{
    if let Some(slot) = places.get_mut(key) {
        *slot = place;
    }
}

/// The ports of a registry, in order of birth. Contracts see the list of those that are still to come.
#[derive(Drop)]
pub struct PortIter<'a> {
    ports: &'a [Port],
}

impl<'a> Model for PortIter<'a> {
    ghost use Rattle.std.specs.Prelude.{List};
    ghost use Rattle.session_laws.specs.jack_types.specs.declared.ports.Port.{Port};

    ghost Value = { List Port };

    ghost view = { λ p. p.ports.now };
}

impl<'a> PortIter<'a> {
    /// Those that are still to come.
    pub fn as_slice(&self) -> &'a [Port]
        ensures { result.now ≡ self.now }
    {
        self.ports
    }
}

impl<'a> Iterator for PortIter<'a> {
    type Item = Port;

    ghost use Rattle.std.specs.Iterator.{YieldsFirst, item_count};

    ghost next_gives = { YieldsFirst (λ rest. rest) };

    ghost remaining = { item_count (λ rest. rest) };

    fn next(&mut self) -> Option<Port> {
        let (first, rest) = self.ports.split_first()?;
        self.ports = rest;
        Some(*first)
    }
}

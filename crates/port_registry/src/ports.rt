//! Ports as clients register them and take them away.

ghost use Rattle.std.specs.Prelude.{◌≡◌, ◌<◌, ℕ, false, position, filter, length, None, Some, IfOk, OnOk, OnErr, IsOk};
ghost use Rattle.session_laws.specs.jack_types.specs.Names.{client_part};
ghost use Rattle.session_laws.specs.jack_types.specs.declared.commands.Command.TheVariants.{Register, Unregister};
ghost use Rattle.session_laws.specs.jack_types.specs.declared.ports.Client.{Client as ClientValue};
ghost use Rattle.session_laws.specs.jack_types.specs.declared.ports.PortKind.{PortKind as PortKindValue};
ghost use Rattle.session_laws.specs.session_model.specs.Commands.{after, refusal};
ghost use Rattle.session_laws.specs.session_model.specs.State.{is_system as names_system};
ghost use Rattle.port_registry.specs.Answers.{Answers, AnswersExactly, IsMemory};
ghost use Rattle.port_registry.specs.Registered.{IsRegistered, client_by, client_port, has_name, is_named, is_of, state_of, with_port, without_port};

use crate::clients::is_system;
use crate::registries::Registry;
use session_laws::jack_types::{
    Memory, No, Node, Port, PortFlags, PortId, PortKind, PortName, Refusal, Way,
};

impl Registry {
    /// Registers a port of a client, under the number of the change that registers it. Refused where there is no
    /// such client, for `system`, where the name is taken, or where the client has 16 ports of the direction.
    pub fn register(
        &mut self,
        name: &PortName,
        way: Way,
        kind: PortKind,
        birth: u32,
    ) -> Result<PortId, No>
        ensures answer { Answers (refusal (state_of self.old) (Register name.now way kind)) result }
        ensures registers { IfOk result (λ id. (client : ClientValue) → client_by self.old (client_part name.now) ≡ Some client
            → self.new ≡ with_port (client_port id name.now way kind birth client) self.old) }
        ensures same { OnErr result (self.new ≡ self.old) }
        ensures after { ¬ IsMemory result → state_of self.new ≡ after (state_of self.old) birth (Register name.now way kind) }
        ensures room { length self.old.ports < self.old.port_room → ¬ IsMemory result }
        ensures registered { IsRegistered self.new }
    {
        match self.registrable(name, way) {
            Err(refusal) => Err(No::Refused(refusal)),
            Ok(place) => match self.put(place, name, way, kind, birth) {
                Ok(id) => Ok(id),
                Err(Memory) => Err(No::Memory),
            },
        }
    }

    /// Where the client stands that may have such a port.
    fn registrable(&self, name: &PortName, way: Way) -> Result<usize, Refusal>
        ensures answer { (kind : PortKindValue) → AnswersExactly (refusal (state_of self.now) (Register name.now way kind)) result }
        ensures place { IfOk result (λ place. position (has_name (client_part name.now)) self.now.clients ≡ Some place) }
        ensures other { OnOk result (names_system (client_part name.now) ≡ false) }
        ensures registered { IsRegistered self.now }
    {
        let client = name.client();
        let place = match self.changeable(&client) {
            Ok(place) => place,
            Err(refusal) => return Err(refusal),
        };
        let ids = self.lists[place].as_slice();
        if self.table.find(ids, name).is_some() {
            return Err(Refusal::NameTaken);
        }
        if self.table.count(ids, way) >= 16 {
            return Err(Refusal::PortsFull);
        }
        Ok(place)
    }

    /// Registers a port that nothing refuses, of the client that stands there.
    fn put(
        &mut self,
        place: usize,
        name: &PortName,
        way: Way,
        kind: PortKind,
        birth: u32,
    ) -> Result<PortId, Memory>
        requires place { position (has_name (client_part name.now)) self.old.clients ≡ Some place }
        requires other { names_system (client_part name.now) ≡ false }
        requires granted { refusal (state_of self.old) (Register name.now way kind) ≡ None }
        ensures put { IfOk result (λ id. (client : ClientValue) → client_by self.old (client_part name.now) ≡ Some client
            → self.new ≡ with_port (client_port id name.now way kind birth client) self.old) }
        ensures same { OnErr result (self.new ≡ self.old) }
        ensures after { OnOk result (state_of self.new ≡ after (state_of self.old) birth (Register name.now way kind)) }
        ensures room { length self.old.ports < self.old.port_room → IsOk result }
        ensures registered { IsRegistered self.new }
    {
        let client = &self.clients[place];
        let port = Port {
            id: PortId(0),
            name: *name,
            birth,
            node: Node::Client(client.id),
            flags: PortFlags::of(way),
            kind,
            active: client.active,
        };
        match self.table.add(port) {
            Ok(id) => {
                self.lists[place].push(id.0);
                Ok(id)
            }
            Err(Memory) => Err(Memory),
        }
    }

    /// Takes a port away. Refused where there is none, or for a port of `system`.
    pub fn unregister(&mut self, name: &PortName) -> Result<(), Refusal>
        ensures answer { AnswersExactly (refusal (state_of self.old) (Unregister name.now)) result }
        ensures unregistered { OnOk result (self.new ≡ without_port name.now self.old) }
        ensures same { OnErr result (self.new ≡ self.old) }
        ensures after { (number : ℕ) → state_of self.new ≡ after (state_of self.old) number (Unregister name.now) }
        ensures registered { IsRegistered self.new }
    {
        match self.unregistrable(name) {
            Ok((place, found)) => {
                self.take(name, place, found);
                Ok(())
            }
            Err(refusal) => Err(refusal),
        }
    }

    /// Where the port's client stands, and where the port stands among the client's.
    fn unregistrable(&self, name: &PortName) -> Result<(usize, usize), Refusal>
        ensures answer { AnswersExactly (refusal (state_of self.now) (Unregister name.now)) result }
        ensures place { IfOk result (λ at. position (has_name (client_part name.now)) self.now.clients ≡ Some at.0) }
        ensures found { IfOk result (λ at. position (is_named name.now) (filter (is_of (client_part name.now)) self.now.ports) ≡ Some at.1) }
        ensures registered { IsRegistered self.now }
    {
        let client = name.client();
        let Some(place) = self.place(&client) else {
            return Err(Refusal::NoPort);
        };
        let ids = self.lists[place].as_slice();
        let Some(found) = self.table.find(ids, name) else {
            return Err(Refusal::NoPort);
        };
        if is_system(&client) {
            return Err(Refusal::IsSystem);
        }
        Ok((place, found))
    }

    /// Takes away the port of this name, which stands there among those of the client that stands there.
    fn take(&mut self, name: &PortName, place: usize, found: usize)
        requires place { position (has_name (client_part name.now)) self.old.clients ≡ Some place }
        requires found { position (is_named name.now) (filter (is_of (client_part name.now)) self.old.ports) ≡ Some found }
        ensures taken { self.new ≡ without_port name.now self.old }
        ensures registered { IsRegistered self.new }
    {
        let id = self.lists[place].remove(found);
        self.table.remove(PortId(id));
    }
}

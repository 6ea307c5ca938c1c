//! Clients as they open and close, become active and slow.

ghost use Rattle.std.specs.Prelude.{◌≡◌, ◌≤◌, ◌<◌, ℕ, false, true, position, length, is_some, IfOk, OnOk, OnErr, IsOk};
ghost use Rattle.session_laws.specs.jack_types.specs.declared.ports.Client.{Client as ClientValue};
ghost use Rattle.session_laws.specs.jack_types.specs.declared.commands.Command.TheVariants.{Open, Close, Activate, Deactivate, Slow};
ghost use Rattle.session_laws.specs.session_model.specs.Commands.{after, refusal, shares};
ghost use Rattle.session_laws.specs.session_model.specs.State.{is_system as names_system};
ghost use Rattle.port_registry.specs.Answers.{Answers, AnswersExactly, IsMemory};
ghost use Rattle.port_registry.specs.Registered.{IsRegistered, has_name, state_of, with_active, with_opened, with_slow, without_client};

use crate::registries::Registry;
use arrayvec::ArrayVec;
use session_laws::jack_types::{Client, ClientId, ClientName, Kind, Memory, No, Refusal};

/// Whether it is the name of the client that is always open.
pub(crate) fn is_system(name: &ClientName) -> bool
    ensures { result ≡ names_system name.now }
{
    name.text() == "system"
}

/// Whether two kinds ask for one guest, recorder or disk file.
fn ask_for_one(one: Kind, other: Kind) -> bool
    ensures { result ≡ shares one other }
{
    match (one, other) {
        (Kind::Tape { recorder: a }, Kind::Tape { recorder: b }) => a == b,
        (Kind::Guest { guest: a }, Kind::Guest { guest: b }) => a == b,
        (Kind::Disk { disk: a }, Kind::Disk { disk: b }) => a == b,
        _ => false,
    }
}

/// Which client is the first to have what the kind asks for.
fn owner(clients: &[Client], kind: Kind) -> Option<usize>
    ensures { result ≡ position (λ (client : ClientValue). shares client.kind kind) clients.now }
{
    clients
        .iter()
        .position(|client| ask_for_one(client.kind, kind))
}

/// Whether a client has what the kind asks for.
fn is_in_use(clients: &[Client], kind: Kind) -> bool
    ensures { result ≡ is_some (position (λ (client : ClientValue). shares client.kind kind) clients.now) }
{
    owner(clients, kind).is_some()
}

impl Registry {
    /// Opens a client, which is not yet active, under the number of the change that opens it.
    /// Refused where the name is open, 64 clients are, or another has the recorder, guest or disk file.
    pub fn open_client(&mut self, name: &ClientName, kind: Kind, birth: u32) -> Result<ClientId, No>
        ensures answer { Answers (refusal (state_of self.old) (Open name.now kind)) result }
        ensures opened { IfOk result (λ id. self.new ≡ with_opened id name.now kind birth self.old) }
        ensures same { OnErr result (self.new ≡ self.old) }
        ensures after { ¬ IsMemory result → state_of self.new ≡ after (state_of self.old) birth (Open name.now kind) }
        ensures room { length self.old.clients < self.old.client_room → ¬ IsMemory result }
        ensures registered { IsRegistered self.new }
    {
        if let Some(refusal) = self.refusal_to_open(name, kind) {
            return Err(No::Refused(refusal));
        }
        match self.open(name, kind, birth) {
            Ok(id) => Ok(id),
            Err(Memory) => Err(No::Memory),
        }
    }

    /// Why a client may not open.
    fn refusal_to_open(&self, name: &ClientName, kind: Kind) -> Option<Refusal>
        ensures value { result ≡ refusal (state_of self.now) (Open name.now kind) }
        ensures registered { IsRegistered self.now }
    {
        if self.place(name).is_some() {
            return Some(Refusal::IsOpen);
        }
        if self.clients.len() > 64 {
            return Some(Refusal::ClientsFull);
        }
        if is_in_use(&self.clients, kind) {
            return Some(Refusal::InUse);
        }
        None
    }

    /// Opens a client that nothing refuses.
    fn open(&mut self, name: &ClientName, kind: Kind, birth: u32) -> Result<ClientId, Memory>
        requires { refusal (state_of self.old) (Open name.now kind) ≡ None }
        ensures opened { IfOk result (λ id. self.new ≡ with_opened id name.now kind birth self.old) }
        ensures same { OnErr result (self.new ≡ self.old) }
        ensures room { length self.old.clients < self.old.client_room → IsOk result }
        ensures registered { IsRegistered self.new }
    {
        self.clients.reserve(1).map_err(|_| Memory)?;
        self.lists.reserve(1).map_err(|_| Memory)?;
        let Some(number) = self.free.pop() else {
            unreachable!()
        };
        let id = ClientId(number);
        let pushed = self.clients.push(Client {
            id,
            name: *name,
            birth,
            kind,
            active: false,
            slow: 0,
        });
        let listed = self.lists.push(ArrayVec::new());
        match (pushed, listed) {
            (Ok(()), Ok(())) => Ok(id),
            _ => unreachable!(),
        }
    }

    /// Closes a client: it and its ports go. Refused where there is none, or for `system`.
    pub fn close_client(&mut self, name: &ClientName) -> Result<(), Refusal>
        ensures answer { AnswersExactly (refusal (state_of self.old) (Close name.now)) result }
        ensures closed { OnOk result (self.new ≡ without_client name.now self.old) }
        ensures same { OnErr result (self.new ≡ self.old) }
        ensures after { (number : ℕ) → state_of self.new ≡ after (state_of self.old) number (Close name.now) }
        ensures registered { IsRegistered self.new }
    {
        match self.changeable(name) {
            Ok(place) => {
                self.close(name, place);
                Ok(())
            }
            Err(refusal) => Err(refusal),
        }
    }

    /// Where the client of this name stands, which may not be `system`.
    pub(crate) fn changeable(&self, name: &ClientName) -> Result<usize, Refusal>
        ensures answer { AnswersExactly (refusal (state_of self.now) (Close name.now)) result }
        ensures place { IfOk result (λ place. position (has_name name.now) self.now.clients ≡ Some place) }
        ensures other { OnOk result (names_system name.now ≡ false) }
        ensures registered { IsRegistered self.now }
    {
        let Some(place) = self.place(name) else {
            return Err(Refusal::NoClient);
        };
        if is_system(name) {
            return Err(Refusal::IsSystem);
        }
        Ok(place)
    }

    /// Closes the client of this name, which stands there.
    fn close(&mut self, name: &ClientName, place: usize)
        requires place { position (has_name name.now) self.old.clients ≡ Some place }
        requires other { names_system name.now ≡ false }
        ensures closed { self.new ≡ without_client name.now self.old }
        ensures registered { IsRegistered self.new }
    {
        let client = self.clients.remove(place);
        let ids = self.lists.remove(place);
        self.table.remove_all(ids.as_slice());
        self.free.push(client.id.0);
    }

    /// Makes a client and its ports active. Refused where there is none, for `system`, or where it is.
    pub fn activate(&mut self, name: &ClientName) -> Result<(), Refusal>
        ensures answer { AnswersExactly (refusal (state_of self.old) (Activate name.now)) result }
        ensures activated { OnOk result (self.new ≡ with_active name.now true self.old) }
        ensures same { OnErr result (self.new ≡ self.old) }
        ensures after { (number : ℕ) → state_of self.new ≡ after (state_of self.old) number (Activate name.now) }
        ensures registered { IsRegistered self.new }
    {
        match self.inactive(name) {
            Ok(place) => {
                self.set_active(name, place, true);
                Ok(())
            }
            Err(refusal) => Err(refusal),
        }
    }

    /// Where the client of this name stands, which is to become active.
    fn inactive(&self, name: &ClientName) -> Result<usize, Refusal>
        ensures answer { AnswersExactly (refusal (state_of self.now) (Activate name.now)) result }
        ensures place { IfOk result (λ place. position (has_name name.now) self.now.clients ≡ Some place) }
        ensures other { OnOk result (names_system name.now ≡ false) }
        ensures registered { IsRegistered self.now }
    {
        let place = match self.changeable(name) {
            Ok(place) => place,
            Err(refusal) => return Err(refusal),
        };
        if self.clients[place].active {
            return Err(Refusal::AlreadyActive);
        }
        Ok(place)
    }

    /// Makes a client and its ports inactive. Refused where there is none, for `system`, or where it is not active.
    pub fn deactivate(&mut self, name: &ClientName) -> Result<(), Refusal>
        ensures answer { AnswersExactly (refusal (state_of self.old) (Deactivate name.now)) result }
        ensures deactivated { OnOk result (self.new ≡ with_active name.now false self.old) }
        ensures same { OnErr result (self.new ≡ self.old) }
        ensures after { (number : ℕ) → state_of self.new ≡ after (state_of self.old) number (Deactivate name.now) }
        ensures registered { IsRegistered self.new }
    {
        match self.active(name) {
            Ok(place) => {
                self.set_active(name, place, false);
                Ok(())
            }
            Err(refusal) => Err(refusal),
        }
    }

    /// Where the client of this name stands, which is to become inactive.
    fn active(&self, name: &ClientName) -> Result<usize, Refusal>
        ensures answer { AnswersExactly (refusal (state_of self.now) (Deactivate name.now)) result }
        ensures place { IfOk result (λ place. position (has_name name.now) self.now.clients ≡ Some place) }
        ensures other { OnOk result (names_system name.now ≡ false) }
        ensures registered { IsRegistered self.now }
    {
        let place = match self.changeable(name) {
            Ok(place) => place,
            Err(refusal) => return Err(refusal),
        };
        if !self.clients[place].active {
            return Err(Refusal::NotActive);
        }
        Ok(place)
    }

    /// Makes the client of this name, which stands there, and its ports active or not.
    fn set_active(&mut self, name: &ClientName, place: usize, active: bool)
        requires place { position (has_name name.now) self.old.clients ≡ Some place }
        requires other { names_system name.now ≡ false }
        ensures changed { self.new ≡ with_active name.now active self.old }
        ensures registered { IsRegistered self.new }
    {
        self.clients[place].active = active;
        self.table
            .set_all_active(self.lists[place].as_slice(), active);
    }

    /// Gives a client a slow number; 0 takes it away. Refused where there is none, or for `system`.
    pub fn set_slow(&mut self, name: &ClientName, cycles: u32) -> Result<(), Refusal>
        ensures answer { AnswersExactly (refusal (state_of self.old) (Slow name.now cycles)) result }
        ensures slowed { OnOk result (self.new ≡ with_slow name.now cycles self.old) }
        ensures same { OnErr result (self.new ≡ self.old) }
        ensures after { (number : ℕ) → state_of self.new ≡ after (state_of self.old) number (Slow name.now cycles) }
        ensures registered { IsRegistered self.new }
    {
        match self.changeable(name) {
            Ok(place) => {
                self.slow(name, place, cycles);
                Ok(())
            }
            Err(refusal) => Err(refusal),
        }
    }

    /// Gives the client of this name, which stands there, a slow number.
    fn slow(&mut self, name: &ClientName, place: usize, cycles: u32)
        requires place { position (has_name name.now) self.old.clients ≡ Some place }
        requires other { names_system name.now ≡ false }
        ensures changed { self.new ≡ with_slow name.now cycles self.old }
        ensures registered { IsRegistered self.new }
    {
        self.clients[place].slow = cycles;
    }
}

//! Clients of a graph, as commands change them.

ghost use Rattle.std.specs.Prelude.{◌≡◌, ℕ, Some, IfOk, OnOk, false};
ghost use Rattle.graph_word.specs.jack_types.specs.declared.commands.Command.TheVariants.{Activate, Close, Deactivate, Open, Slow};
ghost use Rattle.graph_word.specs.session_model.specs.Commands.{refusal};
ghost use Rattle.graph_word.specs.session_model.specs.State.{is_system as names_system};
ghost use Rattle.port_registry.specs.Answers.{AnswersExactly};
ghost use Rattle.port_registry.specs.Registered.{client_by};
ghost use Rattle.cycle_plan.specs.Graphs.{IsApplied, IsNetwork, state_of};

use crate::graph::Graph;
use crate::masters::leave;
use crate::rewiring::{drop_client, mark_anew};
use crate::roomy::refusal_only;
use graph_word::jack_types::{Client, ClientName, Kind, Refusal};

impl Graph {
    /// The client of this name, which may not be `system`.
    pub(crate) fn changeable(&self, name: &ClientName) -> Result<Client, Refusal>
        ensures answer { AnswersExactly (refusal (state_of self.now) (Close name.now)) result }
        ensures client { IfOk result (λ client. client_by self.now.held name.now ≡ Some client) }
        ensures other { OnOk result (names_system name.now ≡ false) }
        ensures network { IsNetwork self.now }
    {
        let Some(client) = self.registry.client(name) else {
            return Err(Refusal::NoClient);
        };
        if name.text() == "system" {
            return Err(Refusal::IsSystem);
        }
        Ok(client)
    }

    /// Opens a client, which is not yet active.
    pub(crate) fn open(&mut self, name: &ClientName, kind: Kind, number: u32) -> Result<(), Refusal>
        ensures { IsApplied self.old number (Open name.now kind) result self.new }
    {
        let answer = self.registry.open_client(name, kind, number);
        refusal_only(answer)
    }

    /// Closes a client: it, its ports and their edges go.
    pub(crate) fn close(&mut self, name: &ClientName) -> Result<(), Refusal>
        ensures { (number : ℕ) → IsApplied self.old number (Close name.now) result self.new }
    {
        let client = match self.changeable(name) {
            Ok(client) => client,
            Err(refusal) => return Err(refusal),
        };
        let ports = self.registry.ports().as_slice();
        let before = self.connections.edges().len();
        drop_client(&mut self.connections, ports, client.id);
        mark_anew(&mut self.connections, ports, before);
        match self.registry.close_client(name) {
            Ok(()) => {}
            Err(_) => unreachable!(),
        }
        leave(&mut self.master, name);
        Ok(())
    }

    /// Makes a client and its ports active.
    pub(crate) fn activate(&mut self, name: &ClientName) -> Result<(), Refusal>
        ensures { (number : ℕ) → IsApplied self.old number (Activate name.now) result self.new }
    {
        self.registry.activate(name)
    }

    /// Makes a client and its ports inactive: their edges go.
    pub(crate) fn deactivate(&mut self, name: &ClientName) -> Result<(), Refusal>
        ensures { (number : ℕ) → IsApplied self.old number (Deactivate name.now) result self.new }
    {
        let Some(client) = self.registry.client(name) else {
            return Err(Refusal::NoClient);
        };
        let id = client.id;
        match self.registry.deactivate(name) {
            Ok(()) => {}
            Err(refusal) => return Err(refusal),
        }
        let ports = self.registry.ports().as_slice();
        let count = self.connections.edges().len();
        drop_client(&mut self.connections, ports, id);
        mark_anew(&mut self.connections, ports, count);
        leave(&mut self.master, name);
        Ok(())
    }

    /// Gives a client a slow number; 0 takes it away.
    pub(crate) fn slow(&mut self, name: &ClientName, cycles: u32) -> Result<(), Refusal>
        ensures { (number : ℕ) → IsApplied self.old number (Slow name.now cycles) result self.new }
    {
        self.registry.set_slow(name, cycles)
    }
}

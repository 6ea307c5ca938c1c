//! Ports and connections of a graph, as commands change them.

ghost use Rattle.std.specs.Prelude.{◌≡◌, ℕ};
ghost use Rattle.graph_word.specs.jack_types.specs.declared.commands.Command.TheVariants.{Connect, Disconnect, Register, Unregister};
ghost use Rattle.cycle_plan.specs.Graphs.{IsApplied};

use crate::graph::Graph;
use crate::rewiring::{join, mark_anew};
use crate::roomy::refusal_only;
use graph_word::jack_types::{PortKind, PortName, Refusal, Way};

impl Graph {
    /// Registers a port of a client.
    pub(crate) fn register(
        &mut self,
        name: &PortName,
        way: Way,
        kind: PortKind,
        number: u32,
    ) -> Result<(), Refusal>
        ensures { IsApplied self.old number (Register name.now way kind) result self.new }
    {
        let answer = self.registry.register(name, way, kind, number);
        refusal_only(answer)
    }

    /// Takes a port away, with its edges.
    pub(crate) fn unregister(&mut self, name: &PortName) -> Result<(), Refusal>
        ensures { (number : ℕ) → IsApplied self.old number (Unregister name.now) result self.new }
    {
        let Some(port) = self.registry.port(name) else {
            return Err(Refusal::NoPort);
        };
        match self.registry.unregister(name) {
            Ok(()) => {}
            Err(refusal) => return Err(refusal),
        }
        let before = self.connections.edges().len();
        self.connections.drop_port(port.id);
        mark_anew(
            &mut self.connections,
            self.registry.ports().as_slice(),
            before,
        );
        Ok(())
    }

    /// Connects an output to an input.
    pub(crate) fn connect(
        &mut self,
        source: &PortName,
        destination: &PortName,
    ) -> Result<(), Refusal>
        ensures { (number : ℕ) → IsApplied self.old number (Connect source.now destination.now) result self.new }
    {
        let from = &self.registry.port(source);
        let to = &self.registry.port(destination);
        match self.connections.check(*from, *to) {
            Ok(()) => {}
            Err(refusal) => return Err(refusal),
        }
        let (Some(from), Some(to)) = (from, to) else {
            unreachable!()
        };
        join(
            &mut self.connections,
            self.registry.ports().as_slice(),
            from,
            to,
        );
        Ok(())
    }

    /// Takes a connection away.
    pub(crate) fn disconnect(
        &mut self,
        source: &PortName,
        destination: &PortName,
    ) -> Result<(), Refusal>
        ensures { (number : ℕ) → IsApplied self.old number (Disconnect source.now destination.now) result self.new }
    {
        let from = self.registry.port(source);
        let to = self.registry.port(destination);
        let before = self.connections.edges().len();
        match self.connections.remove(from, to) {
            Ok(()) => {}
            Err(refusal) => return Err(refusal),
        }
        mark_anew(
            &mut self.connections,
            self.registry.ports().as_slice(),
            before,
        );
        Ok(())
    }
}

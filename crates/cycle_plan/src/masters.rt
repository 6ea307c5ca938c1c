//! The timebase master and the timeout, as commands change them.

ghost use Rattle.std.specs.Prelude.{◌≡◌, ℕ};
ghost use Rattle.std.specs.Option.{option_map};
ghost use Rattle.graph_word.specs.jack_types.specs.declared.commands.Command.TheVariants.{Release, Timebase, TimebaseIf, Timeout};
ghost use Rattle.graph_word.specs.session_model.specs.Commands.{master_without};
ghost use Rattle.graph_word.specs.session_model.specs.Transport.{active_master};
ghost use Rattle.cycle_plan.specs.Graphs.{IsApplied, numbers_of, state_of, tempo_numbers};
ghost use Rattle.cycle_plan.specs.Masters.{is_led_by as is_led_in, master_of};

use crate::graph::Graph;
use graph_word::jack_types::{ClientName, Refusal};
use tempo_map::Tempo;

/// The client that is the timebase master, with its tempo.
#[derive(Clone, Copy)]
pub(crate) struct Mastership {
    pub(crate) client: ClientName,
    pub(crate) tempo: Tempo,
}

/// Whether the master is the client of this name.
fn is_led_by(master: &Option<Mastership>, name: &ClientName) -> bool
    ensures { result ≡ is_led_in name.now (option_map master_of master.now) }
{
    match master {
        Some(held) => held.client.text() == name.text(),
        None => false,
    }
}

/// Leaves nobody the master where the client was.
pub(crate) fn leave(master: &mut Option<Mastership>, client: &ClientName)
    ensures { option_map master_of master.new ≡ master_without client.now (option_map master_of master.old) }
{
    if is_led_by(master, client) {
        *master = None;
    }
}

impl Graph {
    /// Makes a client the master, in place of another.
    pub(crate) fn lead(&mut self, client: &ClientName, tempo: Tempo) -> Result<(), Refusal>
        ensures { (number : ℕ) → IsApplied self.old number (Timebase client.now tempo.mbpm tempo.beats tempo.ticks) result self.new }
    {
        match self.changeable(client) {
            Ok(_) => {
                self.master = Some(Mastership {
                    client: *client,
                    tempo,
                });
                Ok(())
            }
            Err(refusal) => Err(refusal),
        }
    }

    /// Makes a client the master where no other is.
    pub(crate) fn lead_if_free(&mut self, client: &ClientName, tempo: Tempo) -> Result<(), Refusal>
        ensures { (number : ℕ) → IsApplied self.old number (TimebaseIf client.now tempo.mbpm tempo.beats tempo.ticks) result self.new }
    {
        match self.changeable(client) {
            Ok(_) => {}
            Err(refusal) => return Err(refusal),
        }
        if self.master.is_some() && !is_led_by(&self.master, client) {
            return Err(Refusal::Busy);
        }
        self.master = Some(Mastership {
            client: *client,
            tempo,
        });
        Ok(())
    }

    /// Ends a client's being the master.
    pub(crate) fn release(&mut self, client: &ClientName) -> Result<(), Refusal>
        ensures { (number : ℕ) → IsApplied self.old number (Release client.now) result self.new }
    {
        match self.changeable(client) {
            Ok(_) => {}
            Err(refusal) => return Err(refusal),
        }
        if !is_led_by(&self.master, client) {
            return Err(Refusal::NotMaster);
        }
        self.master = None;
        Ok(())
    }

    /// Sets for how many cycles slow clients are waited for.
    pub(crate) fn set_timeout(&mut self, cycles: u32) -> Result<(), Refusal>
        ensures { (number : ℕ) → IsApplied self.old number (Timeout cycles) result self.new }
    {
        self.timeout = Some(cycles);
        Ok(())
    }

    /// The tempo of the master, where there is one and it is active.
    pub(crate) fn active_tempo(&self) -> Option<Tempo>
        ensures { tempo_numbers result ≡ numbers_of (active_master (state_of self.now)) }
    {
        let Some(held) = &self.master else {
            return None;
        };
        let client = match self.registry.client(&held.client) {
            Some(client) => client,
            None => return None,
        };
        if client.active {
            Some(held.tempo)
        } else {
            None
        }
    }
}

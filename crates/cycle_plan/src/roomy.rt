//! Answers of the registry where there is room.

ghost use Rattle.std.specs.Prelude.{◌≡◌};
ghost use Rattle.port_registry.specs.Answers.{IsMemory};
ghost use Rattle.cycle_plan.specs.Rewiring.{without_memory};

use graph_word::jack_types::{No, Refusal};

/// Done, or why not, of a call that has room.
pub(crate) fn refusal_only<T: Drop>(answer: Result<T, No>) -> Result<(), Refusal>
    requires { ¬ IsMemory answer }
    ensures { result ≡ without_memory answer }
{
    match answer {
        Ok(_) => Ok(()),
        Err(No::Refused(refusal)) => Err(refusal),
        Err(No::Memory) => unreachable!(),
    }
}

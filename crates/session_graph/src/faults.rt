//! Why no graph is put out.

ghost use Rattle.std.specs.Prelude.{◌≡◌};

use jack_host::Failed;
use jack_types::{Memory, Part, Row, ScriptFault};
use std::alloc::AllocError;

/// Why no graph is put out. The codes are those of a play.
#[derive(Clone, Copy, PartialEq, Eq)]
pub enum GraphFault {
    /// No memory was found.
    NoMemory,
    /// The words are none of `graph`, or the script has no such cycle.
    Words,
    /// A file could not be opened or read.
    ReadFault,
    /// The bytes are no script.
    BadScript(ScriptFault),
    /// The text could not be written.
    WriteFault,
    /// The first line, call or cycle of the report that is wrong.
    Wrong(Row),
}

impl GraphFault {
    ghost use Rattle.std.specs.Prelude.{◌≡◌};
    ghost use Rattle.session_graph.specs.Faults.{code_of};

    /// The exit code.
    pub fn code(&self) -> u8
        ensures { result ≡ code_of self.now }
    {
        match self {
            GraphFault::NoMemory => 1,
            GraphFault::Words => 2,
            GraphFault::ReadFault => 3,
            GraphFault::BadScript(_) => 5,
            GraphFault::WriteFault => 6,
            GraphFault::Wrong(_) => 8,
        }
    }
}

/// A part that is wrong at a number.
pub(crate) fn wrong(what: Part, number: u32) -> GraphFault
    ensures { result ≡ GraphFault.Wrong (record { what = what; number = number; place = 0 }) }
{
    GraphFault::Wrong(Row {
        what,
        number,
        place: 0,
    })
}

impl From<AllocError> for GraphFault {
    ghost use Rattle.session_graph.specs.declared.faults.GraphFault.TheVariants.{NoMemory};

    ghost from_gives = { λ _ e. e ≡ NoMemory };

    fn from(_error: AllocError) -> GraphFault {
        GraphFault::NoMemory
    }
}

impl From<Memory> for GraphFault {
    ghost use Rattle.session_graph.specs.declared.faults.GraphFault.TheVariants.{NoMemory};

    ghost from_gives = { λ _ e. e ≡ NoMemory };

    fn from(_error: Memory) -> GraphFault {
        GraphFault::NoMemory
    }
}

impl From<Failed> for GraphFault {
    ghost use Rattle.session_graph.specs.declared.faults.GraphFault.TheVariants.{ReadFault};

    ghost from_gives = { λ _ e. e ≡ ReadFault };

    fn from(_error: Failed) -> GraphFault {
        GraphFault::ReadFault
    }
}

//! What a publication needs to know of a plan.

/// The numbers of channels that all plans of a publication were made for.
#[derive(Clone, Copy, Debug, PartialEq, Eq)]
pub struct Base {
    pub capture: u32,
    pub playback: u32,
}

/// A plan, which knows how many changes it has.
pub trait Numbered: Drop {
    ghost use Rattle.std.specs.Prelude.{◌≡◌, List, length};
    ghost use Rattle.session_model.specs.jack_types.specs.declared.commands.Change.{Change};
    ghost use Rattle.graph_word.specs.declared.plans.Base.{Base};

    /// The channels that the plan was made for.
    ghost base: { Self → Base };

    /// The changes of the plan, in their order.
    ghost content: { Self → List Change };

    /// How many changes the plan has.
    fn number(&self) -> u32
        ensures { result ≡ length (content self.now) };
}

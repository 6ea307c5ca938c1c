//! A law of plans.

ghost use Rattle.std.specs.Prelude.{◌+◌, ◌*◌, ◌≤◌, ℕ, List, length};
ghost use Rattle.jack_types.specs.declared.ports.Link.{Link as LinkValue};
ghost use Rattle.driver_laws.specs.session_model.specs.Activation.{AreLinks};
ghost use Rattle.driver_laws.specs.cycle_plan.specs.Plans.{IsPlanned, Planned};

/// Between n nodes there are at most n(n − 1)/2 links.
pub fn links_are_few()
    ensures links { (nodes : ℕ) (links : List LinkValue) → AreLinks nodes links → 2 * length links + nodes ≤ nodes * nodes }
    ensures plans { (plan : Planned) → IsPlanned plan → 2 * length plan.links + length plan.nodes ≤ length plan.nodes * length plan.nodes }
{}

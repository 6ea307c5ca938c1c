//! The changes that a plan lacks, applied to its graph.

ghost use Rattle.std.specs.Prelude.{◌≡◌, ◌≤◌, ◌<◌, ◌++◌, ◌∷◌, [], length, vec_capacity};
ghost use Rattle.graph_word.specs.session_model.specs.Commands.{after, replay as replayed};
ghost use Rattle.graph_word.specs.session_model.specs.Replies.{IsNext};
ghost use Rattle.graph_word.specs.session_model.specs.State.{State};
ghost use Rattle.cycle_plan.specs.Graphs.{HasTempo, state_of};
ghost use Rattle.cycle_plan.specs.Plans.{CanReplay};

use crate::graph::Graph;
use graph_word::jack_types::Change;

/// Applies the next change, and keeps it.
fn go_on(graph: &mut Graph, kept: &mut Vec<Change>, change: &Change)
    requires next { IsNext (state_of graph.old) (length kept.old.items) change.now }
    requires tempo { HasTempo change.now.command }
    requires room { length kept.old.items < vec_capacity kept.old }
    ensures state { state_of graph.new ≡ after (state_of graph.old) change.now.number change.now.command }
    ensures kept { kept.new.items ≡ kept.old.items ++ change.now ∷ [] }
    ensures room { vec_capacity kept.old ≤ vec_capacity kept.new }
{
    match graph.apply(change.number, &change.command) {
        Ok(()) => {}
        Err(_) => unreachable!(),
    }
    match kept.push(*change) {
        Ok(()) => {}
        Err(_) => unreachable!(),
    }
}

/// Applies those of the changes that are not yet kept, and keeps them.
pub(crate) fn replay(graph: &mut Graph, kept: &mut Vec<Change>, changes: &[Change])
    requires replay { CanReplay (state_of graph.old) kept.old.items changes.now }
    requires room { length changes.now ≤ vec_capacity kept.old }
    ensures state { (before : State) → state_of graph.old ≡ replayed before kept.old.items → state_of graph.new ≡ replayed before changes.now }
    ensures kept { kept.new.items ≡ changes.now }
    ensures room { vec_capacity kept.old ≤ vec_capacity kept.new }
{
    for place in kept.len()..changes.len() {
        go_on(graph, kept, &changes[place]);
    }
}

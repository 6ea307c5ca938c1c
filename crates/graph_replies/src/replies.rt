//! The reply to a command.

ghost use Rattle.std.specs.Prelude.{◌≡◌, ◌≢◌};
ghost use Rattle.jack_types.specs.declared.replies.Reply.TheVariants.{Accepted};
ghost use Rattle.session_model.specs.Commands.{after};
ghost use Rattle.session_model.specs.Replies.{reply};
ghost use Rattle.cycle_plan.specs.Graphs.{HasTempo, state_of};
ghost use Rattle.graph_replies.specs.Told.{HasShortDelays};

use crate::latencies::Latencies;
use cycle_plan::Graph;
use jack_types::{Command, Refusal, Reply};

/// Answers a command: a change is applied under this number or refused, and a question for a latency is answered by the
/// graph as it is. It takes no memory.
pub fn answer(graph: &mut Graph, latencies: &mut Latencies, number: u32, command: &Command) -> Reply
    requires tempo { HasTempo command.now }
    requires delays { HasShortDelays (state_of graph.old) }
    ensures reply { result ≡ reply (state_of graph.old) number command.now }
    ensures after { state_of graph.new ≡ after (state_of graph.old) number command.now }
    ensures same { result ≢ Accepted number → graph.new ≡ graph.old }
{
    if let Command::Latency { mode, port } = command {
        return match latencies.of_port(graph, *mode, port) {
            Some(range) => Reply::Latency(range),
            None => Reply::Refused(Refusal::NoPort),
        };
    }
    match graph.apply(number, command) {
        Ok(()) => Reply::Accepted(number),
        Err(refusal) => Reply::Refused(refusal),
    }
}

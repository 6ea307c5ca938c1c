//! Edges that come and go, with their marks.

ghost use Rattle.std.specs.Prelude.{◌≡◌, ◌≤◌, None, Some, fold};
ghost use Rattle.graph_word.specs.jack_types.specs.declared.ports.Node.TheVariants.{Client as ClientNode};
ghost use Rattle.graph_word.specs.session_model.specs.Ids.{same_id_node};
ghost use Rattle.feedback_edges.specs.connection_set.specs.Connections.{connect_refusal};
ghost use Rattle.feedback_edges.specs.Marking.{AreAmong, IsNode};
ghost use Rattle.cycle_plan.specs.Rewiring.{Joins, Leaves, without_edges_at};

use feedback_edges::connection_set::Connections;
use feedback_edges::{mark, remark};
use graph_word::jack_types::{ClientId, Node, Port};

/// Whether a port is one of the client of this id.
fn is_at(port: &Port, id: ClientId) -> bool
    ensures { result ≡ same_id_node port.now.node (ClientNode id) }
{
    match port.node {
        Node::Client(client) => client.0 == id.0,
        Node::Capture | Node::Playback => false,
    }
}

/// Takes away the edges at the ports of the client of this id.
pub(crate) fn drop_client(connections: &mut Connections, ports: &[Port], id: ClientId)
    ensures edges { connections.new.edges ≡ fold (without_edges_at (ClientNode id)) connections.old.edges ports.now }
    ensures room { connections.new.room ≡ connections.old.room }
{
    for port in ports {
        if is_at(port, id) {
            connections.drop_port(port.id);
        }
    }
}

/// Makes the marks anew where there were more edges before.
pub(crate) fn mark_anew(connections: &mut Connections, ports: &[Port], before: usize)
    requires { AreAmong ports.now connections.old.edges }
    ensures edges { Leaves ports.now before connections.old.edges connections.new.edges }
    ensures room { connections.new.room ≡ connections.old.room }
{
    if connections.edges().len() < before {
        remark(connections, ports);
    }
}

/// Makes a connection that nothing refuses, with its mark.
pub(crate) fn join(connections: &mut Connections, ports: &[Port], source: &Port, destination: &Port)
    requires among { AreAmong ports.now connections.old.edges }
    requires source { IsNode source.now.node }
    requires destination { IsNode destination.now.node }
    requires granted { connect_refusal connections.old.edges (Some source.now) (Some destination.now) ≡ None }
    requires room { 512 ≤ connections.old.room }
    ensures edges { Joins ports.now source.now destination.now connections.old.edges connections.new.edges }
    ensures room { connections.old.room ≤ connections.new.room }
{
    let mark = mark(connections.edges(), ports, *source, *destination);
    match connections.insert(*source, *destination, mark) {
        Ok(()) => {}
        Err(_) => unreachable!(),
    }
}

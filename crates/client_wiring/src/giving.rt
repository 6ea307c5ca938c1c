//! The audio outputs of nodes.

ghost use Rattle.std.specs.Prelude.{◌≡◌, ◌≤◌, ◌<◌, length};
ghost use Rattle.std.specs.Vec.{vec_capacity};
ghost use Rattle.client_wiring.specs.Ends.{given_from};
ghost use Rattle.client_wiring.specs.Tables.{ArePlaces};
ghost use Rattle.client_wiring.specs.Wirings.{wired_of};

use crate::adding::put_some;
use crate::ends::place_of;
use crate::joints::Given;
use crate::tables::{Tables, way_of};
use cycle_plan::Plan;
use cycle_plan::feedback_edges::MOST_PORTS;
use jack_types::{Client, Port, PortKind, Way};

/// The audio output of a node that a port is, if it is one.
fn given_of(nodes: &[Client], places: &[usize; MOST_PORTS], port: &Port) -> Option<Given>
    requires { port.now.id.0 < 2064 }
    ensures { result ≡ given_from nodes.now places.now port.now }
{
    match (port.kind, way_of(port), place_of(nodes, port.node)) {
        (PortKind::Audio, Way::Out, Some(node)) => Some(Given {
            birth: port.birth,
            node,
            output: places[port.id.0 as usize],
        }),
        _ => None,
    }
}

/// Makes the audio outputs of the nodes anew.
pub(crate) fn give_outputs(given: &mut Vec<Given>, plan: &Plan, tables: &Tables)
    requires room { 2064 ≤ vec_capacity given.old }
    requires places { ArePlaces plan.now.network.held.ports tables.now.places }
    ensures given { given.new.items ≡ (wired_of plan.now).given }
    ensures few { length given.new.items ≤ 2064 }
    ensures room { vec_capacity given.old ≤ vec_capacity given.new }
{
    given.clear();
    let (ports, nodes) = (plan.ports(), plan.nodes());
    for port in ports {
        let output = given_of(nodes, &tables.places, port);
        put_some(given, output);
    }
}

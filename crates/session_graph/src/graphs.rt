//! What is looked up in a graph.

ghost use Rattle.std.specs.Prelude.{◌≡◌, ◌==◌, position};
ghost use Rattle.std.specs.Option.{option_map};
ghost use Rattle.port_registry.specs.Registered.{is_of};
ghost use Rattle.session_model.specs.Ids.{name_with, port_with, way_of};
ghost use Rattle.session_model.specs.State.{is_system};

use bitflags::Flags;
use jack_types::{Client, Port, PortId, Way};

/// The direction of a port.
pub(crate) fn way_of(port: &Port) -> Way
    ensures { result ≡ way_of port.now }
{
    if port.flags.bits() & 1 == 1 {
        Way::In
    } else {
        Way::Out
    }
}

/// Whether it is a port of the client.
pub(crate) fn is_of(port: &Port, client: &Client) -> bool
    ensures { result ≡ is_of client.now.name port.now }
{
    port.name.client().text() == client.name.text()
}

/// Whether it is the client `system`.
pub(crate) fn is_system(client: &Client) -> bool
    ensures { result ≡ is_system client.now.name }
{
    client.name.text() == "system"
}

// Where the port of this id stands.
fn place_of(ports: &[Port], id: PortId) -> Option<usize>
    ensures { result ≡ position (λ port. port.id.0 == id.0) ports.now }
{
    ports.iter().position(|port| port.id.0 == id.0)
}

/// The port of this id.
#[tactic(auto, using(crate::proofs::PlaceLemmas::port_missing))]
pub(crate) fn port_with(ports: &[Port], id: PortId) -> Option<&Port>
    ensures { option_map (λ port. port.now) result ≡ port_with ports.now id }
{
    let place = place_of(ports, id)?;
    ports.get(place)
}

/// The name of the port of this id.
pub(crate) fn name_with(ports: &[Port], id: PortId) -> &str
    ensures { result.now ≡ name_with ports.now id }
{
    match port_with(ports, id) {
        Some(port) => port.name.text(),
        None => "",
    }
}

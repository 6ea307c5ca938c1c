//! The text of a graph, line by line.

ghost use Rattle.std.specs.Prelude.{◌≡◌, ◌++◌, ◌∷◌, IfOk, flat_map, map, string_bytes};
ghost use Rattle.cycle_plan.specs.Graphs.{state_of};
ghost use Rattle.port_registry.specs.Registered.{open_client, open_clients};
ghost use Rattle.report_reader.specs.Forms.{printed_place};
ghost use Rattle.script_text.specs.Printing.{with_line, with_lines, with_words};
ghost use Rattle.session_graph.specs.Texts.{client_lines, client_slots, connection_slots, cycle_slots, end_slots, graph_text, port_lines, port_slots, shown_kind, transport_slots};
ghost use Rattle.session_model.specs.Ids.{connection, connections, open_port, open_ports};
ghost use Rattle.session_model.specs.Reports.{bbt_word};
ghost use Rattle.session_model.specs.State.{is_system};

use crate::graphs::{is_of, is_system, name_with, way_of};
use crate::kinds::{
    activity_word, end_line, mark_word, put_kind, put_number, put_word, state_word, type_word,
    way_word,
};
use cycle_plan::Graph;
use jack_types::{Client, Edge, Port};
use report_reader::{CycleLine, Place};
use std::alloc::{AllocError, Global};

fn put_cycle(text: &mut String, cycle: &CycleLine) -> Result<(), AllocError>
    ensures { IfOk result (λ _. string_bytes text.new ≡ with_line (string_bytes text.old) (cycle_slots cycle.now)) }
{
    text.push_str("cycle")?;
    put_number(text, cycle.cycle)?;
    put_word(text, "change")?;
    put_number(text, cycle.number)?;
    end_line(text)
}

fn put_shown(text: &mut String, client: &Client) -> Result<(), AllocError>
    ensures { IfOk result (λ _. string_bytes text.new ≡ with_words (string_bytes text.old) (shown_kind (is_system client.now.name) client.now.kind)) }
{
    if is_system(client) {
        put_word(text, "device")
    } else {
        put_kind(text, &client.kind)
    }
}

fn put_client(text: &mut String, client: &Client) -> Result<(), AllocError>
    ensures { IfOk result (λ _. string_bytes text.new ≡ with_line (string_bytes text.old) (client_slots (open_client client.now))) }
{
    text.push_str("client")?;
    put_word(text, client.name.text())?;
    put_shown(text, client)?;
    put_word(text, activity_word(client.active))?;
    end_line(text)
}

fn put_port(text: &mut String, port: &Port) -> Result<(), AllocError>
    ensures { IfOk result (λ _. string_bytes text.new ≡ with_line (string_bytes text.old) (port_slots (open_port port.now))) }
{
    text.push_str("port")?;
    put_word(text, port.name.text())?;
    put_word(text, way_word(way_of(port)))?;
    put_word(text, type_word(port.kind))?;
    end_line(text)
}

fn put_ports(text: &mut String, ports: &[Port], client: &Client) -> Result<(), AllocError>
    ensures { IfOk result (λ _. string_bytes text.new ≡ with_lines (string_bytes text.old) (port_lines (open_ports ports.now) client.now.name)) }
{
    for port in ports {
        if is_of(port, client) {
            put_port(text, port)?;
        }
    }
    Ok(())
}

// A client, and its ports.
fn put_with_ports(text: &mut String, client: &Client, ports: &[Port]) -> Result<(), AllocError>
    ensures { IfOk result (λ _. string_bytes text.new ≡ with_lines (string_bytes text.old) (client_lines (open_ports ports.now) (open_client client.now))) }
{
    put_client(text, client)?;
    put_ports(text, ports, client)
}

fn put_clients(text: &mut String, clients: &[Client], ports: &[Port]) -> Result<(), AllocError>
    ensures { IfOk result (λ _. string_bytes text.new ≡ with_lines (string_bytes text.old) (flat_map (client_lines (open_ports ports.now)) (open_clients clients.now))) }
{
    for client in clients {
        put_with_ports(text, client, ports)?;
    }
    Ok(())
}

fn put_edge(text: &mut String, ports: &[Port], edge: &Edge) -> Result<(), AllocError>
    ensures { IfOk result (λ _. string_bytes text.new ≡ with_line (string_bytes text.old) (connection_slots (connection ports.now edge.now))) }
{
    text.push_str("connected")?;
    put_word(text, name_with(ports, edge.source))?;
    put_word(text, name_with(ports, edge.destination))?;
    put_word(text, mark_word(edge.mark))?;
    end_line(text)
}

fn put_edges(text: &mut String, ports: &[Port], edges: &[Edge]) -> Result<(), AllocError>
    ensures { IfOk result (λ _. string_bytes text.new ≡ with_lines (string_bytes text.old) (map connection_slots (connections ports.now edges.now))) }
{
    for edge in edges {
        put_edge(text, ports, edge)?;
    }
    Ok(())
}

fn put_place(text: &mut String, place: &Option<Place>) -> Result<(), AllocError>
    ensures { IfOk result (λ _. string_bytes text.new ≡ string_bytes text.old ++ 32 ∷ bbt_word (printed_place place.now)) }
{
    match place {
        Some(place) => {
            let bar = place.bar;
            let beat = place.beat;
            let tick = place.tick;
            write!(text, " {bar}|{beat}|{tick}")
        }
        None => put_word(text, "-"),
    }
}

fn put_transport(text: &mut String, cycle: &CycleLine) -> Result<(), AllocError>
    ensures { IfOk result (λ _. string_bytes text.new ≡ with_line (string_bytes text.old) (transport_slots cycle.now)) }
{
    text.push_str("transport")?;
    put_word(text, state_word(cycle.state))?;
    put_number(text, cycle.frame)?;
    put_place(text, &cycle.place)?;
    end_line(text)
}

fn put_end(text: &mut String) -> Result<(), AllocError>
    ensures { IfOk result (λ _. string_bytes text.new ≡ with_line (string_bytes text.old) end_slots) }
{
    text.push_str("end")?;
    end_line(text)
}

/// The text of a graph, and of where the transport stands by the cycle's line.
pub(crate) fn text_of(alloc: Global, graph: &Graph, cycle: &CycleLine) -> Result<String, AllocError>
    ensures { IfOk result (λ text. string_bytes text ≡ graph_text cycle.now (state_of graph.now)) }
{
    let mut text = String::new(alloc);
    let list = graph.ports();
    let ports = list.as_slice();
    put_cycle(&mut text, cycle)?;
    put_clients(&mut text, graph.clients(), ports)?;
    put_edges(&mut text, ports, graph.edges())?;
    put_transport(&mut text, cycle)?;
    put_end(&mut text)?;
    Ok(text)
}

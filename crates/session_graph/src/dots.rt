//! The text of a graph for graphviz.
//!
//! Names go into it as they are. They have letters, digits, `_`, `-` and `.` alone, and in quotes, in a label and in a field none
//! of these means something to graphviz.

use crate::graphs::{is_of, is_system, port_with, way_of};
use crate::kinds::put_kind;
use cycle_plan::Graph;
use jack_types::{Client, Edge, Mark, Node, Port, PortKind, Way};
use report_reader::CycleLine;
use std::alloc::{AllocError, Global};

// The boxes of `system`. No client has a colon in its name.
const CAPTURE: &str = "system:capture";

const PLAYBACK: &str = "system:playback";

// The client's name in a port's.
fn client_part(name: &str) -> &str {
    match name.split_once(':') {
        Some((client, _)) => client,
        None => name,
    }
}

// What stands behind the colon of a port's name.
fn own_part(name: &str) -> &str {
    match name.split_once(':') {
        Some((_, own)) => own,
        None => name,
    }
}

// Whether the client has a port of a direction.
fn has_side(ports: &[Port], client: &Client, way: Way) -> bool {
    ports
        .iter()
        .any(|port| is_of(port, client) && way_of(port) == way)
}

// The fields of a client's ports of a direction, between bars.
fn put_fields(
    text: &mut String,
    ports: &[Port],
    client: &Client,
    way: Way,
) -> Result<(), AllocError> {
    let mut is_first = true;
    for port in ports {
        if is_of(port, client) && way_of(port) == way {
            if !is_first {
                text.push_str("|")?;
            }
            let own = own_part(port.name.text());
            write!(text, "<{own}> {own}")?;
            is_first = false;
        }
    }
    Ok(())
}

// The side of a client's inputs, left of the rest of its box. An empty field would be drawn as a box without a word.
fn put_inputs(text: &mut String, ports: &[Port], client: &Client) -> Result<(), AllocError> {
    if has_side(ports, client, Way::In) {
        text.push_str("{")?;
        put_fields(text, ports, client, Way::In)?;
        text.push_str("}|")?;
    }
    Ok(())
}

// The side of a client's outputs, right of the rest of its box.
fn put_outputs(text: &mut String, ports: &[Port], client: &Client) -> Result<(), AllocError> {
    if has_side(ports, client, Way::Out) {
        text.push_str("|{")?;
        put_fields(text, ports, client, Way::Out)?;
        text.push_str("}")?;
    }
    Ok(())
}

// The words of a kind, with no space before them.
fn put_words(text: &mut String, alloc: Global, client: &Client) -> Result<(), AllocError> {
    let mut words = String::new(alloc);
    put_kind(&mut words, &client.kind)?;
    text.push_str(words.as_str().trim_ascii_start())
}

// A client's box: inputs on the left, the name and the kind, outputs on the right.
fn put_client(
    text: &mut String,
    alloc: Global,
    ports: &[Port],
    client: &Client,
) -> Result<(), AllocError> {
    let name = client.name.text();
    write!(text, "  \"{name}\" [label=\"{{")?;
    put_inputs(text, ports, client)?;
    write!(text, "{name}\\n")?;
    put_words(text, alloc, client)?;
    put_outputs(text, ports, client)?;
    text.push_str("}\"")?;
    if !client.active {
        text.push_str(" color=grey fontcolor=grey")?;
    }
    text.push_str("];\n")
}

// The boxes of `system`: one would make a loop of each way from the capture to the playback.
fn put_system(text: &mut String, ports: &[Port], system: &Client) -> Result<(), AllocError> {
    write!(text, "  \"{CAPTURE}\" [label=\"{{system\\ncapture")?;
    put_outputs(text, ports, system)?;
    write!(text, "}}\"];\n  \"{PLAYBACK}\" [label=\"{{")?;
    put_inputs(text, ports, system)?;
    text.push_str("system\\nplayback}\"];\n")?;
    write!(text, "  {{ rank=source; \"{CAPTURE}\"; }}\n")?;
    write!(text, "  {{ rank=sink; \"{PLAYBACK}\"; }}\n")
}

// The box that a port is in.
fn box_of(port: &Port) -> &str {
    match port.node {
        Node::Capture => CAPTURE,
        Node::Playback => PLAYBACK,
        Node::Client(_) => client_part(port.name.text()),
    }
}

// A port as an end of a connection, with the side of its box: `e` is right, `w` is left.
fn put_end(text: &mut String, port: &Port, side: &str) -> Result<(), AllocError> {
    let place = box_of(port);
    let own = own_part(port.name.text());
    write!(text, "\"{place}\":\"{own}\":{side}")
}

// How a connection is drawn. One that is feedback moves no box.
fn looks(kind: PortKind, mark: Mark) -> &'static str {
    match (kind, mark) {
        (PortKind::Audio, Mark::Direct) => "",
        (PortKind::Midi, Mark::Direct) => " [style=dashed]",
        (PortKind::Audio, Mark::Feedback) => " [color=red style=bold constraint=false]",
        (PortKind::Midi, Mark::Feedback) => " [color=red style=\"bold,dashed\" constraint=false]",
    }
}

fn put_arrow(text: &mut String, ports: &[Port], edge: &Edge) -> Result<(), AllocError> {
    let source = port_with(ports, edge.source);
    let destination = port_with(ports, edge.destination);
    let (Some(source), Some(destination)) = (source, destination) else {
        return Ok(());
    };
    text.push_str("  ")?;
    put_end(text, source, "e")?;
    text.push_str(" -> ")?;
    put_end(text, destination, "w")?;
    text.push_str(looks(source.kind, edge.mark))?;
    text.push_str(";\n")
}

/// The graph as a digraph: a box a client with its ports as fields, inactive ones grey, the two of `system` left and right of all
/// others, and an arrow a connection, dashed where it is of MIDI, red and bold where it is feedback.
pub(crate) fn dot_of(
    alloc: Global,
    graph: &Graph,
    cycle: &CycleLine,
) -> Result<String, AllocError> {
    let mut text = String::new(alloc);
    let list = graph.ports();
    let ports = list.as_slice();
    let k = cycle.cycle;
    let n = cycle.number;
    write!(text, "digraph \"cycle {k}, change {n}\" {{\n")?;
    write!(text, "  label=\"cycle {k}, change {n}\";\n")?;
    text.push_str("  rankdir=LR;\n  node [shape=record];\n")?;
    for client in graph.clients() {
        if is_system(client) {
            put_system(&mut text, ports, client)?;
        } else {
            put_client(&mut text, alloc, ports, client)?;
        }
    }
    for edge in graph.edges() {
        put_arrow(&mut text, ports, edge)?;
    }
    text.push_str("}\n")?;
    Ok(text)
}

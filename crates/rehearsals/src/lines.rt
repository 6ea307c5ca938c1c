//! The lines of a rehearsal's script.

ghost use Rattle.std.specs.Prelude.{◌≡◌, ◌<◌, ◌≤◌, ◌++◌, ◌∷◌, [], IfOk, string_bytes};
ghost use Rattle.rehearsal_laws.specs.Lines.{Adds, capture_line, lines_drawn};
ghost use Rattle.rehearsal_model.specs.Rehearsals.{any_line, chain_line, client_lines, draw, drawn, input_name, kind_by, lane_lines, output_name};
ghost use Rattle.rehearsals.specs.Texts.{end_calls, text_by};

use crate::drawing::draw;
use crate::names::{client, client_of, input, output, port_of};
use crate::texts::text_of;
use jack_types::{Body, Command, Kind, PortKind, PortName, Way};
use rand_pcg::Pcg32;
use std::alloc::{AllocError, Global};

const CLIENTS: u32 = 32;

const CYCLES: u32 = 10_000;

// The kind that a draw chooses.
fn kind_by(rng: &mut Pcg32, choice: u32) -> Kind
    ensures value { result ≡ (kind_by choice rng.old).0 }
    ensures next { rng.new ≡ (kind_by choice rng.old).1 }
{
    match choice {
        0 => Kind::Pass,
        1 => Kind::Gain {
            factor: draw(rng, 512) as i32,
            shift: 8,
        },
        2 => Kind::Mix,
        _ => Kind::Delay {
            frames: draw(rng, 256),
        },
    }
}

fn connect(source: PortName, destination: PortName) -> Command
    ensures { result ≡ Command.Connect source destination }
{
    Command::Connect {
        source,
        destination,
    }
}

fn register(port: PortName, way: Way) -> Body
    ensures { result ≡ Body.Do (Command.Register port way PortKind.Audio) }
{
    Body::Do(Command::Register {
        port,
        way,
        kind: PortKind::Audio,
    })
}

// An active client of a drawn kind, with an input and an output.
fn add_client(lines: &mut Vec<Body>, rng: &mut Pcg32, i: u32) -> Result<(), AllocError>
    requires { i < 32 }
    ensures { IfOk result (λ _. Adds lines.old.items rng.old (client_lines i rng.old) lines.new.items rng.new) }
{
    let choice = draw(rng, 4);
    let kind = kind_by(rng, choice);
    let client = client(i);
    lines.push(Body::Do(Command::Open { client, kind }))?;
    lines.push(register(input(i), Way::In))?;
    lines.push(register(output(i), Way::Out))?;
    lines.push(Body::Do(Command::Activate { client }))?;
    Ok(())
}

// So many clients.
fn add_clients(lines: &mut Vec<Body>, rng: &mut Pcg32, count: u32) -> Result<(), AllocError>
    requires { count ≤ 32 }
    ensures { IfOk result (λ _. Adds lines.old.items rng.old (drawn client_lines count 0 rng.old) lines.new.items rng.new) }
{
    for i in 0..count {
        add_client(lines, rng, i)?;
    }
    Ok(())
}

// A client is fed by one before it.
fn add_feed(lines: &mut Vec<Body>, rng: &mut Pcg32, i: u32) -> Result<(), AllocError>
    requires { (0 < i) × (i < 32) }
    ensures { IfOk result (λ _. Adds lines.old.items rng.old (chain_line i rng.old) lines.new.items rng.new) }
{
    let source = draw(rng, i);
    lines.push(Body::Do(connect(output(source), input(i))))?;
    Ok(())
}

// The clients from the second on, up to this number.
fn add_feeds(lines: &mut Vec<Body>, rng: &mut Pcg32, count: u32) -> Result<(), AllocError>
    requires { count ≤ 31 }
    ensures { IfOk result (λ _. Adds lines.old.items rng.old (drawn chain_line count 1 rng.old) lines.new.items rng.new) }
{
    for i in 0..count {
        add_feed(lines, rng, i + 1)?;
    }
    Ok(())
}

// An output and an input, each of any client.
fn draw_ends(rng: &mut Pcg32) -> (PortName, PortName)
    ensures source { result.0 ≡ output_name (draw 32 rng.old).0 }
    ensures destination { result.1 ≡ input_name (draw 32 (draw 32 rng.old).1).0 }
    ensures next { rng.new ≡ (draw 32 (draw 32 rng.old).1).1 }
{
    let source = draw(rng, CLIENTS);
    let destination = draw(rng, CLIENTS);
    (output(source), input(destination))
}

// Any client feeds any client.
fn add_connection(lines: &mut Vec<Body>, rng: &mut Pcg32) -> Result<(), AllocError>
    ensures { IfOk result (λ _. Adds lines.old.items rng.old (any_line 0 rng.old) lines.new.items rng.new) }
{
    let (source, destination) = draw_ends(rng);
    lines.push(Body::Do(connect(source, destination)))?;
    Ok(())
}

// So many connections.
fn add_connections(lines: &mut Vec<Body>, rng: &mut Pcg32, count: u32) -> Result<(), AllocError>
    ensures { IfOk result (λ _. Adds lines.old.items rng.old (drawn any_line count 0 rng.old) lines.new.items rng.new) }
{
    for _i in 0..count {
        add_connection(lines, rng)?;
    }
    Ok(())
}

// A connection that a lane makes, and takes away 100 cycles later.
fn add_lane_calls(lines: &mut Vec<Body>, rng: &mut Pcg32, i: u32) -> Result<(), AllocError>
    requires { i < 32 }
    ensures { IfOk result (λ _. Adds lines.old.items rng.old (lane_lines i rng.old) lines.new.items rng.new) }
{
    let (source, destination) = draw_ends(rng);
    let made = connect(source, destination);
    let taken = Command::Disconnect {
        source,
        destination,
    };
    lines.push(Body::Lane(1, 100 * (2 * i + 1), made))?;
    lines.push(Body::Lane(1, 100 * (2 * i + 2), taken))?;
    Ok(())
}

// The calls of so many such connections.
fn add_lanes(lines: &mut Vec<Body>, rng: &mut Pcg32, count: u32) -> Result<(), AllocError>
    requires { count ≤ 32 }
    ensures { IfOk result (λ _. Adds lines.old.items rng.old (drawn lane_lines count 0 rng.old) lines.new.items rng.new) }
{
    for i in 0..count {
        add_lane_calls(lines, rng, i)?;
    }
    Ok(())
}

// The first client is fed by the capture.
fn add_capture(lines: &mut Vec<Body>) -> Result<(), AllocError>
    ensures { IfOk result (λ _. lines.new.items ≡ lines.old.items ++ capture_line ∷ []) }
{
    lines.push(Body::Do(connect(port_of("system:capture_1"), input(0))))?;
    Ok(())
}

// The playback is fed by the last client and a drawn one, and the recorder by a third.
fn add_end(lines: &mut Vec<Body>, last: u32) -> Result<(), AllocError>
    requires { last < 32 }
    ensures { IfOk result (λ _. lines.new.items ≡ lines.old.items ++ end_calls last) }
{
    let client = client_of("tape");
    let kind = Kind::Tape { recorder: 0 };
    let tape = port_of("tape:i");
    lines.push(Body::Do(connect(output(31), port_of("system:playback_1"))))?;
    lines.push(Body::Do(connect(output(last), port_of("system:playback_2"))))?;
    lines.push(Body::Do(Command::Open { client, kind }))?;
    lines.push(register(tape, Way::In))?;
    lines.push(Body::Do(Command::Activate { client }))?;
    lines.push(Body::Do(connect(output(15), tape)))?;
    Ok(())
}

/// The text of the script, whose lines are drawn in their order.
pub(crate) fn draw_script(alloc: Global, rng: &mut Pcg32) -> Result<String, AllocError>
    ensures text { IfOk result (λ text. string_bytes text ≡ text_by (lines_drawn rng.old).0) }
    ensures behind { IfOk result (λ _. rng.new ≡ (lines_drawn rng.old).1) }
{
    let mut lines = Vec::new(alloc);
    add_clients(&mut lines, rng, CLIENTS)?;
    add_capture(&mut lines)?;
    add_feeds(&mut lines, rng, CLIENTS - 1)?;
    add_connections(&mut lines, rng, CLIENTS)?;
    let last = draw(rng, CLIENTS);
    add_end(&mut lines, last)?;
    lines.push(Body::Do(Command::Start))?;
    lines.push(Body::Run(CYCLES))?;
    add_lanes(&mut lines, rng, CLIENTS)?;
    text_of(alloc, &lines)
}

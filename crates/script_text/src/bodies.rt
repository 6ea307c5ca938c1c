//! Body lines.

ghost use Rattle.std.specs.Prelude.{◌≡◌, ◌++◌, ◌∷◌, [], IfOk, codes, map, string_bytes};
ghost use Rattle.jack_types.specs.declared.scripts.Body.TheVariants.{Do, Lane};
ghost use Rattle.grammar_laws.specs.session_model.specs.Grammar.{body_slots};
ghost use Rattle.script_text.specs.Printing.{with_line, with_lines};

use crate::commands::put_command;
use crate::words::{end_line, put_number, put_number_line, put_word};
use jack_types::{Body, Command};
use std::alloc::AllocError;

fn put_do(text: &mut String, command: &Command) -> Result<(), AllocError>
    ensures { IfOk result (λ _. string_bytes text.new ≡ with_line (string_bytes text.old) (body_slots (Do command.now))) }
{
    text.push_str("do")?;
    put_command(text, command)?;
    end_line(text)
}

fn put_lane(text: &mut String, lane: u32, begun: u32, command: &Command) -> Result<(), AllocError>
    ensures { IfOk result (λ _. string_bytes text.new ≡ with_line (string_bytes text.old) (body_slots (Lane lane begun command.now))) }
{
    text.push_str("lane")?;
    put_number(text, lane)?;
    put_word(text, "at")?;
    put_number(text, begun)?;
    put_command(text, command)?;
    end_line(text)
}

fn put_body(text: &mut String, body: &Body) -> Result<(), AllocError>
    ensures { IfOk result (λ _. string_bytes text.new ≡ with_line (string_bytes text.old) (body_slots body.now)) }
{
    match body {
        Body::Do(command) => put_do(text, command),
        Body::Run(cycles) => put_number_line(text, "run", *cycles),
        Body::Freewheel(cycles) => put_number_line(text, "freewheel", *cycles),
        Body::Lane(lane, begun, command) => put_lane(text, u32::from(*lane), *begun, command),
        Body::Period(period) => put_number_line(text, "period", *period),
    }
}

pub fn put_bodies(text: &mut String, bodies: &[Body]) -> Result<(), AllocError>
    ensures { IfOk result (λ _. string_bytes text.new ≡ with_lines (string_bytes text.old) (map body_slots bodies.now)) }
{
    for body in bodies {
        put_body(text, body)?;
    }
    Ok(())
}

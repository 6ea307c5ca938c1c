//! All lines of the body.

ghost use Rattle.std.specs.Prelude.{◌≡◌, ◌≤◌, ◌++◌, ◌∷◌, [], MatchResult, Ok, Err};
ghost use Rattle.jack_types.specs.declared.scripts.Cause.TheVariants.{Memory};
ghost use Rattle.grammar_laws.specs.session_model.specs.Reading.{body_lines};
ghost use Rattle.script_body.specs.Bodies.{ReadsAllBy};
ghost use Rattle.script_body.specs.Standings.{body_at, IsSmall, IsWithin, moved};

use crate::line::body_at;
use crate::standing::{Standing, moved, start};
use jack_types::{Body, Cause, Header, ScriptFault};
use script_commands::script_words::{Line, Lines};
use std::alloc::Global;

/// One item more.
fn push_item<T: Drop>(items: &mut Vec<T>, item: T) -> Result<(), Cause>
    ensures { MatchResult result (λ _. items.new.items ≡ items.old.items ++ item ∷ []) (λ cause. cause ≡ Memory) }
{
    match items.push(item) {
        Ok(()) => Ok(()),
        Err(_) => Err(Cause::Memory),
    }
}

/// What the line says, and where the next one stands.
fn step_of(standing: &Standing, header: &Header, line: Line) -> Result<(Body, Standing), Cause>
    requires { IsWithin standing.now }
    ensures { MatchResult result (λ r. (body_at header.now standing.now line.entry.words ≡ Ok r.0) × IsSmall r.0 × (r.1 ≡ moved header.now standing.now r.0)) (λ cause. body_at header.now standing.now line.entry.words ≡ Err cause) }
{
    let body = body_at(line.words, header, standing)?;
    let next = moved(standing, header, &body);
    Ok((body, next))
}

/// Reads the lines of the body, to the text's end.
pub fn read_body(
    alloc: Global,
    header: &Header,
    lines: &mut Lines,
) -> Result<Vec<Body>, ScriptFault>
    requires { header.now.period ≤ 4096 }
    ensures { ReadsAllBy (λ v. v.items) result (body_lines header.now [] lines.old.lines) }
{
    let mut bodies = Vec::new(alloc);
    let mut standing = start(header);
    'lines: while let Some(line) = lines.take() {
        let number = line.number;
        match step_of(&standing, header, line) {
            Ok((body, next)) => {
                standing = next;
                if push_item(&mut bodies, body).is_err() {
                    return Err(ScriptFault {
                        line: number,
                        cause: Cause::Memory,
                    });
                }
            }
            Err(cause) => {
                return Err(ScriptFault {
                    line: number,
                    cause,
                });
            }
        }
    }
    Ok(bodies)
}

//! The parts of a script, read from its bytes.

ghost use Rattle.std.specs.Prelude.{◌≡◌, ◌≤◌, length, map};
ghost use Rattle.script_body.specs.Bodies.{ReadsAllBy};
ghost use Rattle.script_text.specs.session_model.specs.Reading.{script_of, script_of_lines};
ghost use Rattle.script_text.specs.session_model.specs.Texts.{line_after, said};
ghost use Rattle.session_script.specs.Parts.{script_of_parts};

use crate::lists::lists_of;
use jack_types::{Body, Cause, Event, Header, ScriptFault};
use script_body::read_body;
use script_header::read_front;
use script_header::script_words::Lines;
use std::alloc::Global;

const MOST_BYTES: usize = 1048576;

/// What a script's lines say.
#[derive(Drop)]
pub struct Parts {
    pub header: Header,
    pub events: Vec<Vec<(u32, Event)>>,
    pub lines: Vec<Body>,
}

/// Reads the parts, or answers the first fault. `Memory` is on line 0.
pub fn read_parts(alloc: Global, bytes: &[u8]) -> Result<Parts, ScriptFault>
    ensures { ReadsAllBy (λ p. script_of_parts p.header (map (λ list. list.items) p.events.items) p.lines.items) result (script_of bytes.now) }
{
    if bytes.len() > MOST_BYTES {
        return Err(ScriptFault {
            line: 0,
            cause: Cause::TooLong,
        });
    }
    read_lines(alloc, bytes)
}

/// The same of bytes that are not too long.
fn read_lines(alloc: Global, bytes: &[u8]) -> Result<Parts, ScriptFault>
    requires { length bytes.now ≤ 1048576 }
    ensures { ReadsAllBy (λ p. script_of_parts p.header (map (λ list. list.items) p.events.items) p.lines.items) result (script_of_lines (line_after bytes.now) (said bytes.now)) }
{
    let mut lines = Lines::of(bytes);
    let front = match read_front(alloc, &mut lines) {
        Ok(front) => front,
        Err(fault) => return Err(fault),
    };
    let body = match read_body(alloc, &front.header, &mut lines) {
        Ok(body) => body,
        Err(fault) => return Err(fault),
    };
    let events = match lists_of(alloc, front.events.as_slice()) {
        Ok(events) => events,
        Err(_) => {
            return Err(ScriptFault {
                line: 0,
                cause: Cause::Memory,
            });
        }
    };
    Ok(Parts {
        header: front.header,
        events,
        lines: body,
    })
}

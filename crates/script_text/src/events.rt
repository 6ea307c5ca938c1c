//! Event lines.

ghost use Rattle.std.specs.Prelude.{◌≡◌, ◌≤◌, ◌++◌, ◌∷◌, [], All, IfOk, codes, flat_map, length, map, string_bytes};
ghost use Rattle.jack_types.specs.Events.{event_bytes};
ghost use Rattle.grammar_laws.specs.session_model.specs.Grammar.{event_slots};
ghost use Rattle.grammar_laws.specs.session_model.specs.Reports.{hex_byte};
ghost use Rattle.script_text.specs.Printing.{first_lists, with_line, with_lines};

use crate::words::{end_line, put_byte, put_number};
use jack_types::Event;
use std::alloc::AllocError;

const LISTS: u8 = 16;

/// The bytes behind a space, each as two digits.
fn put_hexed(text: &mut String, bytes: &[u8]) -> Result<(), AllocError>
    ensures { IfOk result (λ _. string_bytes text.new ≡ string_bytes text.old ++ 32 ∷ flat_map hex_byte bytes.now) }
{
    text.push_str(" ")?;
    for b in bytes {
        put_byte(text, *b)?;
    }
    Ok(())
}

fn put_event(text: &mut String, list: u8, frame: u32, event: &Event) -> Result<(), AllocError>
    requires { event.now.size ≤ 16 }
    ensures { IfOk result (λ _. string_bytes text.new ≡ with_line (string_bytes text.old) (event_slots (list, (frame, event.now)))) }
{
    text.push_str("event")?;
    put_number(text, u32::from(list))?;
    put_number(text, frame)?;
    put_hexed(text, event.as_slice())?;
    end_line(text)
}

/// The lines of one list.
fn put_list(text: &mut String, list: u8, events: &[(u32, Event)]) -> Result<(), AllocError>
    requires { All (λ item. item.1.size ≤ 16) events.now }
    ensures { IfOk result (λ _. string_bytes text.new ≡ with_lines (string_bytes text.old) (map event_slots (map (λ item. (list, item)) events.now))) }
{
    for (frame, event) in events {
        put_event(text, list, *frame, event)?;
    }
    Ok(())
}

/// The lines of the sixteen lists, list by list.
pub fn put_events(text: &mut String, lists: &[Vec<(u32, Event)>]) -> Result<(), AllocError>
    requires lists { length lists.now ≡ 16 }
    requires sizes { All (λ list. All (λ item. item.1.size ≤ 16) list.items) lists.now }
    ensures { IfOk result (λ _. string_bytes text.new ≡ with_lines (string_bytes text.old) (map event_slots (first_lists (map (λ list. list.items) lists.now) 16))) }
{
    for list in 0..LISTS {
        put_list(text, list, lists[list as usize].as_slice())?;
    }
    Ok(())
}

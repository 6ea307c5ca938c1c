//! The whole text.

ghost use Rattle.std.specs.Prelude.{◌≡◌, ◌≤◌, All, IfOk, length, map, string_bytes};
ghost use Rattle.grammar_laws.specs.session_model.specs.Grammar.{script_text};

use crate::bodies::put_bodies;
use crate::events::put_events;
use crate::header::{put_disks, put_drain, put_fill, put_recorders, put_required, put_ring};
use jack_types::{Body, Event, Header};
use std::alloc::{AllocError, Global};

/// The text of a script of this header, these sixteen lists of events and these body lines.
pub fn printed(
    alloc: Global,
    header: &Header,
    events: &[Vec<(u32, Event)>],
    lines: &[Body],
) -> Result<String, AllocError>
    requires lists { length events.now ≡ 16 }
    requires sizes { All (λ list. All (λ item. item.1.size ≤ 16) list.items) events.now }
    ensures { IfOk result (λ text. string_bytes text ≡ script_text (record { header = header.now; events = map (λ list. list.items) events.now; lines = lines.now })) }
{
    let mut text = String::new(alloc);
    put_required(&mut text, header)?;
    put_ring(&mut text, header.ring)?;
    put_drain(&mut text, header.drain)?;
    put_fill(&mut text, header)?;
    put_recorders(&mut text, header.recorders.as_slice())?;
    put_disks(&mut text, header.disks.as_slice())?;
    put_events(&mut text, events)?;
    put_bodies(&mut text, lines)?;
    Ok(text)
}

//! The text of a rehearsal's script.

ghost use Rattle.std.specs.Prelude.{◌≡◌, ◌≤◌, All, IfOk, map, string_bytes};
ghost use Rattle.rehearsal_model.specs.Rehearsals.{no_events, rehearsal_header};
ghost use Rattle.rehearsals.specs.Texts.{text_by};

use jack_types::{Body, Disks, Event, Format, Header, Recorders};
use script_text::printed;
use std::alloc::{AllocError, Global};

const LISTS: u32 = 16;

const RECORDER: Format = Format {
    rate: 48_000,
    channels: 1,
    bits: 16,
};

fn header() -> Header
    ensures { result ≡ rehearsal_header }
{
    Header {
        version: 1,
        rate: 48_000,
        period: 64,
        capture: 2,
        playback: 2,
        bits: 16,
        threads: None,
        steal: false,
        ring: 16,
        drain: 16,
        fill: 4,
        recorders: Recorders::of(&[RECORDER]),
        disks: Disks::of(&[]),
    }
}

// The sixteen lists of events, which are empty.
fn no_events(alloc: Global) -> Result<Vec<Vec<(u32, Event)>>, AllocError>
    ensures lists { IfOk result (λ lists. map (λ list. list.items) lists.items ≡ no_events) }
    ensures sizes { IfOk result (λ lists. All (λ list. All (λ item. item.1.size ≤ 16) list.items) lists.items) }
{
    let mut lists = Vec::new(alloc);
    for _list in 0..LISTS {
        lists.push(Vec::<(u32, Event)>::new(alloc))?;
    }
    Ok(lists)
}

/// The text of a script of these lines.
pub(crate) fn text_of(alloc: Global, lines: &[Body]) -> Result<String, AllocError>
    ensures { IfOk result (λ text. string_bytes text ≡ text_by lines.now) }
{
    let events = no_events(alloc)?;
    printed(alloc, &header(), &events, lines)
}

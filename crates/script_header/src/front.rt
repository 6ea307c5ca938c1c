//! All lines in front of the body.

ghost use Rattle.std.specs.Prelude.{◌≡◌, ◌<◌, ◌≤◌, All, IfOk};
ghost use Rattle.script_header.specs.Fronts.{front_of};
ghost use Rattle.script_header.specs.LineReads.{ReadsLineBy};

use crate::events::{Item, events};
use crate::lists::{disks, recorders};
use crate::optional::optional_lines;
use crate::required::required_lines;
use jack_types::{Header, ScriptFault};
use script_commands::script_words::Lines;
use std::alloc::Global;

/// The header, and the events in the order of their lines, each with its list and its frame.
#[derive(Drop)]
pub struct Front {
    pub header: Header,
    pub events: Vec<Item>,
}

/// Reads the lines in front of the body, and leaves those of the body.
pub fn read_front(alloc: Global, lines: &mut Lines) -> Result<Front, ScriptFault>
    ensures gives { ReadsLineBy (λ f. (f.header, f.events.items)) result lines.new.lines (front_of lines.old.end lines.old.lines) }
    ensures period { IfOk result (λ f. f.header.period ≤ 4096) }
    ensures lists { IfOk result (λ f. All (λ item. item.0 < 16) f.events.items) }
{
    let required = required_lines(lines)?;
    let is_new = required.version == 3;
    let optional = optional_lines(lines, is_new)?;
    let recorders = recorders(lines, required.rate)?;
    let disks = disks(lines, is_new)?;
    let events = events(alloc, lines, is_new)?;
    let header = Header {
        version: required.version,
        rate: required.rate,
        period: required.period,
        capture: required.capture,
        playback: required.playback,
        bits: required.bits,
        threads: required.threads,
        steal: required.steal,
        ring: optional.ring,
        drain: optional.drain,
        fill: optional.fill,
        recorders,
        disks,
    };
    Ok(Front { header, events })
}

//! The event lines.

ghost use Rattle.std.specs.Prelude.{◌≡◌, ◌+◌, ◌<◌, ◌≤◌, All, Bool, IfOk, ℕ, List, [], codes, length, pos, slice_index};
ghost use Rattle.jack_types.specs.declared.scripts.Many.TheVariants.{Events as TheEvents};
ghost use Rattle.script_commands.specs.script_words.specs.Reads.{Reads};
ghost use Rattle.grammar_laws.specs.session_model.specs.Reading.{at_line, event, several};
ghost use Rattle.script_header.specs.Fronts.{event_behind, events_of};
ghost use Rattle.script_header.specs.LineReads.{ReadsLineBy, wholly};

use crate::required::fault;
use jack_types::{Cause, Event, Many, ScriptFault};
use script_commands::script_words::{Line, Lines, Words};
use std::alloc::Global;

/// An event with its list and its frame.
pub type Item = (u8, (u32, Event));

const LISTS: usize = 16;

const MOST_EVENTS: usize = 4096;

const TOO_MANY_EVENTS: Cause = Cause::TooMany {
    what: Many::Events,
    limit: 4096,
};

/// An event line's words, where the frames of the lists' last events are given.
fn event_behind(words: &mut Words, last: &[u32]) -> Result<Item, Cause>
    requires { length last.now ≡ 16 }
    ensures gives { Reads result words.new (event_behind last.now words.old) }
    ensures list { IfOk result (λ item. item.0 < 16) }
{
    let list = words.number(0, 15)?;
    let frame = words.number(0, 2147483647)?;
    let before = last[list as usize];
    if (frame as u32) < before {
        return Err(Cause::Range {
            given: frame as i64,
            least: i64::from(before),
            most: 2147483647,
        });
    }
    let event = words.event()?;
    Ok((list as u8, (frame as u32, event)))
}

fn whole_event(words: &mut Words, last: &[u32]) -> Result<Item, Cause>
    requires { length last.now ≡ 16 }
    ensures gives { result ≡ wholly (event_behind last.now) words.old }
    ensures list { IfOk result (λ item. item.0 < 16) }
{
    let item = event_behind(words, last)?;
    if !words.is_empty() {
        return Err(Cause::Words);
    }
    Ok(item)
}

/// What an event line says.
fn event_in(mut line: Line, last: &[u32]) -> Result<Item, ScriptFault>
    requires { length last.now ≡ 16 }
    ensures gives { result ≡ at_line line.entry.number (wholly (event_behind last.now) line.entry.words) }
    ensures list { IfOk result (λ item. item.0 < 16) }
{
    match whole_event(&mut line.words, last) {
        Ok(item) => Ok(item),
        Err(cause) => Err(fault(line.number, cause)),
    }
}

/// The event lines in front.
fn some_events(alloc: Global, lines: &mut Lines) -> Result<Vec<Item>, ScriptFault>
    ensures gives { ReadsLineBy (λ v. v.items) result lines.new.lines (several TheEvents 4096 (codes "event") event [] lines.old.lines) }
    ensures lists { IfOk result (λ v. All (λ item. item.0 < 16) v.items) }
    ensures end { lines.new.end ≡ lines.old.end }
{
    let mut found = Vec::new(alloc);
    let mut last = [0; LISTS];
    'lines: while let Some(line) = lines.take_begun(b"event".as_slice()) {
        let number = line.number;
        let item = match event_in(line, &last) {
            Ok(item) => item,
            Err(fault) => return Err(fault),
        };
        if found.len() >= MOST_EVENTS {
            return Err(fault(number, TOO_MANY_EVENTS));
        }
        match found.push(item) {
            Ok(()) => last[item.0 as usize] = item.1.0,
            Err(_) => return Err(fault(number, Cause::Memory)),
        }
    }
    Ok(found)
}

/// The event lines in front, which are of version 3.
pub fn events(alloc: Global, lines: &mut Lines, is_new: bool) -> Result<Vec<Item>, ScriptFault>
    ensures gives { ReadsLineBy (λ v. v.items) result lines.new.lines (events_of is_new lines.old.lines) }
    ensures lists { IfOk result (λ v. All (λ item. item.0 < 16) v.items) }
    ensures end { lines.new.end ≡ lines.old.end }
{
    if is_new {
        return some_events(alloc, lines);
    }
    Ok(Vec::new(alloc))
}

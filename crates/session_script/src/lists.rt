//! The lists of events.

ghost use Rattle.std.specs.Prelude.{◌≡◌, IfOk, map};
ghost use Rattle.session_script.specs.Parts.{list_of, lists_below};

use jack_types::Event;
use script_header::Item;
use std::alloc::{AllocError, Global};

const LISTS: u8 = 16;

/// The events of a list, in the order of their lines.
fn list_of(alloc: Global, list: u8, found: &[Item]) -> Result<Vec<(u32, Event)>, AllocError>
    ensures { IfOk result (λ v. v.items ≡ list_of list found.now) }
{
    let mut events = Vec::new(alloc);
    for item in found {
        if item.0 == list {
            events.push(item.1)?;
        }
    }
    Ok(events)
}

/// The sixteen lists of the events.
pub fn lists_of(alloc: Global, found: &[Item]) -> Result<Vec<Vec<(u32, Event)>>, AllocError>
    ensures { IfOk result (λ v. map (λ list. list.items) v.items ≡ lists_below 16 found.now) }
{
    let mut lists = Vec::new(alloc);
    for list in 0..LISTS {
        let events = list_of(alloc, list, found)?;
        lists.push(events)?;
    }
    Ok(lists)
}

/// The lists anew.
pub fn copies_of(
    alloc: Global,
    lists: &[Vec<(u32, Event)>],
) -> Result<Vec<Vec<(u32, Event)>>, AllocError>
    ensures { IfOk result (λ v. map (λ list. list.items) v.items ≡ map (λ list. list.items) lists.now) }
{
    let mut copies = Vec::new(alloc);
    for list in lists {
        let copy = Vec::from_slice(alloc, list.as_slice())?;
        copies.push(copy)?;
    }
    Ok(copies)
}

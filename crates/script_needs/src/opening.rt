//! Which clients a script opens, and how many guests they ask for.

ghost use Rattle.std.specs.Prelude.{◌≡◌, ◌++◌, ◌∷◌, IfOk, OnOk, [], filter_map, fold};
ghost use Rattle.task_laws.specs.Calls.{guest_bound as bound_of_kind, guests_needed, kind_opened, open_kinds};
ghost use Rattle.script_needs.specs.Lines.{guests_on, kind_on, more_guests};

use jack_types::{Body, Command, Kind, Memory};
use session_script::Script;
use std::alloc::Global;

/// The kind of the client that a command opens, if it does.
fn kind_opened(command: &Command) -> Option<Kind>
    ensures { result ≡ kind_opened command.now }
{
    match command {
        Command::Open { kind, .. } => Some(*kind),
        _ => None,
    }
}

/// The kind of the client that a line's call opens, if it does.
fn kind_on(line: &Body) -> Option<Kind>
    ensures { result ≡ kind_on line.now }
{
    match line {
        Body::Do(command) => kind_opened(command),
        Body::Lane(_, _, command) => kind_opened(command),
        _ => None,
    }
}

/// How many guests there have to be for a client of this kind.
fn guest_bound(kind: Kind) -> u32
    ensures { result ≡ bound_of_kind kind }
{
    match kind {
        Kind::Guest { guest } => u32::from(guest) + 1,
        _ => 0,
    }
}

/// How many guests there have to be for a line's call.
fn guests_on(line: &Body) -> u32
    ensures { result ≡ guests_on line.now }
{
    match kind_on(line) {
        Some(kind) => guest_bound(kind),
        None => 0,
    }
}

/// One kind more.
fn keep_kind(kinds: &mut Vec<Kind>, kind: Kind) -> Result<(), Memory>
    ensures { OnOk result (kinds.new.items ≡ kinds.old.items ++ kind ∷ []) }
{
    match kinds.push(kind) {
        Ok(()) => Ok(()),
        Err(_) => Err(Memory),
    }
}

/// The kinds of the clients that lines open, in their order.
fn kinds_on(alloc: Global, lines: &[Body]) -> Result<Vec<Kind>, Memory>
    ensures { IfOk result (λ kinds. kinds.items ≡ filter_map kind_on lines.now) }
{
    let mut kinds = Vec::new(alloc);
    for line in lines {
        if let Some(kind) = kind_on(line) {
            keep_kind(&mut kinds, kind)?;
        }
    }
    Ok(kinds)
}

/// How many guests there have to be for lines.
fn guests_behind(lines: &[Body]) -> u32
    ensures { result ≡ fold more_guests 0 lines.now }
{
    let mut needed = 0;
    for line in lines {
        needed = needed.max(guests_on(line));
    }
    needed
}

/// The kinds of the clients that a script opens, in the order of its calls: one for each `open` call, be it accepted or
/// not.
pub fn open_kinds(alloc: Global, script: &Script) -> Result<Vec<Kind>, Memory>
    ensures { IfOk result (λ kinds. kinds.items ≡ open_kinds script.now) }
{
    kinds_on(alloc, script.lines())
}

/// How many guests a session of the script needs: one more than the greatest number of a guest that it opens a client
/// for, and 0 where it opens none.
pub fn guests(script: &Script) -> u32
    ensures { result ≡ guests_needed script.now }
{
    guests_behind(script.lines())
}

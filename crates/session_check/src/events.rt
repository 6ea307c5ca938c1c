//! The tests of the events' lines.

ghost use Rattle.std.specs.Prelude.{◌≡◌, ◌+◌, ◌<◌, ◌≤◌, ◌^◌, ℕ, IfErr, IfOk, None, Some, length, map};
ghost use Rattle.std.specs.Str.{bytes_eq};
ghost use Rattle.driver_laws.specs.Drivers.{run};
ghost use Rattle.report_reader.specs.Forms.{printed_event};
ghost use Rattle.check_model.specs.Checking.{IsFirstNot, SameAt};
ghost use Rattle.session_model.specs.Courses.{Course};
ghost use Rattle.session_model.specs.Scripts.{turns};
ghost use Rattle.check_walk.specs.Walkings.{GoesAlong, driver_in};
ghost use Rattle.session_check.specs.Logs.{DepartsAt, GoesBehind, events_in, events_of, is_event, log_in as log_opened};

use check_parts::part_laws::laws::lists_by_places;
use check_walk::Walk;
use client_kinds::Guest;
use jack_host::Source;
use jack_types::{Change, ClientName, Command, Kind, Logged};
use report_reader::EventLine;

/// The client of an accepted `open` of a log.
pub(crate) fn log_in(change: &Change) -> Option<ClientName>
    ensures { result ≡ log_opened change.now.command }
{
    match &change.command {
        Command::Open {
            client,
            kind: Kind::Midilog,
        } => Some(*client),
        _ => None,
    }
}

/// Whether an event's line is of this client.
pub(crate) fn is_of(row: &EventLine, client: &ClientName) -> bool
    ensures { result ≡ bytes_eq row.now.client client.now }
{
    row.client.text() == client.text()
}

/// Whether an event's line tells this event of this client's log.
fn is_told(row: &EventLine, client: &ClientName, logged: &Logged) -> bool
    ensures { result ≡ is_event row.now client.now logged.now }
{
    if !is_of(row, client) {
        return false;
    }
    if row.cycle != u64::from(logged.cycle) {
        return false;
    }
    if row.offset != u64::from(logged.event.offset) {
        return false;
    }
    if row.event.size != logged.event.size {
        return false;
    }
    row.event.bytes.0.as_slice() == logged.event.bytes.0.as_slice()
}

/// Goes on behind the lines of a client's log: to the next place, or to that of the first line that is not right, or missing.
fn behind_log(
    client: &ClientName,
    log: &[Logged],
    rows: &[EventLine],
    place: usize,
) -> Result<usize, usize>
    requires { place ≤ length rows.now }
    ensures told { IfOk result (GoesBehind (map printed_event rows.now) place (events_of client.now log.now)) }
    ensures wrong { IfErr result (DepartsAt (map printed_event rows.now) place (events_of client.now log.now)) }
{
    let mut next = place;
    for at in 0..log.len() {
        let logged = log[at];
        if next >= rows.len() {
            return Err(next);
        }
        if !is_told(&rows[next], client, &logged) {
            return Err(next);
        }
        next += 1;
    }
    Ok(next)
}

/// The number of the first event's line that is not right, or that is missing, or too many.
pub(crate) fn wrong_event<S: Source, G: Guest>(
    changes: &[Change],
    walk: &Walk<S, G>,
    rows: &[EventLine],
) -> Option<u32>
    requires few { length rows.now + 1 < 2 ^ 32 }
    ensures right { result ≡ None → (course : Course) → GoesAlong G.sound course walk.now
        → run (driver_in G.sound walk.now) ≡ length (turns course.script)
        → map printed_event rows.now ≡ events_in course changes.now }
    ensures wrong { (n : ℕ) → result ≡ Some n → (course : Course) → GoesAlong G.sound course walk.now
        → run (driver_in G.sound walk.now) ≡ length (turns course.script)
        → IsFirstNot (SameAt (map printed_event rows.now) (events_in course changes.now)) n }
{
    lists_by_places();
    let mut place = 0;
    for at in 0..changes.len() {
        let change = changes[at];
        if let Some(client) = log_in(&change) {
            let log = walk.log(change.number);
            match behind_log(&client, log, rows, place) {
                Ok(next) => place = next,
                Err(wrong) => return Some(wrong as u32 + 1),
            }
        }
    }
    if place < rows.len() {
        return Some(place as u32 + 1);
    }
    None
}

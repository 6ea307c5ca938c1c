//! The report of a session.

ghost use Rattle.std.specs.Prelude.{◌≡◌, ◌≤◌, ◌∷◌, [], All, false, flat_map, length, map, slice_index_or};
ghost use Rattle.jack_host.specs.Bytes.{Puts};
ghost use Rattle.jack_host.specs.Causes.{HasCause};
ghost use Rattle.jack_types.specs.Events.{IsEvent};
ghost use Rattle.jack_types.specs.declared.commands.Change.{Change as ChangeValue};
ghost use Rattle.jack_types.specs.declared.events.Logged.{Logged as LoggedValue};
ghost use Rattle.session_model.specs.Histories.{accepted};
ghost use Rattle.session_model.specs.Reports.{disk_lines, event_line, meter_line, recorder_lines};
ghost use Rattle.session_model.specs.Samples.{below};
ghost use Rattle.report_lines.specs.Outputs.{overruns_on, text_of, underruns_on};
ghost use Rattle.recorder_files.specs.Recorders.{Recording};
ghost use Rattle.driver_laws.specs.Keeping.{AreOfCalls};
ghost use Rattle.session_works.specs.RunWords.{events_from, IsMet, IsOne, meters_from, text_in};
ghost use Rattle.session_works.specs.Drivers.{driver_of};
ghost use Rattle.session_works.specs.Insides.{seen};
ghost use Rattle.session_works.specs.Parts.{session_of};
ghost use Rattle.session_works.specs.Standings.{HasEnded};

use client_kinds::Guest;
use jack_host::{Failed, Sink, Source, Store, WriteFailed};
use jack_types::{ClientName, Command, Entry, Kind, Logged, Overrun, Reply};
use recorder_files::Recorder;
use report_lines::{
    put_calls, put_cycles, put_disk, put_end, put_event, put_meter, put_recorder, put_title,
};
use session_works::passed::accepted_of_legal;
use session_works::{Driver, SessionParts, SessionWorks};

/// Puts the line of the meter that a call opened, if it opened one.
fn put_meter_of<K: Sink, S: Source, W: Store, G: Guest>(
    out: &mut K,
    entry: &Entry,
    driver: &Driver<S, W, G>,
) -> Result<(), Failed>
    ensures puts { Puts (K.content out.old) (K.content out.new) result (text_of (map meter_line (flat_map (λ (change : ChangeValue). meters_from (driver_of G.sound driver.now) change.number change.command) (accepted (entry.now ∷ []))))) }
    ensures cause { HasCause (K.faults out.old) (K.faults out.new) result }
{
    let Reply::Accepted(number) = entry.reply else {
        return Ok(());
    };
    match &entry.call.command {
        Command::Open {
            client,
            kind: Kind::Meter,
        } => { put_meter(out, client, driver.peak(number)) }
        _ => Ok(()),
    }
}

/// Puts the lines of all meters that were opened, in the order of opening.
fn put_meters<K: Sink, S: Source, W: Store, G: Guest>(
    out: &mut K,
    history: &[Entry],
    driver: &Driver<S, W, G>,
) -> Result<(), Failed>
    ensures puts { Puts (K.content out.old) (K.content out.new) result (text_of (map meter_line (flat_map (λ (change : ChangeValue). meters_from (driver_of G.sound driver.now) change.number change.command) (accepted history.now)))) }
    ensures cause { HasCause (K.faults out.old) (K.faults out.new) result }
{
    for entry in history {
        put_meter_of(out, entry, driver)?;
    }
    Ok(())
}

/// Puts a line for each event that a client logged, in the order of logging.
fn put_log<K: Sink>(out: &mut K, client: &ClientName, log: &[Logged]) -> Result<(), Failed>
    requires { All (λ (logged : LoggedValue). IsEvent logged.event) log.now }
    ensures puts { Puts (K.content out.old) (K.content out.new) result (text_of (map event_line (map (λ (logged : LoggedValue). record { client = client.now; logged = logged }) log.now))) }
    ensures cause { HasCause (K.faults out.old) (K.faults out.new) result }
{
    for logged in log {
        put_event(out, client, logged)?;
    }
    Ok(())
}

/// Puts the lines of the log that a call opened, if it opened one.
fn put_event_of<K: Sink, S: Source, W: Store, G: Guest>(
    out: &mut K,
    entry: &Entry,
    driver: &Driver<S, W, G>,
) -> Result<(), Failed>
    requires { AreOfCalls driver.now.script driver.now.stage.plan.changes }
    ensures puts { Puts (K.content out.old) (K.content out.new) result (text_of (map event_line (flat_map (λ (change : ChangeValue). events_from (driver_of G.sound driver.now) change.number change.command) (accepted (entry.now ∷ []))))) }
    ensures cause { HasCause (K.faults out.old) (K.faults out.new) result }
{
    let Reply::Accepted(number) = entry.reply else {
        return Ok(());
    };
    match &entry.call.command {
        Command::Open {
            client,
            kind: Kind::Midilog,
        } => { put_log(out, client, driver.log(number)) }
        _ => Ok(()),
    }
}

/// Puts the lines of all logs that were opened, in the order of opening.
fn put_events<K: Sink, S: Source, W: Store, G: Guest>(
    out: &mut K,
    history: &[Entry],
    driver: &Driver<S, W, G>,
) -> Result<(), Failed>
    requires { AreOfCalls driver.now.script driver.now.stage.plan.changes }
    ensures puts { Puts (K.content out.old) (K.content out.new) result (text_of (map event_line (flat_map (λ (change : ChangeValue). events_from (driver_of G.sound driver.now) change.number change.command) (accepted history.now)))) }
    ensures cause { HasCause (K.faults out.old) (K.faults out.new) result }
{
    for entry in history {
        put_event_of(out, entry, driver)?;
    }
    Ok(())
}

/// Puts the lines of all recorders.
fn put_recorders<K: Sink, W: Store>(
    out: &mut K,
    recorders: &[Recorder<W>],
    overruns: &[Overrun],
) -> Result<(), Failed>
    requires { length recorders.now ≤ 4 }
    ensures puts { Puts (K.content out.old) (K.content out.new) result (text_of (flat_map recorder_lines (map (λ i. record { recorder = i; blocks = slice_index_or (map (λ (r : Recording). r.blocks) recorders.now) i 0; overruns = overruns_on overruns.now i }) (below (length recorders.now))))) }
    ensures cause { HasCause (K.faults out.old) (K.faults out.new) result }
{
    for recorder in 0..recorders.len() {
        put_recorder(out, recorder as u8, recorders[recorder].blocks(), overruns)?;
    }
    Ok(())
}

/// Puts the lines of all disks, of which there are so many.
fn put_disks<K: Sink, S: Source, W: Store, G: Guest>(
    out: &mut K,
    driver: &Driver<S, W, G>,
    disks: usize,
) -> Result<(), Failed>
    requires { (disks ≡ length driver.now.disks.disks) × (disks ≤ 4) }
    ensures puts { Puts (K.content out.old) (K.content out.new) result (text_of (flat_map disk_lines (map (λ i. record { disk = i; blocks = slice_index_or driver.now.disks.played i 0; underruns = underruns_on driver.now.disks.underruns i }) (below disks)))) }
    ensures cause { HasCause (K.faults out.old) (K.faults out.new) result }
{
    let underruns = driver.underruns();
    for disk in 0..disks {
        let played = driver.disk_played(disk as u8);
        put_disk(out, disk as u8, played, underruns)?;
    }
    Ok(())
}

/// Puts the report of what the desk called, and the driver and the recorders kept.
fn put_report<K: Sink, S: Source, W: Store, G: Guest>(
    out: &mut K,
    works: &SessionWorks<S, W, G>,
) -> Result<(), Failed>
    requires one { IsOne (seen G.sound works.now) }
    requires met { IsMet (seen G.sound works.now) }
    requires sound { works.now.driver.failed ≡ false }
    ensures puts { Puts (K.content out.old) (K.content out.new) result (text_in (seen G.sound works.now)) }
    ensures cause { HasCause (K.faults out.old) (K.faults out.new) result }
{
    accepted_of_legal();
    let driver = &works.driver;
    let history = works.desk.history();
    put_title(out)?;
    put_calls(out, history)?;
    put_cycles(out, driver.numbers(), driver.moments())?;
    put_meters(out, history, driver)?;
    put_events(out, history, driver)?;
    put_recorders(out, works.recorders.as_slice(), driver.overruns())?;
    put_disks(out, driver, works.readers.len())?;
    put_end(out)
}

/// Puts the report: the calls with their replies, the cycles with the number of changes that each used and the transport, the
/// meters with their peaks, the events that were logged, the recorders with their overruns, and the disks with their underruns.
pub fn report<K: Sink, S: Source, W: Store, G: Guest>(
    out: &mut K,
    parts: &SessionParts<S, W, G>,
) -> Result<(), WriteFailed>
    requires { HasEnded G.sound parts.now }
    ensures puts { Puts (K.content out.old) (K.content out.new) result (text_in (session_of G.sound parts.now)) }
    ensures cause { HasCause (K.faults out.old) (K.faults out.new) result }
{
    match put_report(out, &parts.works) {
        Ok(()) => Ok(()),
        Err(_) => Err(WriteFailed),
    }
}

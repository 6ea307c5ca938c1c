//! The reason of an exit code, on standard error.

use crate::checks::{hint_of_wrong, reason_of_wrong};
use host_files::{FailureKind, FileHost, WriterSink};
use host_listener::ListeningHost;
use lost_blocks::{Losses, Owner};
use play_inputs::{Difference, Status, What};
use play_words::{CheckNames, Names, check_names, play_names, rehearsal_number};
use refused_calls::Notes;
use report_listener::ListeningSink;
use std::alloc::{AllocError, Global};
use std::env::{Env, FillError};
use std::fs::{File, Files};
use std::os::unix::fs::MetadataExt;
use std::{fs, io};
use told_reasons::{
    Capture, Reason, of_capture, of_channels, of_closing, of_disk_channels, of_disks, of_fills,
    of_foreign_word, of_graph, of_guests, of_input, of_lost_blocks, of_making, of_open_output,
    of_rate, of_records, of_refusals, of_report, of_rings, of_script, of_summary, of_underruns,
    of_verdict, of_wave, of_words, of_writing, of_wrong, read_again, standing_in,
};

/// The reason of exit code 1.
pub const NO_MEMORY: &str = "jackd: out of memory; no file was made\n";

// What is told where no memory is left for the reason.
const UNTOLD: &str = "jackd: no memory is left to tell the reason\n";

/// The most bytes of a report that are read again.
pub(crate) const MOST_OF_REPORT: usize = 1_048_576;

/// The most bytes of a script that are read: one more than it may have.
pub const MOST_OF_SCRIPT: usize = 1_048_577;

/// How many first bytes of a capture tell what it is.
pub const MOST_OF_CAPTURE: usize = 65_536;

/// The bytes of the header of a file that is made.
pub(crate) const HEADER: usize = 44;

// The places of the script and of the capture among the files that a command opens. Behind them a play opens its disk files.
const OF_SCRIPT: usize = 0;

const OF_CAPTURE: usize = 1;

// How many first bytes tell what a file is that is no WAVE file.
const MARK: usize = 4;

// The most bytes of a word that is no UTF-8 that are told.
const MOST_OF_WORD: usize = 4096;

/// A reason, where there is one.
pub type Told = Result<Option<Reason>, AllocError>;

/// Tells on standard error why a call ended as it did, and of a play that ended well which calls were refused, which blocks
/// were lost, which disks had underruns, and whether its capture fits. The host has heard the script and the capture.
pub fn tell<R: Files<File = File> + Env + AllocGlobal + Eprint, W>(
    rt: &R,
    words: &[String],
    host: &ListeningHost<FileHost<'_, R>>,
    out: &ListeningSink<WriterSink<W>>,
    status: Status,
) {
    print_told(rt, &reason_of(rt, words, host, out, status));
    print_told(rt, &hint_of(rt, words, front_of(host, OF_SCRIPT), status));
    if let (Status::Ok, Some(names)) = (status, play_names(words)) {
        tell_losses(rt, &names, front_of(host, OF_SCRIPT), out.losses());
        tell_underruns(rt, &names, front_of(host, OF_SCRIPT), out.losses());
        print_told(rt, &reason_of_capture(rt, &names, host));
    }
}

// What was read of the script or of the capture, as far as it is kept.
fn front_of<H>(host: &ListeningHost<H>, place: usize) -> &[u8] {
    match host.front(place) {
        Some(front) => front.as_bytes(),
        None => b"".as_slice(),
    }
}

// Tells of each recorder that lost blocks, and how none is lost.
fn tell_losses<R: AllocGlobal + Eprint>(rt: &R, names: &Names<'_>, script: &[u8], losses: &Losses) {
    let mut are_lost = false;
    for place in 0..names.records() {
        let stream = losses.of(Owner::Recorder(place));
        if stream.missed > 0 {
            are_lost = true;
            let reason = of_lost_blocks(rt.alloc(), names.record(place), script, stream);
            print_told(rt, &told(reason));
        }
    }
    if are_lost {
        print_told(rt, &told(of_rings(rt.alloc(), script)));
    }
}

// Tells of each disk that had underruns, and how there is none.
fn tell_underruns<R: AllocGlobal + Eprint>(
    rt: &R,
    names: &Names<'_>,
    script: &[u8],
    losses: &Losses,
) {
    let mut are_late = false;
    for place in 0..names.disks() {
        let stream = losses.of(Owner::Disk(place));
        if stream.missed > 0 {
            are_late = true;
            let reason = of_underruns(rt.alloc(), names.disk(place), script, stream);
            print_told(rt, &told(reason));
        }
    }
    if are_late {
        print_told(rt, &told(of_fills(rt.alloc(), script)));
    }
}

// A reason that there is in any case, unless no memory is left for it.
fn told(reason: Result<Reason, AllocError>) -> Told {
    Ok(Some(reason?))
}

fn reason_of_capture<R: Files<File = File> + AllocGlobal>(
    rt: &R,
    names: &Names<'_>,
    host: &ListeningHost<FileHost<'_, R>>,
) -> Told {
    let Some(front) = host.front(OF_CAPTURE) else {
        return Ok(None);
    };
    let capture = Capture {
        name: names.capture,
        front: front.as_bytes(),
        read: front.count(),
        length: length_of(rt, names.capture),
    };
    of_capture(rt.alloc(), capture, front_of(host, OF_SCRIPT))
}

/// Tells on standard error why no graph was put out.
pub fn tell_graph<R: Files<File = File> + Env + AllocGlobal + Eprint, W>(
    rt: &R,
    words: &[String],
    host: &FileHost<'_, R>,
    out: &WriterSink<W>,
    status: Status,
) {
    print_told(rt, &reason_of_graph(rt, words, host, out, status));
}

/// Tells a reason on standard error.
pub fn print_told(rt: &impl Eprint, told: &Told) {
    let _ = match told {
        Ok(Some(reason)) => print(rt, reason),
        Ok(None) => Ok(()),
        Err(_) => rt.eprint(UNTOLD),
    };
}

fn print(rt: &impl Eprint, reason: &Reason) -> io::Result<()> {
    match str::from_utf8(reason.as_bytes()) {
        Ok(text) => rt.eprint(text),
        Err(_) => rt.eprint(UNTOLD),
    }
}

// What may have led to a wrong part.
fn hint_of<R: Files<File = File> + AllocGlobal>(
    rt: &R,
    words: &[String],
    script: &[u8],
    status: Status,
) -> Told {
    match (status, check_names(words)) {
        (Status::Wrong(row, sight), Some(names)) => {
            hint_of_wrong(rt, rt.alloc(), &names, script, row, sight)
        }
        _ => Ok(None),
    }
}

fn reason_of<R: Files<File = File> + Env + AllocGlobal + Eprint, W>(
    rt: &R,
    words: &[String],
    host: &ListeningHost<FileHost<'_, R>>,
    out: &ListeningSink<WriterSink<W>>,
    status: Status,
) -> Told {
    if status == Status::NoMemory {
        let _ = rt.eprint(NO_MEMORY);
        return Ok(None);
    }
    let alloc = rt.alloc();
    if rehearsal_number(words).is_some() {
        return reason_of_summary(alloc, out.inner());
    }
    if let Some(names) = check_names(words) {
        return reason_of_check(rt, &names, host, out.inner(), status);
    }
    let Some(names) = play_names(words) else {
        return reason_of_words(rt, words);
    };
    match status {
        Status::Ok => reason_of_refusals(alloc, &names, front_of(host, OF_SCRIPT), out.notes()),
        Status::ReadFault => reason_of_reading(alloc, host.inner()),
        Status::WriteFault => reason_of_output(rt, alloc, &names, host.inner(), out.inner()),
        _ => reason_of_given(rt, alloc, &names, host, status),
    }
}

fn reason_of_check<R: Files<File = File> + AllocGlobal, W>(
    rt: &R,
    names: &CheckNames<'_>,
    host: &ListeningHost<FileHost<'_, R>>,
    out: &WriterSink<W>,
    status: Status,
) -> Told {
    let alloc = rt.alloc();
    match status {
        Status::Wrong(row, sight) => {
            reason_of_wrong(rt, alloc, names, front_of(host, OF_SCRIPT), row, sight)
        }
        Status::ReadFault => reason_of_reading(alloc, host.inner()),
        Status::WriteFault => match out.last_failure() {
            Some(error) => Ok(Some(of_verdict(alloc, error)?)),
            None => Ok(None),
        },
        _ => reason_of_given(rt, alloc, &names.play, host, status),
    }
}

// What is wrong of the script and of what it is played with.
fn reason_of_given<R: Files<File = File>, H>(
    rt: &R,
    alloc: Global,
    names: &Names<'_>,
    host: &ListeningHost<H>,
    status: Status,
) -> Told {
    let script = front_of(host, OF_SCRIPT);
    let reason = match (status, disk_at_fault(names, host)) {
        (Status::BadWave(fault), Some(disk)) => {
            of_wave(alloc, disk, fault, &read_again(alloc, rt, disk, MARK))?
        }
        (Status::BadWave(fault), None) => {
            of_wave(alloc, names.capture, fault, front_of(host, OF_CAPTURE))?
        }
        (Status::BadScript(fault), _) => of_script(alloc, names.script, script, fault)?,
        (Status::Differs(difference), disk) => {
            reason_of_difference(alloc, names, disk, script, difference)?
        }
        _ => return Ok(None),
    };
    Ok(Some(reason))
}

// The disk file that was opened last: a fault that comes before a file is made is of that one.
fn disk_at_fault<'a, H>(names: &Names<'a>, host: &ListeningHost<H>) -> Option<&'a str> {
    let opened = host.opened();
    let behind = OF_CAPTURE + 1;
    if opened > behind && opened - behind <= names.disks() {
        Some(names.disk(opened - behind - 1))
    } else {
        None
    }
}

fn reason_of_graph<R: Files<File = File> + Env + AllocGlobal + Eprint, W>(
    rt: &R,
    words: &[String],
    host: &FileHost<'_, R>,
    out: &WriterSink<W>,
    status: Status,
) -> Told {
    let alloc = rt.alloc();
    match (status, words) {
        (Status::NoMemory, _) => {
            let _ = rt.eprint(NO_MEMORY);
            Ok(None)
        }
        (Status::ReadFault, _) => reason_of_reading(alloc, host),
        (Status::WriteFault, _) => match out.last_failure() {
            Some(error) => Ok(Some(of_graph(alloc, error)?)),
            None => Ok(None),
        },
        (Status::BadScript(fault), [_, script, ..]) => {
            let text = read_again(alloc, rt, script.as_str(), MOST_OF_SCRIPT);
            Ok(Some(of_script(alloc, script.as_str(), &text, fault)?))
        }
        (Status::Wrong(row, _), [_, _, report, ..]) => {
            let text = read_again(alloc, rt, report.as_str(), MOST_OF_REPORT);
            Ok(Some(of_wrong(alloc, report.as_str(), &text, row)?))
        }
        _ => reason_of_words(rt, words),
    }
}

fn reason_of_words<R: Env + AllocGlobal>(rt: &R, words: &[String]) -> Told {
    let mut word = [0u8; MOST_OF_WORD];
    for number in 1..u64::from(u16::MAX) {
        match rt.arg(number as usize, &mut word) {
            Ok(len) if str::from_utf8(&word[..len]).is_err() => {
                return Ok(Some(of_foreign_word(rt.alloc(), number, &word[..len])?));
            }
            Err(FillError::NotPresent) => break,
            _ => (),
        }
    }
    Ok(Some(of_words(rt.alloc(), words)?))
}

fn reason_of_refusals(alloc: Global, names: &Names<'_>, script: &[u8], notes: &Notes) -> Told {
    if notes.refused() == 0 {
        return Ok(None);
    }
    Ok(Some(of_refusals(alloc, names.script, script, notes)?))
}

fn reason_of_difference(
    alloc: Global,
    names: &Names<'_>,
    disk: Option<&str>,
    text: &[u8],
    difference: Difference,
) -> Result<Reason, AllocError> {
    let Difference {
        what,
        script,
        given,
    } = difference;
    match what {
        What::Guests => of_guests(alloc, names.script, text, script, given),
        What::Records => of_records(alloc, script, given),
        What::Disks => of_disks(alloc, script, given),
        What::Rate | What::DiskRate => {
            of_rate(alloc, disk.unwrap_or(names.capture), script, given)
        }
        What::Channels => of_channels(alloc, names.capture, script, given),
        What::DiskChannels => {
            of_disk_channels(alloc, disk.unwrap_or(names.capture), script, given)
        }
    }
}

// A failure to read a file.
fn reason_of_reading<R: Files<File = File>>(alloc: Global, host: &FileHost<'_, R>) -> Told {
    match host.last_read_failure() {
        Some(failure) => Ok(Some(of_input(alloc, failure.name(), failure.reason())?)),
        None => Ok(None),
    }
}

// A failure to make or to write a file, or else one of standard output.
fn reason_of_output<R: Files<File = File>, W>(
    rt: &R,
    alloc: Global,
    names: &Names<'_>,
    host: &FileHost<'_, R>,
    out: &WriterSink<W>,
) -> Told {
    if let Some(failure) = host.last_write_failure() {
        let name = failure.name();
        let error = failure.reason();
        let reason = match failure.kind() {
            FailureKind::IsInput | FailureKind::IsOutput => {
                match reason_of_open(rt, alloc, names, name)? {
                    Some(reason) => reason,
                    None => of_making(alloc, name, error)?,
                }
            }
            FailureKind::Writing => reason_of_writing(rt, alloc, name, error)?,
            FailureKind::Closing => of_closing(alloc, name, error)?,
            _ => of_making(alloc, name, error)?,
        };
        return Ok(Some(reason));
    }
    match out.last_failure() {
        Some(error) => Ok(Some(of_report(alloc, error)?)),
        None => Ok(None),
    }
}

// A failure of standard output, behind a rehearsal.
fn reason_of_summary<W>(alloc: Global, out: &WriterSink<W>) -> Told {
    match out.last_failure() {
        Some(error) => Ok(Some(of_summary(alloc, error)?)),
        None => Ok(None),
    }
}

// How many bytes a file of the disk has.
fn length_of<R: Files>(rt: &R, path: &str) -> Option<u64> {
    match fs::metadata(rt, path) {
        Ok(metadata) if metadata.is_file() => Some(metadata.len()),
        _ => None,
    }
}

// Whether two paths lead to one file.
fn is_one_file<R: Files>(rt: &R, one: &str, other: &str) -> bool {
    match (fs::metadata(rt, one), fs::metadata(rt, other)) {
        (Ok(one), Ok(other)) => one.dev() == other.dev() && one.ino() == other.ino(),
        _ => false,
    }
}

fn reason_of_writing<R: Files<File = File>>(
    rt: &R,
    alloc: Global,
    name: &str,
    error: io::Error,
) -> Result<Reason, AllocError> {
    let front = read_again(alloc, rt, name, HEADER);
    let standing = match length_of(rt, name) {
        Some(length) => standing_in(&front, length),
        None => None,
    };
    of_writing(alloc, name, error, standing)
}

// Which of the other files it is, where it is one of them.
fn reason_of_open<R: Files<File = File>>(
    rt: &R,
    alloc: Global,
    names: &Names<'_>,
    name: &str,
) -> Told {
    if is_one_file(rt, name, names.script) {
        return Ok(Some(of_open_output(alloc, name, "script", names.script)?));
    }
    if is_one_file(rt, name, names.capture) {
        return Ok(Some(of_open_output(alloc, name, "capture", names.capture)?));
    }
    if name != names.playback && is_one_file(rt, name, names.playback) {
        return Ok(Some(of_open_output(alloc, name, "playback", names.playback)?));
    }
    for place in 0..names.records() {
        let record = names.record(place);
        if record != name && is_one_file(rt, name, record) {
            return Ok(Some(of_open_output(alloc, name, "record", record)?));
        }
    }
    for place in 0..names.disks() {
        let disk = names.disk(place);
        if is_one_file(rt, name, disk) {
            return Ok(Some(of_open_output(alloc, name, "disk file", disk)?));
        }
    }
    Ok(None)
}

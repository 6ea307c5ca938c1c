//! What is told where a report does not explain its files.

use crate::telling::{HEADER, MOST_OF_REPORT, Told};
use check_sights::Sight;
use jack_types::{Part, Row};
use play_words::CheckNames;
use std::alloc::Global;
use std::fs::{File, Files};
use told_reasons::{made_by, of_check, of_checked_file, of_exchange, read_again};

/// The first wrong part.
pub(crate) fn reason_of_wrong<R: Files<File = File>>(
    rt: &R,
    alloc: Global,
    names: &CheckNames<'_>,
    script: &[u8],
    row: Row,
    sight: Sight,
) -> Told {
    let Some(name) = file_of(names, row) else {
        let text = read_again(alloc, rt, names.report, MOST_OF_REPORT);
        return Ok(Some(of_check(alloc, names.report, &text, row, sight)?));
    };
    let front = read_again(alloc, rt, name, HEADER);
    let made = made_by(script, row);
    Ok(Some(of_checked_file(alloc, name, &front, made, row.place, sight)?))
}

/// What may have led to it, where that can be seen.
pub(crate) fn hint_of_wrong<R: Files<File = File>>(
    rt: &R,
    alloc: Global,
    names: &CheckNames<'_>,
    script: &[u8],
    row: Row,
    sight: Sight,
) -> Told {
    match sight {
        Sight::Byte { .. } => hint_of_exchange(rt, alloc, names, script, row),
        _ => Ok(None),
    }
}

// The file of a row, where it is of one.
fn file_of<'a>(names: &CheckNames<'a>, row: Row) -> Option<&'a str> {
    match row.what {
        Part::Playback => Some(names.play.playback),
        Part::Record if (row.number as usize) < names.play.records() => {
            Some(names.play.record(row.number as usize))
        }
        _ => None,
    }
}

// Whether a file that is looked at behind a record has the header that the record should have.
fn hint_of_exchange<R: Files<File = File>>(
    rt: &R,
    alloc: Global,
    names: &CheckNames<'_>,
    script: &[u8],
    row: Row,
) -> Told {
    if row.what != Part::Record {
        return Ok(None);
    }
    let (Some(name), Some(made)) = (file_of(names, row), made_by(script, row)) else {
        return Ok(None);
    };
    if made.has_header(&read_again(alloc, rt, name, HEADER)) {
        return Ok(None);
    }
    let behind = (row.number as usize).saturating_add(1);
    for place in behind..names.play.records() {
        let record = names.play.record(place);
        if made.has_header(&read_again(alloc, rt, record, HEADER)) {
            return Ok(Some(of_exchange(alloc, name, record)?));
        }
    }
    let playback = names.play.playback;
    if made.has_header(&read_again(alloc, rt, playback, HEADER)) {
        return Ok(Some(of_exchange(alloc, name, playback)?));
    }
    Ok(None)
}

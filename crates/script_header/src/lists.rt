//! The lines of recorders and disks.

ghost use Rattle.std.specs.Prelude.{◌≡◌, ◌+◌, ◌≤◌, Bool, List, [], codes, length, pos};
ghost use Rattle.jack_types.specs.declared.scripts.Many.TheVariants.{Disks as TheDisks, Recorders as TheRecorders};
ghost use Rattle.grammar_laws.specs.session_model.specs.Reading.{at_line, number, recorder, several};
ghost use Rattle.script_header.specs.Fronts.{disks_of};
ghost use Rattle.script_header.specs.LineReads.{ReadsLine, wholly};

use crate::required::{fault, number_in};
use crate::words;
use jack_types::{Cause, Disks, Format, Many, Recorders, ScriptFault};
use script_commands::script_words::{Line, Lines, Words};

const FOUR_OF_RECORDERS: Cause = Cause::TooMany {
    what: Many::Recorders,
    limit: 4,
};

const FOUR_OF_DISKS: Cause = Cause::TooMany {
    what: Many::Disks,
    limit: 4,
};

fn whole_recorder(words: &mut Words, rate: u32) -> Result<Format, Cause>
    ensures { result ≡ wholly (recorder rate []) words.old }
{
    let format = words::recorder(words, rate)?;
    if !words.is_empty() {
        return Err(Cause::Words);
    }
    Ok(format)
}

/// What a `recorder` line says.
fn recorder_in(mut line: Line, rate: u32) -> Result<Format, ScriptFault>
    ensures { result ≡ at_line line.entry.number (wholly (recorder rate []) line.entry.words) }
{
    match whole_recorder(&mut line.words, rate) {
        Ok(format) => Ok(format),
        Err(cause) => Err(fault(line.number, cause)),
    }
}

/// The `recorder` lines in front.
pub fn recorders(lines: &mut Lines, rate: u32) -> Result<Recorders, ScriptFault>
    ensures gives { ReadsLine result lines.new.lines (several TheRecorders 4 (codes "recorder") (recorder rate) [] lines.old.lines) }
    ensures end { lines.new.end ≡ lines.old.end }
{
    let none = Format {
        rate: 0,
        channels: 0,
        bits: 0,
    };
    let mut formats = [none; 4];
    let mut len = 0;
    'lines: while let Some(line) = lines.take_begun(b"recorder".as_slice()) {
        let number = line.number;
        let format = match recorder_in(line, rate) {
            Ok(format) => format,
            Err(fault) => return Err(fault),
        };
        if len == 4 {
            return Err(fault(number, FOUR_OF_RECORDERS));
        }
        formats[len] = format;
        len += 1;
    }
    Ok(Recorders::of(&formats[..len]))
}

/// The `disk` lines in front.
fn some_disks(lines: &mut Lines) -> Result<Disks, ScriptFault>
    ensures gives { ReadsLine result lines.new.lines (several TheDisks 4 (codes "disk") (λ found. number 1 8) [] lines.old.lines) }
    ensures end { lines.new.end ≡ lines.old.end }
{
    let mut channels = [0; 4];
    let mut len = 0;
    'lines: while let Some(line) = lines.take_begun(b"disk".as_slice()) {
        let number = line.number;
        let read = number_in(line, 1, 8)?;
        if len == 4 {
            return Err(fault(number, FOUR_OF_DISKS));
        }
        channels[len] = read as u16;
        len += 1;
    }
    Ok(Disks::of(&channels[..len]))
}

/// The `disk` lines in front, which are of version 3.
pub fn disks(lines: &mut Lines, is_new: bool) -> Result<Disks, ScriptFault>
    ensures gives { ReadsLine result lines.new.lines (disks_of is_new lines.old.lines) }
    ensures end { lines.new.end ≡ lines.old.end }
{
    if is_new {
        return some_disks(lines);
    }
    Ok(Disks::of(&[]))
}

//! The header lines that may be left out.

ghost use Rattle.std.specs.Prelude.{◌≡◌, ◌≤◌, ◌≤ℤ◌, Bool, IfOk, codes, pos};
ghost use Rattle.grammar_laws.specs.session_model.specs.Reading.{number_up_to, optional};
ghost use Rattle.script_header.specs.Fronts.{fill_of, optional_of};
ghost use Rattle.script_header.specs.LineReads.{ReadsLine};

use crate::required::number_in;
use jack_types::ScriptFault;
use script_commands::script_words::Lines;

/// What the lines say that may be left out, or what holds without them.
#[derive(Clone, Copy, Drop)]
pub struct Optional {
    pub ring: u32,
    pub drain: u32,
    pub fill: u32,
}

/// A line of one number up to 64, or the usual number where the line is left out.
fn number_or(lines: &mut Lines, name: &[u8], least: i64, usual: u32) -> Result<u32, ScriptFault>
    requires natural { pos 0 ≤ℤ least }
    ensures gives { ReadsLine result lines.new.lines (optional usual name.now (number_up_to least (pos 64)) lines.old.lines) }
    ensures end { lines.new.end ≡ lines.old.end }
{
    match lines.take_begun(name) {
        Some(line) => {
            let n = number_in(line, least, 64)?;
            Ok(n as u32)
        }
        None => Ok(usual),
    }
}

pub fn optional_lines(lines: &mut Lines, is_new: bool) -> Result<Optional, ScriptFault>
    ensures gives { ReadsLine result lines.new.lines (optional_of is_new lines.old.lines) }
    ensures end { lines.new.end ≡ lines.old.end }
{
    let ring = number_or(lines, b"ring".as_slice(), 1, 16)?;
    let drain = number_or(lines, b"drain".as_slice(), 0, 4)?;
    let fill = fill(lines, is_new)?;
    Ok(Optional { ring, drain, fill })
}

/// The line `fill`, which is of version 3.
fn fill(lines: &mut Lines, is_new: bool) -> Result<u32, ScriptFault>
    ensures gives { ReadsLine result lines.new.lines (fill_of is_new lines.old.lines) }
    ensures end { lines.new.end ≡ lines.old.end }
{
    if is_new {
        return number_or(lines, b"fill".as_slice(), 0, 4);
    }
    Ok(4)
}

//! Header lines.

ghost use Rattle.std.specs.Prelude.{◌≡◌, ◌++◌, ◌==◌, ◌∷◌, [], IfOk, codes, map, string_bytes};
ghost use Rattle.std.specs.Prelude.{if◌then◌else◌};
ghost use Rattle.grammar_laws.specs.session_model.specs.Grammar.{mode_slots, number_slots, Numeral, recorder_slots, required_lines, Word};
ghost use Rattle.script_text.specs.Printing.{with_line, with_lines};

use crate::words::{end_line, put_number, put_number_line, put_word};
use jack_types::{Format, Header};
use std::alloc::AllocError;

/// A line of a word, a number of channels and a number of bits.
fn put_format(text: &mut String, word: &str, channels: u16, bits: u16) -> Result<(), AllocError>
    ensures { IfOk result (λ _. string_bytes text.new ≡ with_line (string_bytes text.old) (Word word.now ∷ Numeral channels ∷ Numeral bits ∷ [])) }
{
    text.push_str(word)?;
    put_number(text, u32::from(channels))?;
    put_number(text, u32::from(bits))?;
    end_line(text)
}

fn put_mode(text: &mut String, threads: Option<u16>, steal: bool) -> Result<(), AllocError>
    ensures { IfOk result (λ _. string_bytes text.new ≡ with_line (string_bytes text.old) (mode_slots threads steal)) }
{
    match threads {
        None => text.push_str("mode serial\n"),
        Some(workers) => put_crew(text, if steal { "steal" } else { "threads" }, workers),
    }
}

/// A mode of some workers.
fn put_crew(text: &mut String, word: &str, workers: u16) -> Result<(), AllocError>
    ensures { IfOk result (λ _. string_bytes text.new ≡ with_line (string_bytes text.old) (Word (codes "mode") ∷ Word word.now ∷ Numeral workers ∷ [])) }
{
    text.push_str("mode")?;
    put_word(text, word)?;
    put_number(text, u32::from(workers))?;
    end_line(text)
}

/// The lines that are always there.
pub fn put_required(text: &mut String, header: &Header) -> Result<(), AllocError>
    ensures { IfOk result (λ _. string_bytes text.new ≡ with_lines (string_bytes text.old) (required_lines header.now)) }
{
    put_number_line(text, "jackd", header.version)?;
    put_number_line(text, "rate", header.rate)?;
    put_number_line(text, "period", header.period)?;
    put_number_line(text, "capture", u32::from(header.capture))?;
    put_format(text, "playback", header.playback, header.bits)?;
    put_mode(text, header.threads, header.steal)
}

/// The line `ring`.
pub fn put_ring(text: &mut String, ring: u32) -> Result<(), AllocError>
    ensures { IfOk result (λ _. string_bytes text.new ≡ with_lines (string_bytes text.old) (number_slots (codes "ring") ring ∷ [])) }
{
    put_number_line(text, "ring", ring)
}

/// The line `drain`.
pub fn put_drain(text: &mut String, drain: u32) -> Result<(), AllocError>
    ensures { IfOk result (λ _. string_bytes text.new ≡ with_lines (string_bytes text.old) (number_slots (codes "drain") drain ∷ [])) }
{
    put_number_line(text, "drain", drain)
}

/// The line `fill`, which is of version 3.
pub fn put_fill(text: &mut String, header: &Header) -> Result<(), AllocError>
    ensures { IfOk result (λ _. string_bytes text.new ≡ with_lines (string_bytes text.old) (if header.now.version == 3 then number_slots (codes "fill") header.now.fill ∷ [] else [])) }
{
    if header.version == 3 {
        return put_number_line(text, "fill", header.fill);
    }
    Ok(())
}

pub fn put_recorders(text: &mut String, recorders: &[Format]) -> Result<(), AllocError>
    ensures { IfOk result (λ _. string_bytes text.new ≡ with_lines (string_bytes text.old) (map recorder_slots recorders.now)) }
{
    for format in recorders {
        put_format(text, "recorder", format.channels, format.bits)?;
    }
    Ok(())
}

pub fn put_disks(text: &mut String, disks: &[u16]) -> Result<(), AllocError>
    ensures { IfOk result (λ _. string_bytes text.new ≡ with_lines (string_bytes text.old) (map (number_slots (codes "disk")) disks.now)) }
{
    for channels in disks {
        put_number_line(text, "disk", u32::from(*channels))?;
    }
    Ok(())
}

//! The words of the header's lines, behind the first.

ghost use Rattle.std.specs.Prelude.{◌≡◌, ◌==◌, Bool, None, Option, Some, List, []};
ghost use Rattle.std.specs.List.{list_any};
ghost use Rattle.script_commands.specs.script_words.specs.Reads.{Reads};
ghost use Rattle.grammar_laws.specs.session_model.specs.Grammar.{widths};
ghost use Rattle.grammar_laws.specs.session_model.specs.Reading.{bits, channels_and_bits, chosen, made, number, recorder, version, workers};
ghost use Rattle.script_header.specs.Workers.{stealing, workers_of};
ghost use Rattle.script_commands.specs.Choosing.{found_in};

use jack_types::{Cause, Format};
use script_commands::script_words::Words;

/// A version, 1 to 3.
pub fn version(words: &mut Words) -> Result<u32, Cause>
    ensures { Reads result words.new (version words.old) }
{
    let n = words.any_number()?;
    match n {
        1 => Ok(1),
        2 => Ok(2),
        3 => Ok(3),
        _ => Err(Cause::Choice(n)),
    }
}

/// Whether a sample may have so many bits.
fn is_width(n: u64) -> bool
    ensures { result ≡ list_any (λ b. b == n) widths }
{
    n == 8 || n == 16 || n == 24 || n == 32
}

/// The bits of a sample.
fn bits(words: &mut Words) -> Result<u16, Cause>
    ensures { Reads result words.new (bits words.old) }
{
    let n = words.any_number()?;
    if !is_width(n) {
        return Err(Cause::Choice(n));
    }
    Ok(n as u16)
}

pub fn channels_and_bits(words: &mut Words) -> Result<(u16, u16), Cause>
    ensures { Reads result words.new (channels_and_bits words.old) }
{
    let channels = words.number(1, 8)?;
    let bits = bits(words)?;
    Ok((channels as u16, bits))
}

/// The format of a recorder, of the script's rate.
pub fn recorder(words: &mut Words, rate: u32) -> Result<Format, Cause>
    ensures { Reads result words.new (recorder rate [] words.old) }
{
    let channels = words.number(1, 8)?;
    let bits = bits(words)?;
    Ok(Format {
        rate,
        channels: channels as u16,
        bits,
    })
}

/// So many workers, and whether they steal.
fn some_workers(words: &mut Words, steal: bool) -> Result<(Option<u16>, bool), Cause>
    ensures { Reads result words.new (made (number 1 16) (λ workers. (Some workers, steal)) words.old) }
{
    let workers = words.number(1, 16)?;
    Ok((Some(workers as u16), steal))
}

/// What a mode says behind its word.
fn workers_of(first: &[u8], words: &mut Words, version: u32) -> Result<(Option<u16>, bool), Cause>
    ensures { Reads result words.new (chosen (workers_of version first.now) words.old) }
{
    if first == b"serial".as_slice() {
        return Ok((None, false));
    }
    if first == b"threads".as_slice() {
        return some_workers(words, false);
    }
    if version == 3 {
        return stealing_workers(first, words);
    }
    Err(Cause::Unknown)
}

/// What the mode of version 3 says behind its word.
fn stealing_workers(first: &[u8], words: &mut Words) -> Result<(Option<u16>, bool), Cause>
    ensures { Reads result words.new (chosen (found_in stealing first.now) words.old) }
{
    if first == b"steal".as_slice() {
        return some_workers(words, true);
    }
    Err(Cause::Unknown)
}

/// The number of workers, none in serial mode, and whether they steal.
pub fn workers(words: &mut Words, version: u32) -> Result<(Option<u16>, bool), Cause>
    ensures { Reads result words.new (workers version words.old) }
{
    let first = words.word()?;
    workers_of(first, words, version)
}

//! The header lines that are always there.

ghost use Rattle.std.specs.Prelude.{◌≡◌, ◌≤◌, ◌≤ℤ◌, IfErr, IfOk, None, Some, codes, pos};
ghost use Rattle.jack_types.specs.declared.scripts.Cause.TheVariants.{Header as NotHeader};
ghost use Rattle.script_commands.specs.script_words.specs.Remaining.{begun_line, place};
ghost use Rattle.grammar_laws.specs.session_model.specs.Reading.{at_line, channels_and_bits, number_up_to, period, required, version, workers};
ghost use Rattle.script_header.specs.Fronts.{required_of};
ghost use Rattle.script_header.specs.LineReads.{ReadsLine, wholly};

use crate::words;
use jack_types::{Cause, ScriptFault};
use script_commands::script_words::{Line, Lines, Words};

/// What the lines say that are always there.
#[derive(Clone, Copy, Drop)]
pub struct Required {
    pub version: u32,
    pub rate: u32,
    pub period: u32,
    pub capture: u16,
    pub playback: u16,
    pub bits: u16,
    pub threads: Option<u16>,
    pub steal: bool,
}

/// Takes the line in front, which has to begin with the name.
fn begun<'a>(lines: &mut Lines<'a>, name: &[u8]) -> Result<Line<'a>, ScriptFault>
    ensures ok { IfOk result (λ l. begun_line name.now lines.old.lines ≡ Some (record { number = l.number; words = l.words }, lines.new.lines)) }
    ensures err { IfErr result (λ fault. (begun_line name.now lines.old.lines ≡ None) × (fault ≡ record { line = place lines.old; cause = NotHeader })) }
    ensures end { lines.new.end ≡ lines.old.end }
{
    let number = lines.number();
    match lines.take_begun(name) {
        Some(line) => Ok(line),
        None => Err(ScriptFault {
            line: number,
            cause: Cause::Header,
        }),
    }
}

/// The cause, at its line.
pub fn fault(line: u32, cause: Cause) -> ScriptFault
    ensures { result ≡ record { line = line; cause = cause } }
{
    ScriptFault { line, cause }
}

/// A number in its range, and nothing behind it.
fn whole_number(words: &mut Words, least: i64, most: i64) -> Result<u64, Cause>
    ensures gives { result ≡ wholly (number_up_to least most) words.old }
    ensures within { IfOk result (λ n. (least ≤ℤ pos n) × (pos n ≤ℤ most)) }
{
    let n = words.number(least, most)?;
    if !words.is_empty() {
        return Err(Cause::Words);
    }
    Ok(n)
}

/// What a line of one number says.
pub fn number_in(mut line: Line, least: i64, most: i64) -> Result<u64, ScriptFault>
    ensures gives { result ≡ at_line line.entry.number (wholly (number_up_to least most) line.entry.words) }
    ensures within { IfOk result (λ n. (least ≤ℤ pos n) × (pos n ≤ℤ most)) }
{
    match whole_number(&mut line.words, least, most) {
        Ok(n) => Ok(n),
        Err(cause) => Err(fault(line.number, cause)),
    }
}

/// A line of one number in its range.
fn number_line(lines: &mut Lines, name: &[u8], least: i64, most: i64) -> Result<u64, ScriptFault>
    ensures gives { ReadsLine result lines.new.lines (required lines.old.end name.now (number_up_to least most) lines.old.lines) }
    ensures within { IfOk result (λ n. (least ≤ℤ pos n) × (pos n ≤ℤ most)) }
    ensures end { lines.new.end ≡ lines.old.end }
{
    let line = begun(lines, name)?;
    number_in(line, least, most)
}

fn whole_version(words: &mut Words) -> Result<u32, Cause>
    ensures { result ≡ wholly version words.old }
{
    let version = words::version(words)?;
    if !words.is_empty() {
        return Err(Cause::Words);
    }
    Ok(version)
}

fn version_line(lines: &mut Lines) -> Result<u32, ScriptFault>
    ensures gives { ReadsLine result lines.new.lines (required lines.old.end (codes "jackd") version lines.old.lines) }
    ensures end { lines.new.end ≡ lines.old.end }
{
    let mut line = begun(lines, b"jackd".as_slice())?;
    match whole_version(&mut line.words) {
        Ok(version) => Ok(version),
        Err(cause) => Err(fault(line.number, cause)),
    }
}

fn whole_period(words: &mut Words) -> Result<u32, Cause>
    ensures gives { result ≡ wholly period words.old }
    ensures most { IfOk result (λ n. n ≤ 4096) }
{
    let period = words.period()?;
    if !words.is_empty() {
        return Err(Cause::Words);
    }
    Ok(period)
}

fn period_line(lines: &mut Lines) -> Result<u32, ScriptFault>
    ensures gives { ReadsLine result lines.new.lines (required lines.old.end (codes "period") period lines.old.lines) }
    ensures most { IfOk result (λ n. n ≤ 4096) }
    ensures end { lines.new.end ≡ lines.old.end }
{
    let mut line = begun(lines, b"period".as_slice())?;
    match whole_period(&mut line.words) {
        Ok(period) => Ok(period),
        Err(cause) => Err(fault(line.number, cause)),
    }
}

fn whole_playback(words: &mut Words) -> Result<(u16, u16), Cause>
    ensures { result ≡ wholly channels_and_bits words.old }
{
    let playback = words::channels_and_bits(words)?;
    if !words.is_empty() {
        return Err(Cause::Words);
    }
    Ok(playback)
}

fn playback_line(lines: &mut Lines) -> Result<(u16, u16), ScriptFault>
    ensures gives { ReadsLine result lines.new.lines (required lines.old.end (codes "playback") channels_and_bits lines.old.lines) }
    ensures end { lines.new.end ≡ lines.old.end }
{
    let mut line = begun(lines, b"playback".as_slice())?;
    match whole_playback(&mut line.words) {
        Ok(playback) => Ok(playback),
        Err(cause) => Err(fault(line.number, cause)),
    }
}

fn whole_mode(words: &mut Words, version: u32) -> Result<(Option<u16>, bool), Cause>
    ensures { result ≡ wholly (workers version) words.old }
{
    let mode = words::workers(words, version)?;
    if !words.is_empty() {
        return Err(Cause::Words);
    }
    Ok(mode)
}

fn mode_line(lines: &mut Lines, version: u32) -> Result<(Option<u16>, bool), ScriptFault>
    ensures gives { ReadsLine result lines.new.lines (required lines.old.end (codes "mode") (workers version) lines.old.lines) }
    ensures end { lines.new.end ≡ lines.old.end }
{
    let mut line = begun(lines, b"mode".as_slice())?;
    match whole_mode(&mut line.words, version) {
        Ok(mode) => Ok(mode),
        Err(cause) => Err(fault(line.number, cause)),
    }
}

pub fn required_lines(lines: &mut Lines) -> Result<Required, ScriptFault>
    ensures gives { ReadsLine result lines.new.lines (required_of lines.old.end lines.old.lines) }
    ensures period { IfOk result (λ r. r.period ≤ 4096) }
    ensures end { lines.new.end ≡ lines.old.end }
{
    let version = version_line(lines)?;
    let rate = number_line(lines, b"rate".as_slice(), 8000, 192000)?;
    let period = period_line(lines)?;
    let capture = number_line(lines, b"capture".as_slice(), 1, 8)?;
    let (playback, bits) = playback_line(lines)?;
    let (threads, steal) = mode_line(lines, version)?;
    Ok(Required {
        version,
        rate: rate as u32,
        period,
        capture: capture as u16,
        playback,
        bits,
        threads,
        steal,
    })
}

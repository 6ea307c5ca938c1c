//! A body line.

ghost use Rattle.std.specs.Prelude.{◌≡◌, ◌+◌, IfOk};
ghost use Rattle.jack_types.specs.declared.scripts.Body.TheVariants.{Do, Freewheel, Period, Run};
ghost use Rattle.script_commands.specs.Choosing.{found_in};
ghost use Rattle.script_commands.specs.script_words.specs.Reads.{Reads};
ghost use Rattle.grammar_laws.specs.session_model.specs.Reading.{chosen, command, has_periods, made, number, period};
ghost use Rattle.script_body.specs.Standings.{body_at, body_line_at, IsSmall, IsWithin, line_at, period_lines};

use crate::lane::lane_line;
use crate::standing::{Standing, passed};
use jack_types::{Body, Cause, Header};
use script_commands::command;
use script_commands::script_words::Words;

fn do_line(words: &mut Words, header: &Header) -> Result<Body, Cause>
    ensures gives { Reads result words.new (made (command header.now) Do words.old) }
    ensures small { IfOk result IsSmall }
{
    let command = command(words, header)?;
    Ok(Body::Do(command))
}

fn run_line(words: &mut Words) -> Result<Body, Cause>
    ensures gives { Reads result words.new (made (number 1 1000000) Run words.old) }
    ensures small { IfOk result IsSmall }
{
    let cycles = words.number(1, 1000000)?;
    Ok(Body::Run(cycles as u32))
}

fn freewheel_line(words: &mut Words) -> Result<Body, Cause>
    ensures gives { Reads result words.new (made (number 1 1000000) Freewheel words.old) }
    ensures small { IfOk result IsSmall }
{
    let cycles = words.number(1, 1000000)?;
    Ok(Body::Freewheel(cycles as u32))
}

/// What the line of version 2 says behind its first word.
fn period_line(first: &[u8], words: &mut Words) -> Result<Body, Cause>
    ensures gives { Reads result words.new (chosen (found_in period_lines first.now) words.old) }
    ensures small { IfOk result IsSmall }
{
    if first == b"period".as_slice() {
        let period = words.period()?;
        return Ok(Body::Period(period));
    }
    Err(Cause::Unknown)
}

/// Whether `period` is a line of the body: from version 2 on, where there is no disk.
fn has_periods(header: &Header) -> bool
    ensures { result ≡ has_periods header.now }
{
    header.version >= 2 && header.disks.as_slice().is_empty()
}

/// What a line says behind its first word.
fn line_at(
    first: &[u8],
    words: &mut Words,
    header: &Header,
    standing: &Standing,
) -> Result<Body, Cause>
    ensures gives { Reads result words.new (chosen (line_at header.now standing.now first.now) words.old) }
    ensures small { IfOk result IsSmall }
{
    if first == b"do".as_slice() {
        return do_line(words, header);
    }
    if first == b"run".as_slice() {
        return run_line(words);
    }
    if first == b"freewheel".as_slice() {
        return freewheel_line(words);
    }
    if first == b"lane".as_slice() {
        return lane_line(words, header, standing);
    }
    if has_periods(header) {
        return period_line(first, words);
    }
    Err(Cause::Unknown)
}

/// What a line says.
fn body_line(words: &mut Words, header: &Header, standing: &Standing) -> Result<Body, Cause>
    ensures gives { Reads result words.new (body_line_at header.now standing.now words.old) }
    ensures small { IfOk result IsSmall }
{
    let first = words.word()?;
    line_at(first, words, header, standing)
}

/// A whole line: no word is left over, and no limit is passed.
pub fn body_at(mut words: Words, header: &Header, standing: &Standing) -> Result<Body, Cause>
    requires within { IsWithin standing.now }
    ensures gives { result ≡ body_at header.now standing.now words.entry }
    ensures small { IfOk result IsSmall }
{
    let body = body_line(&mut words, header, standing)?;
    if !words.is_empty() {
        return Err(Cause::Words);
    }
    match passed(standing, header, &body) {
        Some(cause) => Err(cause),
        None => Ok(body),
    }
}

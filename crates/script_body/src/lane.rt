//! A call of a lane.

ghost use Rattle.std.specs.Prelude.{◌≡◌, ◌<◌, ◌^◌, Err, IfOk, MatchResult, Ok, codes};
ghost use Rattle.script_commands.specs.script_words.specs.Reads.{Reads};
ghost use Rattle.grammar_laws.specs.session_model.specs.Reading.{begun_in, fixed};
ghost use Rattle.script_body.specs.Standings.{IsSmall, lane_line_at};

use crate::standing::Standing;
use jack_types::{Body, Cause, Header};
use script_commands::command;
use script_commands::script_words::Words;

/// The word `at`.
fn at(words: &mut Words) -> Result<(), Cause>
    ensures { MatchResult result (λ _. fixed (codes "at") words.old ≡ Ok (codes "at", words.new)) (λ cause. fixed (codes "at") words.old ≡ Err cause) }
{
    let word = words.word()?;
    if word == b"at".as_slice() {
        return Ok(());
    }
    Err(Cause::Unknown)
}

/// How many cycles of the segment the call asks for.
fn begun_in(segment: Option<u32>, before: u32, given: u64) -> Result<u32, Cause>
    requires { given < 10 ^ 10 }
    ensures { result ≡ begun_in segment before given }
{
    let Some(cycles) = segment else {
        return Err(Cause::Lane { before: 0, given });
    };
    if given > u64::from(cycles) {
        return Err(Cause::Range {
            given: given as i64,
            least: 0,
            most: i64::from(cycles),
        });
    }
    if given < u64::from(before) {
        return Err(Cause::Lane { before, given });
    }
    Ok(given as u32)
}

/// What a `lane` line says behind its first word.
pub fn lane_line(words: &mut Words, header: &Header, standing: &Standing) -> Result<Body, Cause>
    ensures gives { Reads result words.new (lane_line_at header.now standing.now words.old) }
    ensures small { IfOk result IsSmall }
{
    let lane = words.number(1, 4)?;
    at(words)?;
    let given = words.any_number()?;
    let before = standing.begun[lane as usize - 1];
    let begun = begun_in(standing.segment, before, given)?;
    let command = command(words, header)?;
    Ok(Body::Lane(lane as u8, begun, command))
}

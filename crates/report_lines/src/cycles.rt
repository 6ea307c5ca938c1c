//! The lines of cycles.

ghost use Rattle.std.specs.Prelude.{◌≡◌, ◌≤◌, ◌+◌, ◌++◌, ◌∷◌, length, map};
ghost use Rattle.jack_host.specs.Bytes.{Puts};
ghost use Rattle.jack_host.specs.Causes.{HasCause};
ghost use Rattle.session_model.specs.Reports.{bbt_word, cycle_line, state_name};
ghost use Rattle.report_lines.specs.Outputs.{cycles_of, text_of};

use crate::batches::{Batch, gather};
use crate::lines::{Line, add_number, add_word, begun, end_line};
use itoa::Buffer;
use jack_host::{Failed, Sink};
use jack_types::{Bbt, Moment, TransportState};

// The word of a transport state.
fn word_of_state(state: TransportState) -> &'static str
    ensures name { result.now ≡ state_name state }
    ensures short { length result.now ≤ 8 }
{
    match state {
        TransportState::Stopped => "stopped",
        TransportState::Starting => "starting",
        TransportState::Rolling => "rolling",
    }
}

// Appends a place in bars, or `-` where there is none.
fn add_place(line: &mut Line, place: Option<Bbt>)
    requires { length line.old.bytes + 63 ≤ 160 }
    ensures bytes { line.new.bytes ≡ line.old.bytes ++ 32 ∷ bbt_word place }
    ensures short { length line.new.bytes ≤ length line.old.bytes + 63 }
{
    match place {
        None => line.push_str(" -"),
        Some(place) => {
            add_number(line, u64::from(place.bar));
            line.push_str("|");
            line.push_str(Buffer::new().format(u64::from(place.beat)));
            line.push_str("|");
            line.push_str(Buffer::new().format(u64::from(place.tick)));
        }
    }
}

// The line of a cycle.
fn line_of(number: u32, moment: &Moment) -> Line
    ensures { result.bytes ≡ cycle_line (record { number = number; moment = moment.now }) }
{
    let mut line = begun("cycle");
    add_number(&mut line, u64::from(moment.cycle));
    add_number(&mut line, u64::from(number));
    add_word(&mut line, word_of_state(moment.state));
    add_number(&mut line, u64::from(moment.frame));
    add_place(&mut line, moment.bbt);
    end_line(&mut line);
    line
}

/// Puts the lines of the cycles, each with the number of its changes and its moment, many by one put. Where one list is
/// longer than the other, what has no partner is left out.
pub fn put_cycles<K: Sink>(out: &mut K, numbers: &[u32], moments: &[Moment]) -> Result<(), Failed>
    ensures puts { Puts (K.content out.old) (K.content out.new) result (text_of (map cycle_line (cycles_of numbers.now moments.now))) }
    ensures cause { HasCause (K.faults out.old) (K.faults out.new) result }
{
    let mut batch = Batch::new();
    for i in 0..numbers.len().min(moments.len()) {
        gather(out, &mut batch, &line_of(numbers[i], &moments[i]))?;
    }
    out.put(batch.as_str().as_bytes())
}

//! The lines of calls.

ghost use Rattle.std.specs.Prelude.{◌≡◌, ◌≤◌, ◌+◌, ◌++◌, flat_map, length, map};
ghost use Rattle.jack_host.specs.Bytes.{Puts};
ghost use Rattle.jack_host.specs.Causes.{HasCause};
ghost use Rattle.session_model.specs.Reports.{call_line, printed_call, reply_words, spaced};
ghost use Rattle.report_lines.specs.Outputs.{text_of};

use crate::batches::{Batch, gather};
use crate::lines::{Line, add_number, add_word, begun, end_line};
use jack_host::{Failed, Sink};
use jack_types::{Entry, Reply};

// The line of a call with its reply.
fn line_of(entry: &Entry) -> Line
    ensures { result.bytes ≡ call_line (printed_call entry.now) }
{
    let mut line = begun("call");
    add_number(&mut line, u64::from(entry.call.lane));
    add_number(&mut line, u64::from(entry.call.index));
    match entry.reply {
        Reply::Accepted(number) => {
            add_word(&mut line, "ok");
            add_number(&mut line, u64::from(number));
        }
        Reply::Refused(refusal) => {
            add_word(&mut line, "refused");
            add_number(&mut line, u64::from(refusal.number()));
            add_word(&mut line, refusal.name());
        }
        Reply::Latency(range) => {
            add_word(&mut line, "latency");
            add_number(&mut line, u64::from(range.min));
            add_number(&mut line, u64::from(range.max));
        }
    }
    end_line(&mut line);
    line
}

/// Puts the lines of all calls of a history, in its order, many by one put. At a failure the puts before it and a first
/// part of the put that failed went out.
pub fn put_calls<K: Sink>(out: &mut K, history: &[Entry]) -> Result<(), Failed>
    ensures puts { Puts (K.content out.old) (K.content out.new) result (text_of (map call_line (map printed_call history.now))) }
    ensures cause { HasCause (K.faults out.old) (K.faults out.new) result }
{
    let mut batch = Batch::new();
    for entry in history {
        gather(out, &mut batch, &line_of(entry))?;
    }
    out.put(batch.as_str().as_bytes())
}

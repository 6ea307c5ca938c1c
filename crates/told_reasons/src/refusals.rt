//! Calls of a session that were refused.

ghost use Rattle.std.specs.Prelude.{IfOk};
ghost use Rattle.reason_text.specs.Reasons.{IsReason};

use crate::filling::fill;
use crate::lines::{behind, call_at, line_at, readable, word_at};
use jack_types::Refusal;
use reason_text::Piece::{Counted, Number, Shown, Text};
use reason_text::Reason;
use refused_calls::{Notes, Refused};
use std::alloc::{AllocError, Global};

/// The refused calls of a session, each with its line of the script, and then how many of how many there were.
pub fn of_refusals(
    alloc: Global,
    script: &str,
    text: &[u8],
    notes: &Notes,
) -> Result<Reason, AllocError>
    ensures { IfOk result IsReason }
{
    let text = readable(text);
    let mut reason = Reason::new(alloc)?;
    for call in notes.first() {
        say_call(&mut reason, script, text, call)?;
        reason.end_line()?;
        reason.begin_line()?;
    }
    say_sum(&mut reason, notes)?;
    reason.end_line()?;
    Ok(reason)
}

// How many calls were refused.
fn say_sum(reason: &mut Reason, notes: &Notes) -> Result<(), AllocError> {
    let untold = notes.refused().saturating_sub(notes.first().len() as u64);
    let sentence = if untold > 0 {
        "and {0} more; {1} of {2} were refused"
    } else if notes.refused() == 1 {
        "{1} of {2} was refused"
    } else {
        "{1} of {2} were refused"
    };
    fill(
        reason,
        sentence,
        &[
            Number(untold),
            Number(notes.refused()),
            Counted(notes.calls(), "call", "calls"),
        ],
    )
}

// A call, with its line where the script has it.
fn say_call<'a>(
    reason: &mut Reason,
    script: &'a str,
    text: &'a [u8],
    call: &Refused,
) -> Result<(), AllocError> {
    let refusal = call.refusal;
    let Some((line, words)) = call_at(text, call.lane, call.index) else {
        return fill(
            reason,
            "{0}: call {1} of lane {2}: refused {3} {4}",
            &[
                Shown(script.as_bytes()),
                Number(call.index),
                Number(call.lane),
                Number(u64::from(refusal.number())),
                Text(refusal.name()),
            ],
        );
    };
    let command = behind(line_at(text, line), words);
    fill(
        reason,
        "{0}:{1}: {2}: refused {3} {4} (",
        &[
            Shown(script.as_bytes()),
            Number(u64::from(line)),
            Shown(command),
            Number(u64::from(refusal.number())),
            Text(refusal.name()),
        ],
    )?;
    say_why(reason, command, refusal)?;
    reason.say(")")
}

// What the refusal means for the names of a command.
fn say_why(reason: &mut Reason, command: &[u8], refusal: Refusal) -> Result<(), AllocError> {
    let first = word_at(command, 1);
    let second = word_at(command, 2);
    fill(
        reason,
        why(refusal, client_of(first), client_of(second)),
        &[
            Shown(first),
            Shown(second),
            Shown(word_at(command, 3)),
            Shown(client_of(first)),
            Shown(client_of(second)),
            Shown(port_of(command)),
        ],
    )
}

// The sentence of a refusal. `{0}` to `{2}` are the words behind the command's name, `{3}` and `{4}` the clients of the first two,
// and `{5}` is the port that it names.
fn why(refusal: Refusal, first: &[u8], second: &[u8]) -> &'static str {
    match refusal {
        Refusal::NoClient => "no client {3} is open",
        Refusal::NoPort => "there is no port {5}",
        Refusal::IsOpen => "{3} is open already",
        Refusal::IsSystem => "system is not a client that a call changes",
        Refusal::NameTaken => "there is a port {0} already",
        Refusal::AlreadyActive => "{3} is active already",
        Refusal::NotActive => "{3} is not active",
        Refusal::ClientsFull => "64 clients are open",
        Refusal::PortsFull => "{3} has 16 ports of this direction",
        Refusal::NoSource => "there is no port {0}",
        Refusal::NoDestination => "there is no port {1}",
        Refusal::NotOutput => "{0} is an input",
        Refusal::NotInput => "{1} is an output",
        Refusal::TypeDiffers => "one is audio, the other midi",
        Refusal::Inactive => inactive(first, second),
        Refusal::Exists => "they are connected already",
        Refusal::Full => "there are 512 connections",
        Refusal::NotConnected => "they are not connected",
        Refusal::Busy => "another client is the master",
        Refusal::NotMaster => "{3} is not the master",
        Refusal::InUse => "{1} {2} belongs to another open client",
    }
}

// Which client is not active, as far as the names tell: the system is always.
fn inactive(source: &[u8], destination: &[u8]) -> &'static str {
    if is_system(source) || source == destination {
        "{4} is not active"
    } else if is_system(destination) {
        "{3} is not active"
    } else {
        "{3} or {4} is not active"
    }
}

fn is_system(client: &[u8]) -> bool {
    client == b"system".as_slice()
}

// The client of a name, or of a port's name.
fn client_of(name: &[u8]) -> &[u8] {
    for place in 0..name.len() {
        if name[place] == b':' {
            return &name[..place];
        }
    }
    name
}

// The port that a command names, where it names one.
fn port_of(command: &[u8]) -> &[u8] {
    if word_at(command, 0) == b"latency".as_slice() {
        word_at(command, 2)
    } else {
        word_at(command, 1)
    }
}

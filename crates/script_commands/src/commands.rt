//! Commands.

ghost use Rattle.std.specs.Prelude.{◌≡◌, ℕ, List, MatchResult, Ok, Err};
ghost use Rattle.script_words.specs.Reads.{Reads};
ghost use Rattle.script_words.specs.session_model.specs.Reading.{chosen, client, command, kind, made, made_of_two, mode, number, port, port_type, registering, tempo, way};
ghost use Rattle.script_commands.specs.Choosing.{command_of, found_in, other_commands};
ghost use Rattle.script_words.specs.jack_types.specs.declared.commands.Command.{Command as CommandValue};
ghost use Rattle.script_words.specs.jack_types.specs.declared.commands.Command.TheVariants.{Activate, Close, Connect, Deactivate, Disconnect, Latency, Locate, Open, Release, Slow, Timebase, TimebaseIf, Timeout, Unregister};

use crate::kinds::kind;
use script_words::Words;
use script_words::jack_types::{Cause, ClientName, Command, Header, Mode, PortKind, Way};

fn way(words: &mut Words) -> Result<Way, Cause>
    ensures { Reads result words.new (way words.old) }
{
    let word = words.word()?;
    if word == b"in".as_slice() {
        return Ok(Way::In);
    }
    if word == b"out".as_slice() {
        return Ok(Way::Out);
    }
    Err(Cause::Unknown)
}

fn port_type(words: &mut Words) -> Result<PortKind, Cause>
    ensures { Reads result words.new (port_type words.old) }
{
    let word = words.word()?;
    if word == b"audio".as_slice() {
        return Ok(PortKind::Audio);
    }
    if word == b"midi".as_slice() {
        return Ok(PortKind::Midi);
    }
    Err(Cause::Unknown)
}

fn mode(words: &mut Words) -> Result<Mode, Cause>
    ensures { Reads result words.new (mode words.old) }
{
    let word = words.word()?;
    if word == b"capture".as_slice() {
        return Ok(Mode::Capture);
    }
    if word == b"playback".as_slice() {
        return Ok(Mode::Playback);
    }
    Err(Cause::Unknown)
}

fn open(words: &mut Words, header: &Header) -> Result<Command, Cause>
    ensures { Reads result words.new (made_of_two client (kind header.now) Open words.old) }
{
    let client = words.client()?;
    let kind = kind(words, header)?;
    Ok(Command::Open { client, kind })
}

fn close(words: &mut Words) -> Result<Command, Cause>
    ensures { Reads result words.new (made client Close words.old) }
{
    let client = words.client()?;
    Ok(Command::Close { client })
}

fn activate(words: &mut Words) -> Result<Command, Cause>
    ensures { Reads result words.new (made client Activate words.old) }
{
    let client = words.client()?;
    Ok(Command::Activate { client })
}

fn deactivate(words: &mut Words) -> Result<Command, Cause>
    ensures { Reads result words.new (made client Deactivate words.old) }
{
    let client = words.client()?;
    Ok(Command::Deactivate { client })
}

fn register(words: &mut Words) -> Result<Command, Cause>
    ensures { Reads result words.new (registering words.old) }
{
    let port = words.port()?;
    let way = way(words)?;
    let kind = port_type(words)?;
    Ok(Command::Register { port, way, kind })
}

fn unregister(words: &mut Words) -> Result<Command, Cause>
    ensures { Reads result words.new (made port Unregister words.old) }
{
    let port = words.port()?;
    Ok(Command::Unregister { port })
}

fn connect(words: &mut Words) -> Result<Command, Cause>
    ensures { Reads result words.new (made_of_two port port Connect words.old) }
{
    let source = words.port()?;
    let destination = words.port()?;
    Ok(Command::Connect {
        source,
        destination,
    })
}

fn disconnect(words: &mut Words) -> Result<Command, Cause>
    ensures { Reads result words.new (made_of_two port port Disconnect words.old) }
{
    let source = words.port()?;
    let destination = words.port()?;
    Ok(Command::Disconnect {
        source,
        destination,
    })
}

fn locate(words: &mut Words) -> Result<Command, Cause>
    ensures { Reads result words.new (made (number 0 2147483647) Locate words.old) }
{
    let frame = words.number(0, 2147483647)?;
    Ok(Command::Locate {
        frame: frame as u32,
    })
}

fn timeout(words: &mut Words) -> Result<Command, Cause>
    ensures { Reads result words.new (made (number 0 1000000) Timeout words.old) }
{
    let cycles = words.number(0, 1000000)?;
    Ok(Command::Timeout {
        cycles: cycles as u32,
    })
}

fn slow(words: &mut Words) -> Result<Command, Cause>
    ensures { Reads result words.new (made_of_two client (number 0 1000) Slow words.old) }
{
    let client = words.client()?;
    let cycles = words.number(0, 1000)?;
    Ok(Command::Slow {
        client,
        cycles: cycles as u32,
    })
}

/// A client that is to be master, with its tempo.
struct Master {
    client: ClientName,
    mbpm: u32,
    beats: u32,
    ticks: u32,
}

fn tempo(words: &mut Words) -> Result<Master, Cause>
    ensures { MatchResult result
        (λ t. (make : List ℕ → ℕ → ℕ → ℕ → CommandValue) → tempo make words.old ≡ Ok (make t.client t.mbpm t.beats t.ticks, words.new))
        (λ cause. (make : List ℕ → ℕ → ℕ → ℕ → CommandValue) → tempo make words.old ≡ Err cause) }
{
    let client = words.client()?;
    let mbpm = words.number(1000, 999999)?;
    let beats = words.number(1, 32)?;
    let ticks = words.number(1, 9600)?;
    Ok(Master {
        client,
        mbpm: mbpm as u32,
        beats: beats as u32,
        ticks: ticks as u32,
    })
}

fn timebase(words: &mut Words) -> Result<Command, Cause>
    ensures { Reads result words.new (tempo Timebase words.old) }
{
    let Master {
        client,
        mbpm,
        beats,
        ticks,
    } = tempo(words)?;
    Ok(Command::Timebase {
        client,
        mbpm,
        beats,
        ticks,
    })
}

fn timebase_if(words: &mut Words) -> Result<Command, Cause>
    ensures { Reads result words.new (tempo TimebaseIf words.old) }
{
    let Master {
        client,
        mbpm,
        beats,
        ticks,
    } = tempo(words)?;
    Ok(Command::TimebaseIf {
        client,
        mbpm,
        beats,
        ticks,
    })
}

fn release(words: &mut Words) -> Result<Command, Cause>
    ensures { Reads result words.new (made client Release words.old) }
{
    let client = words.client()?;
    Ok(Command::Release { client })
}

fn latency(words: &mut Words) -> Result<Command, Cause>
    ensures { Reads result words.new (made_of_two mode port Latency words.old) }
{
    let mode = mode(words)?;
    let port = words.port()?;
    Ok(Command::Latency { mode, port })
}

/// What a command on transport, times or latency says behind its word.
fn other_command(first: &[u8], words: &mut Words) -> Result<Command, Cause>
    ensures { Reads result words.new (chosen (found_in other_commands first.now) words.old) }
{
    if first == b"start".as_slice() {
        return Ok(Command::Start);
    }
    if first == b"stop".as_slice() {
        return Ok(Command::Stop);
    }
    if first == b"locate".as_slice() {
        return locate(words);
    }
    if first == b"timeout".as_slice() {
        return timeout(words);
    }
    if first == b"slow".as_slice() {
        return slow(words);
    }
    if first == b"timebase".as_slice() {
        return timebase(words);
    }
    if first == b"timebase_if".as_slice() {
        return timebase_if(words);
    }
    if first == b"release".as_slice() {
        return release(words);
    }
    if first == b"latency".as_slice() {
        return latency(words);
    }
    Err(Cause::Unknown)
}

/// What a command says behind its word.
fn command_of(first: &[u8], words: &mut Words, header: &Header) -> Result<Command, Cause>
    ensures { Reads result words.new (chosen (command_of header.now first.now) words.old) }
{
    if first == b"open".as_slice() {
        return open(words, header);
    }
    if first == b"close".as_slice() {
        return close(words);
    }
    if first == b"activate".as_slice() {
        return activate(words);
    }
    if first == b"deactivate".as_slice() {
        return deactivate(words);
    }
    if first == b"register".as_slice() {
        return register(words);
    }
    if first == b"unregister".as_slice() {
        return unregister(words);
    }
    if first == b"connect".as_slice() {
        return connect(words);
    }
    if first == b"disconnect".as_slice() {
        return disconnect(words);
    }
    other_command(first, words)
}

/// A command, by the header's version and its numbers of recorders and disks.
pub fn command(words: &mut Words, header: &Header) -> Result<Command, Cause>
    ensures { Reads result words.new (command header.now words.old) }
{
    let first = words.word()?;
    command_of(first, words, header)
}

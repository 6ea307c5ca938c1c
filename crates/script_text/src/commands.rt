//! Kinds and commands.

ghost use Rattle.std.specs.Prelude.{◌≡◌, ◌++◌, ◌∷◌, IfOk, decimal, string_bytes};
ghost use Rattle.jack_types.specs.declared.commands.Command.TheVariants.{Latency, Open, Register, Slow};
ghost use Rattle.jack_types.specs.declared.kinds.Kind.TheVariants.{Click, Gain, Tone};
ghost use Rattle.grammar_laws.specs.session_model.specs.Grammar.{command_slots, kind_slots, mode_word, type_word, way_word};
ghost use Rattle.script_text.specs.Printing.{with_words};

use crate::words::{put_number, put_signed, put_word};
use jack_types::{ClientName, Command, Kind, Mode, PortKind, PortName, Way};
use std::alloc::AllocError;

fn put_client(text: &mut String, client: &ClientName) -> Result<(), AllocError>
    ensures { IfOk result (λ _. string_bytes text.new ≡ string_bytes text.old ++ 32 ∷ client.now) }
{
    put_word(text, client.text())
}

fn put_port(text: &mut String, port: &PortName) -> Result<(), AllocError>
    ensures { IfOk result (λ _. string_bytes text.new ≡ string_bytes text.old ++ 32 ∷ port.now) }
{
    put_word(text, port.text())
}

fn way_word(way: Way) -> &'static str
    ensures { result.now ≡ way_word way }
{
    match way {
        Way::In => "in",
        Way::Out => "out",
    }
}

fn type_word(kind: PortKind) -> &'static str
    ensures { result.now ≡ type_word kind }
{
    match kind {
        PortKind::Audio => "audio",
        PortKind::Midi => "midi",
    }
}

fn mode_word(mode: Mode) -> &'static str
    ensures { result.now ≡ mode_word mode }
{
    match mode {
        Mode::Capture => "capture",
        Mode::Playback => "playback",
    }
}

/// A word and a number.
fn put_numbered(text: &mut String, word: &str, n: u32) -> Result<(), AllocError>
    ensures { IfOk result (λ _. string_bytes text.new ≡ (string_bytes text.old ++ 32 ∷ word.now) ++ 32 ∷ decimal n) }
{
    put_word(text, word)?;
    put_number(text, n)
}

fn put_gain(text: &mut String, factor: i32, shift: u32) -> Result<(), AllocError>
    ensures { IfOk result (λ _. string_bytes text.new ≡ with_words (string_bytes text.old) (kind_slots (Gain factor shift))) }
{
    put_word(text, "gain")?;
    put_signed(text, factor)?;
    put_number(text, shift)
}

fn put_tone(text: &mut String, half: u32, level: i32) -> Result<(), AllocError>
    ensures { IfOk result (λ _. string_bytes text.new ≡ with_words (string_bytes text.old) (kind_slots (Tone half level))) }
{
    put_word(text, "tone")?;
    put_number(text, half)?;
    put_signed(text, level)
}

fn put_click(text: &mut String, level: i32) -> Result<(), AllocError>
    ensures { IfOk result (λ _. string_bytes text.new ≡ with_words (string_bytes text.old) (kind_slots (Click level))) }
{
    put_word(text, "click")?;
    put_signed(text, level)
}

fn put_kind(text: &mut String, kind: &Kind) -> Result<(), AllocError>
    ensures { IfOk result (λ _. string_bytes text.new ≡ with_words (string_bytes text.old) (kind_slots kind.now)) }
{
    match kind {
        Kind::Pass => put_word(text, "pass"),
        Kind::Gain { factor, shift } => put_gain(text, *factor, *shift),
        Kind::Mix => put_word(text, "mix"),
        Kind::Delay { frames } => put_numbered(text, "delay", *frames),
        Kind::Tone { half, level } => put_tone(text, *half, *level),
        Kind::Click { level } => put_click(text, *level),
        Kind::Meter => put_word(text, "meter"),
        Kind::Tape { recorder } => put_numbered(text, "record", u32::from(*recorder)),
        Kind::Guest { guest } => put_numbered(text, "guest", u32::from(*guest)),
        Kind::Midiplay { list } => put_numbered(text, "midiplay", u32::from(*list)),
        Kind::Midithru => put_word(text, "midithru"),
        Kind::Midilog => put_word(text, "midilog"),
        Kind::Disk { disk } => put_numbered(text, "disk", u32::from(*disk)),
    }
}

/// A word and a client.
fn put_on_client(text: &mut String, word: &str, client: &ClientName) -> Result<(), AllocError>
    ensures { IfOk result (λ _. string_bytes text.new ≡ (string_bytes text.old ++ 32 ∷ word.now) ++ 32 ∷ client.now) }
{
    put_word(text, word)?;
    put_client(text, client)
}

/// A word and a port.
fn put_on_port(text: &mut String, word: &str, port: &PortName) -> Result<(), AllocError>
    ensures { IfOk result (λ _. string_bytes text.new ≡ (string_bytes text.old ++ 32 ∷ word.now) ++ 32 ∷ port.now) }
{
    put_word(text, word)?;
    put_port(text, port)
}

fn put_open(text: &mut String, client: &ClientName, kind: &Kind) -> Result<(), AllocError>
    ensures { IfOk result (λ _. string_bytes text.new ≡ with_words (string_bytes text.old) (command_slots (Open client.now kind.now))) }
{
    put_on_client(text, "open", client)?;
    put_kind(text, kind)
}

fn put_register(
    text: &mut String,
    port: &PortName,
    way: Way,
    kind: PortKind,
) -> Result<(), AllocError>
    ensures { IfOk result (λ _. string_bytes text.new ≡ with_words (string_bytes text.old) (command_slots (Register port.now way kind))) }
{
    put_on_port(text, "register", port)?;
    put_word(text, way_word(way))?;
    put_word(text, type_word(kind))
}

/// A word and two ports.
fn put_on_ports(
    text: &mut String,
    word: &str,
    source: &PortName,
    destination: &PortName,
) -> Result<(), AllocError>
    ensures { IfOk result (λ _. string_bytes text.new ≡ ((string_bytes text.old ++ 32 ∷ word.now) ++ 32 ∷ source.now) ++ 32 ∷ destination.now) }
{
    put_on_port(text, word, source)?;
    put_port(text, destination)
}

fn put_slow(text: &mut String, client: &ClientName, cycles: u32) -> Result<(), AllocError>
    ensures { IfOk result (λ _. string_bytes text.new ≡ with_words (string_bytes text.old) (command_slots (Slow client.now cycles))) }
{
    put_on_client(text, "slow", client)?;
    put_number(text, cycles)
}

/// A word, a client and a tempo.
fn put_tempo(
    text: &mut String,
    word: &str,
    client: &ClientName,
    mbpm: u32,
    beats: u32,
    ticks: u32,
) -> Result<(), AllocError>
    ensures { IfOk result (λ _. string_bytes text.new ≡ ((((string_bytes text.old ++ 32 ∷ word.now) ++ 32 ∷ client.now) ++ 32 ∷ decimal mbpm) ++ 32 ∷ decimal beats) ++ 32 ∷ decimal ticks) }
{
    put_on_client(text, word, client)?;
    put_number(text, mbpm)?;
    put_number(text, beats)?;
    put_number(text, ticks)
}

fn put_latency(text: &mut String, mode: Mode, port: &PortName) -> Result<(), AllocError>
    ensures { IfOk result (λ _. string_bytes text.new ≡ with_words (string_bytes text.old) (command_slots (Latency mode port.now))) }
{
    put_word(text, "latency")?;
    put_word(text, mode_word(mode))?;
    put_port(text, port)
}

pub fn put_command(text: &mut String, command: &Command) -> Result<(), AllocError>
    ensures { IfOk result (λ _. string_bytes text.new ≡ with_words (string_bytes text.old) (command_slots command.now)) }
{
    match command {
        Command::Open { client, kind } => put_open(text, client, kind),
        Command::Close { client } => put_on_client(text, "close", client),
        Command::Activate { client } => put_on_client(text, "activate", client),
        Command::Deactivate { client } => put_on_client(text, "deactivate", client),
        Command::Register { port, way, kind } => put_register(text, port, *way, *kind),
        Command::Unregister { port } => put_on_port(text, "unregister", port),
        Command::Connect {
            source,
            destination,
        } => put_on_ports(text, "connect", source, destination),
        Command::Disconnect {
            source,
            destination,
        } => put_on_ports(text, "disconnect", source, destination),
        Command::Start => put_word(text, "start"),
        Command::Stop => put_word(text, "stop"),
        Command::Locate { frame } => put_numbered(text, "locate", *frame),
        Command::Timeout { cycles } => put_numbered(text, "timeout", *cycles),
        Command::Slow { client, cycles } => put_slow(text, client, *cycles),
        Command::Timebase {
            client,
            mbpm,
            beats,
            ticks,
        } => put_tempo(text, "timebase", client, *mbpm, *beats, *ticks),
        Command::TimebaseIf {
            client,
            mbpm,
            beats,
            ticks,
        } => put_tempo(text, "timebase_if", client, *mbpm, *beats, *ticks),
        Command::Release { client } => put_on_client(text, "release", client),
        Command::Latency { mode, port } => put_latency(text, *mode, port),
    }
}

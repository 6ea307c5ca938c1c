//! Words, and those of kinds.

ghost use Rattle.std.specs.Prelude.{◌≡◌, ◌++◌, ◌∷◌, [], IfOk, decimal, string_bytes};
ghost use Rattle.jack_types.specs.declared.kinds.Kind.TheVariants.{Click, Gain, Tone};
ghost use Rattle.script_text.specs.Printing.{with_words};
ghost use Rattle.session_graph.specs.Texts.{activity_word, mark_word};
ghost use Rattle.session_model.specs.Grammar.{int_text, kind_slots, type_word, way_word};
ghost use Rattle.session_model.specs.Reports.{state_name};

use jack_types::{Kind, Mark, PortKind, TransportState, Way};
use std::alloc::AllocError;

/// A word behind a space.
pub(crate) fn put_word(text: &mut String, word: &str) -> Result<(), AllocError>
    ensures { IfOk result (λ _. string_bytes text.new ≡ string_bytes text.old ++ 32 ∷ word.now) }
{
    text.push_str(" ")?;
    text.push_str(word)
}

/// A number behind a space.
pub(crate) fn put_number(text: &mut String, n: u64) -> Result<(), AllocError>
    ensures { IfOk result (λ _. string_bytes text.new ≡ string_bytes text.old ++ 32 ∷ decimal n) }
{
    write!(text, " {n}")
}

/// A number with its sign, behind a space.
fn put_signed(text: &mut String, z: i32) -> Result<(), AllocError>
    ensures { IfOk result (λ _. string_bytes text.new ≡ string_bytes text.old ++ 32 ∷ int_text z) }
{
    write!(text, " {z}")
}

/// The end of a line.
pub(crate) fn end_line(text: &mut String) -> Result<(), AllocError>
    ensures { IfOk result (λ _. string_bytes text.new ≡ string_bytes text.old ++ 10 ∷ []) }
{
    text.push_str("\n")
}

/// A word and a number.
fn put_numbered(text: &mut String, word: &str, n: u32) -> Result<(), AllocError>
    ensures { IfOk result (λ _. string_bytes text.new ≡ (string_bytes text.old ++ 32 ∷ word.now) ++ 32 ∷ decimal n) }
{
    put_word(text, word)?;
    put_number(text, u64::from(n))
}

fn put_gain(text: &mut String, factor: i32, shift: u32) -> Result<(), AllocError>
    ensures { IfOk result (λ _. string_bytes text.new ≡ with_words (string_bytes text.old) (kind_slots (Gain factor shift))) }
{
    put_word(text, "gain")?;
    put_signed(text, factor)?;
    put_number(text, u64::from(shift))
}

fn put_tone(text: &mut String, half: u32, level: i32) -> Result<(), AllocError>
    ensures { IfOk result (λ _. string_bytes text.new ≡ with_words (string_bytes text.old) (kind_slots (Tone half level))) }
{
    put_word(text, "tone")?;
    put_number(text, u64::from(half))?;
    put_signed(text, level)
}

fn put_click(text: &mut String, level: i32) -> Result<(), AllocError>
    ensures { IfOk result (λ _. string_bytes text.new ≡ with_words (string_bytes text.old) (kind_slots (Click level))) }
{
    put_word(text, "click")?;
    put_signed(text, level)
}

/// The words of a kind, as a script has them, each behind a space.
pub(crate) fn put_kind(text: &mut String, kind: &Kind) -> Result<(), AllocError>
    ensures { IfOk result (λ _. string_bytes text.new ≡ with_words (string_bytes text.old) (kind_slots kind.now)) }
{
    match kind {
        Kind::Pass => put_word(text, "pass"),
        Kind::Gain { factor, shift } => put_gain(text, *factor, *shift),
        Kind::Mix => put_word(text, "mix"),
        Kind::Delay { frames } => put_numbered(text, "delay", *frames),
        Kind::Tone { half, level } => put_tone(text, *half, *level),
        Kind::Click { level } => put_click(text, *level),
        Kind::Meter => put_word(text, "meter"),
        Kind::Tape { recorder } => put_numbered(text, "record", u32::from(*recorder)),
        Kind::Guest { guest } => put_numbered(text, "guest", u32::from(*guest)),
        Kind::Midiplay { list } => put_numbered(text, "midiplay", u32::from(*list)),
        Kind::Midithru => put_word(text, "midithru"),
        Kind::Midilog => put_word(text, "midilog"),
        Kind::Disk { disk } => put_numbered(text, "disk", u32::from(*disk)),
    }
}

pub(crate) fn way_word(way: Way) -> &'static str
    ensures { result.now ≡ way_word way }
{
    match way {
        Way::In => "in",
        Way::Out => "out",
    }
}

pub(crate) fn type_word(kind: PortKind) -> &'static str
    ensures { result.now ≡ type_word kind }
{
    match kind {
        PortKind::Audio => "audio",
        PortKind::Midi => "midi",
    }
}

pub(crate) fn mark_word(mark: Mark) -> &'static str
    ensures { result.now ≡ mark_word mark }
{
    match mark {
        Mark::Direct => "direct",
        Mark::Feedback => "feedback",
    }
}

pub(crate) fn activity_word(active: bool) -> &'static str
    ensures { result.now ≡ activity_word active }
{
    if active { "active" } else { "inactive" }
}

pub(crate) fn state_word(state: TransportState) -> &'static str
    ensures { result.now ≡ state_name state }
{
    match state {
        TransportState::Stopped => "stopped",
        TransportState::Starting => "starting",
        TransportState::Rolling => "rolling",
    }
}

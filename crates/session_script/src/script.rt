//! The script, and its text.

ghost use Rattle.std.specs.Prelude.{◌≡◌, ◌≢◌, ◌<◌, [], ℕ, IfErr, IfOk, Some, slice_index_or};
ghost use Rattle.jack_types.specs.declared.scripts.Cause.TheVariants.{Memory as WantOfMemory};

use crate::lists::copies_of;
use crate::reading::read_parts;
use jack_types::{Body, Event, Header, Memory, ScriptFault};
use script_text::printed;
use std::alloc::Global;
use std::marker::Model;

/// What a script says. Contracts see its header, its sixteen lists of events and its body lines;
/// each script's numbers are in their ranges, and its lines keep the limits.
#[derive(Drop)]
pub struct Script {
    header: Header,
    events: Vec<Vec<(u32, Event)>>,
    lines: Vec<Body>,
}

impl Model for Script {
    ghost use Rattle.std.specs.Prelude.{map};
    ghost use Rattle.script_text.specs.session_model.specs.Scripts.{Script as ScriptValue};
    ghost use Rattle.session_script.specs.Parts.{IsLawful, script_of_parts};

    ghost Value = { ScriptValue };

    ghost view = { λ s. script_of_parts s.header (map (λ list. list.items) s.events.items) s.lines.items };

    ghost invariant = { λ s. IsLawful (script_of_parts s.header (map (λ list. list.items) s.events.items) s.lines.items) };
}

/// The bytes of a script's text. Contracts see their list.
#[derive(Drop)]
pub struct Text {
    text: String,
}

impl Model for Text {
    ghost use Rattle.std.specs.Prelude.{List, ℕ, string_bytes};

    ghost Value = { List ℕ };

    ghost view = { λ t. string_bytes t.text };
}

impl Text {
    /// The bytes, in one piece.
    pub fn as_bytes(&self) -> &[u8]
        ensures { result.now ≡ self.now }
    {
        self.text.as_bytes()
    }
}

impl Script {
    ghost use Rattle.script_text.specs.session_model.specs.Grammar.{IsScript, Spells, script_text};
    ghost use Rattle.script_text.specs.session_model.specs.Reading.{script_fault};
    ghost use Rattle.script_text.specs.session_model.specs.Scripts.{Script as ScriptValue};

    /// Reads a script in one pass, or answers its first fault. Any bytes will do.
    ///
    /// Lines are counted from 1. `Memory` is no fault of the bytes, and its line says nothing.
    pub fn read(alloc: Global, bytes: &[u8]) -> Result<Script, ScriptFault>
        ensures script { IfOk result (λ s. Spells bytes.now s) }
        ensures only { IfOk result (λ s. (other : ScriptValue) → Spells bytes.now other → s ≡ other) }
        ensures fault { IfErr result (λ f. f.cause ≢ WantOfMemory → script_fault bytes.now ≡ Some f) }
        ensures none { IfErr result (λ f. f.cause ≢ WantOfMemory → (other : ScriptValue) → ¬ Spells bytes.now other) }
    {
        match read_parts(alloc, bytes) {
            Ok(parts) => Ok(Script {
                header: parts.header,
                events: parts.events,
                lines: parts.lines,
            }),
            Err(fault) => Err(fault),
        }
    }

    /// The script's one spelling: words separated by one space, numbers without leading zeros, and each
    /// line ended by LF. `ring` and `drain` are always there, and in version 3 `fill` too.
    pub fn text(&self, alloc: Global) -> Result<Text, Memory>
        ensures printed { IfOk result (λ t. t ≡ script_text self.now) }
        ensures again { IfOk result (λ t. Spells t self.now) }
    {
        match printed(
            alloc,
            &self.header,
            self.events.as_slice(),
            self.lines.as_slice(),
        ) {
            Ok(text) => Ok(Text { text }),
            Err(_) => Err(Memory),
        }
    }

    /// The script anew, for one who keeps it.
    pub fn copy(&self, alloc: Global) -> Result<Script, Memory>
        ensures copy { IfOk result (λ copy. copy ≡ self.now) }
    {
        let Ok(events) = copies_of(alloc, self.events.as_slice()) else {
            return Err(Memory);
        };
        let Ok(lines) = Vec::from_slice(alloc, self.lines.as_slice()) else {
            return Err(Memory);
        };
        Ok(Script {
            header: self.header,
            events,
            lines,
        })
    }

    /// What the header lines say.
    pub fn header(&self) -> Header
        ensures value { result ≡ self.now.header }
        ensures lawful { IsScript self.now }
    {
        self.header
    }

    /// The body lines in their order.
    pub fn lines(&self) -> &[Body]
        ensures value { result.now ≡ self.now.lines }
        ensures lawful { IsScript self.now }
    {
        self.lines.as_slice()
    }

    /// A list's events, each with its frame.
    pub fn events(&self, list: u8) -> &[(u32, Event)]
        requires { list < 16 }
        ensures value { result.now ≡ slice_index_or self.now.events list [] }
        ensures lawful { IsScript self.now }
    {
        self.events[list as usize].as_slice()
    }
}

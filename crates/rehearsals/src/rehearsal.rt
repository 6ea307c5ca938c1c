//! A rehearsal.

ghost use Rattle.std.specs.Prelude.{◌≡◌, IfOk};
ghost use Rattle.rehearsal_model.specs.Rehearsals.{rehearsal_capture, rehearsal_script};

use crate::drawing::generator;
use crate::lines::draw_script;
use crate::sounds::{draw_samples, file_of};
use host_memory::MemoryStore;
use jack_types::Memory;
use rehearsal_laws::captures::rehearsal_is_a_wave;
use std::alloc::Global;
use std::marker::Model;

/// The two files of the session that is made from a number. Contracts see the `Made`: their bytes.
#[derive(Drop)]
pub struct Rehearsal {
    script: String,
    capture: MemoryStore,
}

impl Model for Rehearsal {
    ghost use Rattle.std.specs.Prelude.{string_bytes};
    ghost use Rattle.host_memory.specs.Memory.{store_bytes};
    ghost use Rattle.rehearsals.specs.Made.{Made};

    ghost Value = { Made };

    ghost view = { λ r. record { script = string_bytes r.script; capture = store_bytes r.capture } };
}

impl Rehearsal {
    /// The session of a number: its script, of 32 clients and 10,000 cycles, and its capture, of 640,000 frames.
    pub fn make(alloc: Global, number: u32) -> Result<Rehearsal, Memory>
        ensures script { IfOk result (λ made. made.script ≡ rehearsal_script number) }
        ensures capture { IfOk result (λ made. made.capture ≡ rehearsal_capture number) }
    {
        rehearsal_is_a_wave();
        let mut rng = generator(number);
        let Ok(script) = draw_script(alloc, &mut rng) else {
            return Err(Memory);
        };
        let Ok(samples) = draw_samples(alloc, &mut rng) else {
            return Err(Memory);
        };
        let capture = file_of(alloc, &samples)?;
        Ok(Rehearsal { script, capture })
    }

    /// The bytes of the script, in the spelling that is printed.
    pub fn script(&self) -> &[u8]
        ensures { result.now ≡ self.now.script }
    {
        self.script.as_str().as_bytes()
    }

    /// The bytes of the capture, a WAVE file of 16 bits and two channels at 48,000 frames a second.
    pub fn capture(&self) -> &[u8]
        ensures { result.now ≡ self.now.capture }
    {
        self.capture.as_bytes()
    }
}

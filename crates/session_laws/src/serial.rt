//! Laws of serial mode.

ghost use Rattle.std.specs.Prelude.{◌≡◌, ℕ, ◌<◌, ℤ, List, [], length, slice_index_or, None};
ghost use Rattle.session_model.specs.jack_types.specs.declared.replies.Underrun.{Underrun as UnderrunValue};
ghost use Rattle.session_model.specs.Courses.{DiskFile};
ghost use Rattle.session_model.specs.Explanations.{Explained, Given, written_of};
ghost use Rattle.session_model.specs.Grammar.{IsScript};
ghost use Rattle.session_model.specs.Histories.{Cycles, Legal};
ghost use Rattle.session_model.specs.Kinds.{Sound};
ghost use Rattle.session_model.specs.Recorders.{Lost};
ghost use Rattle.session_model.specs.Scripts.{Script};
ghost use Rattle.session_model.specs.Serial.{course_in_serial, serial, serial_printed};

/// The serial meaning is a legal history, with numbers in their bounds, and with overruns that can be.
pub fn serial_meaning_is_legal()
    ensures history { (script : Script) → IsScript script → Legal script (serial script).history }
    ensures numbers { (script : Script) → IsScript script → Cycles script (serial script).history (serial script).numbers }
    ensures overruns { (script : Script) → IsScript script → script.header.threads ≡ None
        → (capture : List ℤ) (disks : List DiskFile) (scores : List Sound) (underruns : List (List UnderrunValue)) (recorder : ℕ) → recorder < length script.header.recorders
        → Lost (course_in_serial script capture disks scores underruns) (slice_index_or (serial script).overruns recorder []) recorder }
{}

/// Every lawful script in serial mode has an explanation, over any files.
pub fn serial_mode_is_explained()
    ensures { (given : Given) → IsScript given.script → given.script.header.threads ≡ None → Explained given (serial_printed given) (written_of given (serial_printed given)) }
{}

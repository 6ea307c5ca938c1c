//! Laws of the recorder.

ghost use Rattle.std.specs.Prelude.{◌≡◌, ℕ, [], length};
ghost use Rattle.rehearsal_model.specs.Rehearsals.{rehearsal};
ghost use Rattle.session_model.specs.Explanations.{course_of, record_text};
ghost use Rattle.session_model.specs.Reports.{printed_recorder};
ghost use Rattle.session_model.specs.Serial.{serial};

/// The recorder of each rehearsal keeps a block of each of the 10,000 cycles and loses none, and its file has 1,280,044 bytes.
pub fn rehearsal_is_recorded()
    ensures row { (n : ℕ) → printed_recorder (course_of (rehearsal n) (serial (rehearsal n).script)) (serial (rehearsal n).script).overruns 0
        ≡ record { recorder = 0; blocks = 10000; overruns = [] } }
    ensures size { (n : ℕ) → length (record_text (rehearsal n) (serial (rehearsal n).script) 0) ≡ 1280044 }
{}

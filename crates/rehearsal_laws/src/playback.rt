//! Laws of the playback's file.

ghost use Rattle.std.specs.Prelude.{◌≡◌, ℕ, drop, length, map};
ghost use Rattle.rehearsal_model.specs.Rehearsals.{rehearsal, units_played};
ghost use Rattle.session_model.specs.Explanations.{playback_text};
ghost use Rattle.session_model.specs.Samples.{down, samples_of};
ghost use Rattle.session_model.specs.Serial.{serial};

/// The playback's file of each rehearsal has 2,560,044 bytes, and behind its header the numbers that the summary tells of.
pub fn rehearsal_is_played()
    ensures size { (n : ℕ) → length (playback_text (rehearsal n) (serial (rehearsal n).script)) ≡ 2560044 }
    ensures units { (n : ℕ) → map (down 16) (samples_of 16 (drop 44 (playback_text (rehearsal n) (serial (rehearsal n).script)))) ≡ units_played n }
{}

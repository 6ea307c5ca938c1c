//! Laws of the capture.

ghost use Rattle.std.specs.Prelude.{◌≡◌, ℕ, Ok, length};
ghost use Rattle.rehearsal_model.specs.Rehearsals.{rehearsal, rehearsal_capture, rehearsal_format};
ghost use Rattle.session_model.specs.WaveFiles.{AreWritable, IsWave};
ghost use Rattle.session_model.specs.WaveOpening.{Opened, opened, wave_in};

/// The capture of each number has 640,000 frames of two channels, and its bytes are a wave of its very samples.
pub fn rehearsal_is_a_wave()
    ensures count { (n : ℕ) → length (rehearsal n).capture ≡ 1280000 }
    ensures writable { (n : ℕ) → AreWritable rehearsal_format (rehearsal n).capture }
    ensures wave { (n : ℕ) → IsWave (rehearsal_capture n) rehearsal_format (rehearsal n).capture }
{}

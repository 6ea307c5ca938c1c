//! Fronts of WAVE files.

ghost use Rattle.std.specs.Prelude.{◌≡◌, ◌++◌, ℤ, ℕ, [], List, Option, Some, IfSome};
ghost use Rattle.jack_types.specs.declared.files.Format.{Format};
ghost use Rattle.jack_host.specs.Files.{IsFrontOf};
ghost use Rattle.session_model.specs.Samples.{bytes_of};
ghost use Rattle.session_model.specs.WaveFiles.{opening_text, wave_text};
ghost use Rattle.driver_words.specs.Tapes.{HasAnyFront, HasFront};

/// What a store has behind a fault has any front of its file.
pub fn what_has_a_front_has_any_front()
    ensures { (format : Format) (samples : List ℤ) (told : Option (List ℕ)) → HasFront format samples told → HasAnyFront format samples told }
{}

/// The first bytes of what has any front have one: so what is left of a file that was handed back in part.
pub fn what_a_front_leaves_has_one()
    ensures { (format : Format) (samples : List ℤ) (told : Option (List ℕ)) (left : List ℕ) → HasAnyFront format samples told → IsFrontOf told left → HasAnyFront format samples (Some left) }
{}

/// A file that was made and not written has one.
pub fn an_empty_file_has_a_front()
    ensures { (format : Format) (samples : List ℤ) → HasAnyFront format samples (Some []) }
{}

/// A finished file has one, so what is left of it has.
pub fn a_finished_file_has_a_front()
    ensures { (format : Format) (samples : List ℤ) (told : Option (List ℕ)) → IfSome told (λ text. text ≡ wave_text format samples) → HasAnyFront format samples told }
{}

/// And an unfinished one.
pub fn an_unfinished_file_has_a_front()
    ensures { (format : Format) (samples : List ℤ) (told : Option (List ℕ)) → IfSome told (λ bytes. bytes ≡ opening_text format ++ bytes_of format.bits samples) → HasAnyFront format samples told }
{}

//! What the channels of a period are, in the samples of the capture.

ghost use Rattle.std.specs.Prelude.{◌≡◌, ◌+◌, ◌*◌, ◌<◌, ℕ, ℤ, [], List, Option, Some, length, map, replicate, slice_index_or};
ghost use Rattle.session_model.specs.Samples.{below, sample, silence};
ghost use Rattle.playback_mix.specs.device_periods.specs.Captures.{Reads};

/// A period that was read has as many channels as the capture, each with the next samples that are left, and zeros past their
/// end; a period that was rested has as many, all silent.
pub fn a_period_is_what_the_capture_has()
    ensures as_many { (left : List ℤ) (after : Option (List ℤ)) (channels : List (List ℤ)) (count frames : ℕ) → Reads (Some left) after channels count frames → length channels ≡ count }
    ensures read { (left : List ℤ) (after : Option (List ℤ)) (channels : List (List ℤ)) (count frames c : ℕ) → Reads (Some left) after channels count frames → c < count
        → slice_index_or channels c [] ≡ map (λ i. sample left (i * count + c)) (below frames) }
    ensures rest { (channels : List (List ℤ)) (count frames : ℕ) → channels ≡ replicate count (silence frames)
        → (length channels ≡ count) × ((c : ℕ) → c < count → slice_index_or channels c [] ≡ silence frames) }
{}

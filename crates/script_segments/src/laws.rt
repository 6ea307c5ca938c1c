//! Laws of the segments of a script, for those who run them one by one.

ghost use Rattle.std.specs.Prelude.{◌≡◌, ℕ, Some, length, slice_get};
ghost use Rattle.session_model.specs.Scripts.{Phase, Script, phases};
ghost use Rattle.script_segments.specs.Segments.{segment_of, segments};
ghost use Rattle.script_segments.specs.declared.lines.Segment.{Segment};

/// There is a segment for each phase, and at each place stands that of the phase there.
pub fn segments_are_the_phases()
    ensures there { (script : Script) (done : ℕ) (segment : Segment) → slice_get (segments script) done ≡ Some segment → (phase : Phase) × (slice_get (phases script) done ≡ Some phase) × (segment ≡ segment_of phase) }
    ensures count { (script : Script) → length (segments script) ≡ length (phases script) }
{}

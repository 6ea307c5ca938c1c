//! Laws of what rings and playback have behind the last cycle, in the words of the definitions.

ghost use Rattle.std.specs.Prelude.{◌≡◌, ◌+◌, ◌<◌, ◌≤◌, ℕ, All, IsNone, IsSome, List, false, length};
ghost use Rattle.record_ring.specs.jack_types.specs.declared.replies.Overrun.{Overrun as OverrunValue};
ghost use Rattle.record_ring.specs.jack_types.specs.declared.replies.Underrun.{Underrun as UnderrunValue};
ghost use Rattle.record_ring.specs.session_model.specs.Courses.{Course, turn, underruns_of};
ghost use Rattle.record_ring.specs.session_model.specs.Disks.{IsBehindRing, IsSerial, Played, segment_start};
ghost use Rattle.record_ring.specs.session_model.specs.Playback.{played_back};
ghost use Rattle.record_ring.specs.session_model.specs.Recorders.{IsAfterSegment, Lost, kept_before, recorded};
ghost use Rattle.record_ring.specs.session_model.specs.Scripts.{turns};
ghost use Rattle.record_ring.specs.driver_words.specs.Rings.{Getting, Sending};
ghost use Rattle.record_ring.specs.session_model.specs.Rings.{samples_of_blocks};
ghost use Rattle.driver_laws.specs.Keeping.{KeepsDisk, KeepsRing, kept_blocks, played_so_far};
ghost use Rattle.driver_laws.specs.Segments.{cycles_before};

/// The blocks kept are as many as the definition counts, and behind all cycles their samples are those of the recorder's file.
pub fn blocks_kept_are_recorded()
    ensures count { (course : Course) (losses : List OverrunValue) (recorder n : ℕ) → length (kept_blocks course losses recorder n) ≡ kept_before course losses recorder (n + 1) }
    ensures samples { (course : Course) (losses : List OverrunValue) (recorder : ℕ) → samples_of_blocks (kept_blocks course losses recorder (length (turns course.script))) ≡ recorded course losses recorder }
{}

/// Behind all cycles the playback has what the playback file holds.
pub fn all_is_played_back()
    ensures { (course : Course) → played_so_far course (length (turns course.script)) ≡ played_back course }
{}

/// The overruns of a ring behind all cycles are ones that can be, where they are of `run` cycles.
pub fn overruns_can_be()
    ensures { (course : Course) (recorder : ℕ) (ring : Sending) (losses : List OverrunValue) → KeepsRing course (length (turns course.script)) recorder ring losses
        → All (λ (overrun : OverrunValue). (turn course overrun.cycle).is_freewheel ≡ false) losses
        → (IsSome course.script.header.threads → All (IsAfterSegment course losses recorder) losses) → Lost course losses recorder }
{}

/// So are the underruns of a disk.
pub fn underruns_can_be()
    ensures { (course : Course) (disk : ℕ) (got : Getting) → KeepsDisk course (length (turns course.script)) disk got (underruns_of course disk)
        → All (λ (underrun : UnderrunValue). (turn course underrun.cycle).is_freewheel ≡ false) (underruns_of course disk)
        → (IsSome course.script.header.threads → All (IsBehindRing course disk) (underruns_of course disk))
        → (IsNone course.script.header.threads → IsSerial course disk) → Played course disk }
{}

/// A segment begins behind the cycles of the earlier phases, and a look that is not below what was put by then comes behind all of it.
pub fn segments_begin_behind_phases()
    ensures start { (course : Course) (phase k : ℕ) → cycles_before course.script phase < k → k ≤ cycles_before course.script (phase + 1) → segment_start course k ≡ cycles_before course.script phase + 1 }
    ensures look { (course : Course) (losses : List OverrunValue) (recorder phase : ℕ) (overrun : OverrunValue) → cycles_before course.script phase < overrun.cycle → overrun.cycle ≤ cycles_before course.script (phase + 1)
        → length (kept_blocks course losses recorder (cycles_before course.script phase)) ≤ overrun.taken → IsAfterSegment course losses recorder overrun }
{}

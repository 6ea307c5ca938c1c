//! Laws of threads mode: in a segment whose rings were filled before it, underruns come behind what the rings held.

ghost use Rattle.std.specs.Prelude.{◌≡◌, ◌+◌, ◌≤◌, ℕ};
ghost use Rattle.session_model.specs.Explanations.{Given};
ghost use Rattle.driver_laws.specs.Cycling.{CyclesMany, HasMetOthers};
ghost use Rattle.driver_laws.specs.Drivers.{run};
ghost use Rattle.driver_laws.specs.Segments.{cycles_before};
ghost use Rattle.run_laws.specs.Runs.{MissesBehindRing};
ghost use Rattle.run_laws.specs.Sessions.{IsFor, IsOne, KeepsAny, Session};
ghost use Rattle.disk_runs.specs.Rests.{DisksFilled};

use driver_laws::courses::a_meeting_changes_nothing;
use driver_laws::cycling::graph_is_of_the_row;
use driver_laws::endings::segments_begin_behind_phases;

/// The cycles of a phase, the first of them behind the reading that filled the rings: each underrun comes behind what its ring
/// held when they began.
pub fn a_segment_misses_behind_its_rings()
    ensures { (given : Given) (phase many : ℕ) (session after : Session) → IsOne session → IsFor session given → KeepsAny given session.driver → DisksFilled given session
        → run session.driver ≡ cycles_before session.script phase → cycles_before session.script phase + many ≤ cycles_before session.script (phase + 1)
        → CyclesMany many session.driver after.driver → (disk : ℕ) → MissesBehindRing given session disk → MissesBehindRing given after disk }
{
    graph_is_of_the_row();
    segments_begin_behind_phases();
}

/// Meetings change nothing of that.
pub fn meetings_miss_nothing()
    ensures { (given : Given) (session after : Session) → HasMetOthers session.driver after.driver → (disk : ℕ) → MissesBehindRing given session disk → MissesBehindRing given after disk }
{
    a_meeting_changes_nothing();
}

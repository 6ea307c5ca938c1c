//! What the laws of a run in serial mode say together.

ghost use Rattle.serial_run.specs.Laws.{AtFront, AtNext, BehindAtFirst, BehindLastCycle, FrontsWhereFailed, KeptAtFirst, KeptAtFront, KeptNext, RanBehind, RunsWhole, SettledTurned, SoundBegun, TellsBegun};
ghost use Rattle.session_works.specs.Laws.{CycleIs, CycleThere, SegmentsOfPhases, SettledAtFirst};

use session_works::laws::phases_and_cycles;
use session_works::passed::{
    a_cycle_goes_on, a_phase_begins, a_phase_ends, a_serial_run_is_whole,
    a_session_stands_before_its_first_phase, a_turn_leaves_the_parts,
    a_turn_that_fails_leaves_fronts, all_phases_end, desks_leave_the_parts,
};

/// A phase: its front, each of its cycles, one that fails, and its end.
pub(crate) fn a_phase_by_cycles()
    ensures segments { SegmentsOfPhases }
    ensures there { CycleThere }
    ensures is { CycleIs }
    ensures begun { SoundBegun }
    ensures begun_tells { TellsBegun }
    ensures front { AtFront }
    ensures kept_front { KeptAtFront }
    ensures turned { SettledTurned }
    ensures next { AtNext }
    ensures kept_next { KeptNext }
    ensures failed { FrontsWhereFailed }
    ensures ends { BehindLastCycle }
{
    phases_and_cycles();
    desks_leave_the_parts();
    a_phase_begins();
    a_turn_leaves_the_parts();
    a_cycle_goes_on();
    a_turn_that_fails_leaves_fronts();
    a_phase_ends();
}

/// A run: before its first phase, and behind all of them.
pub(crate) fn a_run_by_phases()
    ensures settled { SettledAtFirst }
    ensures behind { BehindAtFirst }
    ensures kept { KeptAtFirst }
    ensures ran { RanBehind }
    ensures whole { RunsWhole }
{
    a_session_stands_before_its_first_phase();
    all_phases_end();
    a_serial_run_is_whole();
}

//! What the laws of a run with threads say together.

ghost use Rattle.session_threads.specs.Laws.{AsManySegments, AtFirst, FailsWithFronts, PhaseAt, PhaseBehind, RestsAtFirst, RunsWithThreads, UnfinishedFronts};
ghost use Rattle.session_works.specs.Laws.{SegmentsOfPhases, SettledAtFirst};
ghost use Rattle.thread_laws.specs.Coming.{ComeBehindFault};

use script_segments::laws::segments_are_the_phases;
use session_works::laws::phases_and_cycles;
use session_works::passed::a_session_stands_before_its_first_phase;
use thread_laws::faults::{
    a_phase_that_fails_leaves_fronts, a_session_comes_up_to_its_fault, unfinished_files_have_fronts,
};
use thread_laws::rests::{
    a_new_session_is_at_rest, a_phase_is_behind, a_run_with_threads_is_whole,
};

/// Phases with threads: behind each, and behind one that failed.
pub(crate) fn phases_with_threads()
    ensures segments { SegmentsOfPhases }
    ensures count { AsManySegments }
    ensures behind { PhaseBehind }
    ensures at { PhaseAt }
    ensures failed { FailsWithFronts }
    ensures unfinished { UnfinishedFronts }
    ensures come { ComeBehindFault }
{
    phases_and_cycles();
    segments_are_the_phases();
    a_phase_is_behind();
    a_phase_that_fails_leaves_fronts();
    unfinished_files_have_fronts();
    a_session_comes_up_to_its_fault();
}

/// A run with threads: before its first phase, and behind all of them.
pub(crate) fn a_run_by_phases()
    ensures settled { SettledAtFirst }
    ensures rests { RestsAtFirst }
    ensures at { AtFirst }
    ensures whole { RunsWithThreads }
{
    a_session_stands_before_its_first_phase();
    a_new_session_is_at_rest();
    a_run_with_threads_is_whole();
}

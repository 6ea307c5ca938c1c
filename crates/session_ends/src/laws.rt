//! What the laws of an end say together.

ghost use Rattle.session_ends.specs.Laws.{EndsWhole, RanBehindEnd, SerialEndStands};
ghost use Rattle.thread_laws.specs.FaultLaws.{EndStands};

use session_works::passed::{an_end_is_whole, an_end_that_fails_leaves_fronts};

/// An end that is whole leaves the finished files, and one that fails fronts of them, in either mode.
pub(crate) fn an_end_in_either_mode()
    ensures ends { EndsWhole }
    ensures ran { RanBehindEnd }
    ensures serial { SerialEndStands }
    ensures threads { EndStands }
{
    an_end_is_whole();
    an_end_that_fails_leaves_fronts();
    thread_laws::faults::an_end_that_fails_leaves_fronts();
}

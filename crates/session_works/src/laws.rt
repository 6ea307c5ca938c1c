//! What laws of the session's steps say together.

ghost use Rattle.session_works.specs.Laws.{CycleIs, CycleLaws, CycleThere, SegmentsOfPhases};

use script_segments::laws::segments_are_the_phases;
use serial_laws::numbers::cycles_of_a_phase;
use serial_laws::parts::{
    blocks_leave_the_parts, disks_leave_the_parts, the_driver_leaves_the_parts,
    the_next_cycle_may_be_run,
};

/// The next cycle may be run. It, the blocks around it, readings of the disks and meetings of their rings' ends leave a
/// session sound.
pub fn cycles_and_blocks()
    ensures { CycleLaws }
{
    blocks_leave_the_parts();
    disks_leave_the_parts();
    the_driver_leaves_the_parts();
    the_next_cycle_may_be_run();
}

/// The segments of a script are its phases, and their cycles are the script's turns.
pub fn phases_and_cycles()
    ensures segments { SegmentsOfPhases }
    ensures there { CycleThere }
    ensures is { CycleIs }
{
    segments_are_the_phases();
    cycles_of_a_phase();
}

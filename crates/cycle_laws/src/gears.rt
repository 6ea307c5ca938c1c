//! Laws of a driver's parts: what their calls leave is one cycle of the driver.

ghost use Rattle.std.specs.Prelude.{◌≡◌, ◌+◌, ◌<◌, ◌≤◌, Bool, List, Some, map, true, ℤ};
ghost use Rattle.jack_types.specs.declared.moments.Moment.{Moment as MomentValue};
ghost use Rattle.session_model.specs.Courses.{Course};
ghost use Rattle.session_model.specs.Kinds.{Sound};
ghost use Rattle.client_kinds.specs.Scores.{Score};
ghost use Rattle.plan_transport.specs.cycle_plan.specs.Plans.{Planned};
ghost use Rattle.driver_words.specs.Feeding.{MayGet};
ghost use Rattle.plan_transport.specs.driver_laws.specs.Cycling.{MayCycle, StepsOnce};
ghost use Rattle.plan_transport.specs.driver_laws.specs.Keeping.{AreOfCalls, Fits, Keeps};
ghost use Rattle.session_model.specs.Samples.{below, interleaved};
ghost use Rattle.plan_transport.specs.driver_laws.specs.Playing.{PlaysOwn, played_now};
ghost use Rattle.playback_laws.specs.playback_mix.specs.Mixes.{channel_mix};
ghost use Rattle.cycle_blocks.specs.Blocks.{MaySend};
ghost use Rattle.cycle_laws.specs.Gears.{Gear, IsGear, driver_of};
ghost use Rattle.cycle_laws.specs.Turnings.{Turns};

use disk_feeds::{
    a_cycle_gets_one_block_of_each_ring, a_cycle_leaves_the_disks_ready,
    a_player_is_given_what_was_got,
};
use midi_wiring::laws::a_feedback_edge_brings_what_was_carried;
use plan_transport::calls_have_targets;
use plan_transport::driver_laws::courses::a_script_with_disks_keeps_its_period;
use plan_transport::driver_laws::cycling::content_is_of_calls;
use play_laws::a_plan_of_a_scripts_calls_is_not_refused;
use play_laws::laws::{a_stage_plays_its_plan, memories_never_go};
use playback_laws::client_wiring::laws::the_device_has_its_ports;
use playback_laws::mixes::the_mix_is_played;
use playback_laws::periods::a_period_is_what_the_capture_has;
use script_needs::limits::{cycles_are_few, periods_are_in_range, samples_are_few};

/// Before a cycle the blocks may be put, and the numbers of the transport have room for one cycle more.
pub fn a_cycle_may_be_played()
    ensures sends { (sounding : Score → Sound) (gear : Gear) (freewheel : Bool) → IsGear sounding gear → MayCycle (driver_of sounding gear) freewheel → MaySend gear.rings gear.set }
    ensures disks { (sounding : Score → Sound) (gear : Gear) (freewheel : Bool) → IsGear sounding gear → MayCycle (driver_of sounding gear) freewheel → MayGet gear.disks }
    ensures cycles { (sounding : Score → Sound) (gear : Gear) (freewheel : Bool) → IsGear sounding gear → MayCycle (driver_of sounding gear) freewheel → gear.transport.cycles < 1000000 }
    ensures frames { (sounding : Score → Sound) (gear : Gear) (freewheel : Bool) → IsGear sounding gear → MayCycle (driver_of sounding gear) freewheel → gear.transport.frames + gear.set ≤ 500000000 }
    ensures period { (sounding : Score → Sound) (gear : Gear) (freewheel : Bool) → IsGear sounding gear → MayCycle (driver_of sounding gear) freewheel → (4 ≤ gear.set) × (gear.set ≤ 4096) }
{
    cycles_are_few();
    periods_are_in_range();
    samples_are_few();
}

/// What the calls of a cycle leave is one step of the driver, whatever was played.
pub fn a_cycle_is_a_step()
    ensures { (sounding : Score → Sound) (freewheel : Bool) (before after : Gear) (plan : Planned) (moment : MomentValue) → IsGear sounding before → MayCycle (driver_of sounding before) freewheel → Turns sounding freewheel before plan moment after → StepsOnce (driver_of sounding before) (driver_of sounding after) }
{
    calls_have_targets();
    a_cycle_gets_one_block_of_each_ring();
    a_cycle_leaves_the_disks_ready();
}

/// Behind a cycle the parts are as before it.
pub fn a_cycle_leaves_the_parts()
    ensures { (sounding : Score → Sound) (freewheel : Bool) (before after : Gear) (plan : Planned) (moment : MomentValue) → IsGear sounding before → MayCycle (driver_of sounding before) freewheel → Turns sounding freewheel before plan moment after → IsGear sounding after }
{
    all_have_their_benches();
    a_cycle_leaves_the_disks_ready();
    a_plan_of_a_scripts_calls_is_not_refused();
    memories_never_go();
}

/// Where the changes are calls of the script, each client has its bench.
pub fn all_have_their_benches()
    ensures { (sounding : Score → Sound) (gear : Gear) → IsGear sounding gear → AreOfCalls gear.script gear.stage.plan.changes → gear.stage.staged.is_staffed ≡ true }
{
    a_plan_of_a_scripts_calls_is_not_refused();
}

/// Where a course fits and was kept, the cycle played what is its own: from the samples that its capture has left, and from
/// its benches.
pub fn a_cycle_plays_its_own()
    ensures { (sounding : Score → Sound) (freewheel : Bool) (before after : Gear) (plan : Planned) (moment : MomentValue) → IsGear sounding before → MayCycle (driver_of sounding before) freewheel → Turns sounding freewheel before plan moment after
        → (left : List ℤ) (course : Course) → Fits (driver_of sounding after) course → Keeps (driver_of sounding before) course → (driver_of sounding before).left ≡ Some left → PlaysOwn (driver_of sounding before) (driver_of sounding after) left }
{
    a_cycle_is_a_step();
    a_cycle_leaves_the_parts();
    all_have_their_benches();
    content_is_of_calls();
    a_period_is_what_the_capture_has();
    a_feedback_edge_brings_what_was_carried();
    a_player_is_given_what_was_got();
    a_script_with_disks_keeps_its_period();
    a_stage_plays_its_plan();
    the_device_has_its_ports();
}

/// What the playback mixes behind the cycle is what the definitions give it.
pub fn a_mix_is_played()
    ensures { (sounding : Score → Sound) (freewheel : Bool) (before after : Gear) (plan : Planned) (moment : MomentValue) → IsGear sounding before → MayCycle (driver_of sounding before) freewheel → Turns sounding freewheel before plan moment after → (left : List ℤ) → (driver_of sounding before).left ≡ Some left
        → interleaved before.set (map (channel_mix before.set after.stage.staged.racked.benches after.capture.channels after.stage.staged.wiring.heard) (below before.script.header.playback)) ≡ played_now (driver_of sounding before) (driver_of sounding after) left }
{
    a_cycle_is_a_step();
    the_mix_is_played();
    a_period_is_what_the_capture_has();
}

//! Laws of one cycle: what the driver keeps before it, it keeps behind.

ghost use Rattle.std.specs.Prelude.{◌≡◌, ◌+◌, ℤ, List, Some, true};
ghost use Rattle.atomic_table.specs.Seated.{TableId};
ghost use Rattle.record_ring.specs.session_model.specs.Courses.{Course, graph};
ghost use Rattle.record_ring.specs.session_model.specs.Playback.{played_in};
ghost use Rattle.driver_laws.specs.Cycling.{CyclesOnce, FailsAtWrite, KeepsBut, PlaysOnce, StepsOnce, WritesOnce, Written, WrittenFront};
ghost use Rattle.driver_laws.specs.Drivers.{Driver, content_now, graph_now, run};
ghost use Rattle.driver_laws.specs.Keeping.{AreOfCalls, Fits, Keeps};
ghost use Rattle.driver_laws.specs.Playing.{PlaysOwn, played_now};

use cycle_plan::laws::one_client_of_each;

/// The graph of a cycle, by any course that fits behind it, is that of the content that the cycle took.
pub fn graph_is_of_the_row()
    ensures { (driver after : Driver) (course : Course) → StepsOnce driver after → Fits after course → graph course (run driver + 1) ≡ graph_now after }
{}

/// What a cycle took are commands of calls of the script, each call at most once, where a course fits behind it.
pub fn content_is_of_calls()
    ensures { (driver after : Driver) (course : Course) → StepsOnce driver after → Fits after course → AreOfCalls driver.script (content_now after) }
{}

/// Where a cycle played what a course gives, the driver keeps of the course behind it what it kept before; where only the
/// playback failed, it keeps all but that, and the file has a front.
pub fn a_cycle_keeps()
    ensures whole { (driver after : Driver) (course : Course) → StepsOnce driver after → PlaysOnce driver after course → WritesOnce driver after → Written driver after (played_in course (run driver + 1))
        → Fits after course → Keeps driver course → Keeps after course }
    ensures front { (driver after : Driver) (course : Course) → StepsOnce driver after → PlaysOnce driver after course → WrittenFront driver after (played_in course (run driver + 1))
        → Fits after course → Keeps driver course → KeepsBut after course }
{}

/// What a cycle played in the driver's own terms, over the samples that its capture has left, is what each course gives that
/// fits and was kept.
pub fn own_terms_are_the_courses()
    ensures plays { (driver after : Driver) (left : List ℤ) (course : Course) → StepsOnce driver after → PlaysOwn driver after left → Fits after course → Keeps driver course → driver.left ≡ Some left
        → PlaysOnce driver after course }
    ensures playback { (driver after : Driver) (left : List ℤ) (course : Course) → StepsOnce driver after → PlaysOwn driver after left → Fits after course → Keeps driver course → driver.left ≡ Some left
        → played_now driver after left ≡ played_in course (run driver + 1) }
{
    one_client_of_each();
}

/// Steps that played so, in the driver's own terms, where a course fits and was kept, are one cycle; where the playback
/// failed, they are a cycle that failed there.
pub fn steps_that_play_are_a_cycle()
    ensures ok { (driver after : Driver) → StepsOnce driver after → WritesOnce driver after
        → ((left : List ℤ) (course : Course) → Fits after course → Keeps driver course → driver.left ≡ Some left → PlaysOwn driver after left × Written driver after (played_now driver after left)) → CyclesOnce driver after }
    ensures failed { (driver after : Driver) → StepsOnce driver after → after.failed ≡ true
        → ((left : List ℤ) (course : Course) → Fits after course → Keeps driver course → driver.left ≡ Some left → PlaysOwn driver after left × WrittenFront driver after (played_now driver after left)) → FailsAtWrite driver after }
{
    one_client_of_each();
}

/// There is a cycle that all of this holds of, with a course that fits behind it and is kept.
pub fn a_cycle_can_be()
    ensures { TableId → (driver : Driver) × (after : Driver) × (course : Course) × CyclesOnce driver after × Fits after course × Keeps after course }
{}

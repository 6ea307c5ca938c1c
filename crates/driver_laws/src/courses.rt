//! Laws of the courses that a driver fits and keeps, from its opening on.

ghost use Rattle.std.specs.Prelude.{◌≡◌, ◌+◌, ◌<◌, ℕ, List, Some, length};
ghost use Rattle.record_ring.specs.session_model.specs.Courses.{Course};
ghost use Rattle.record_ring.specs.session_model.specs.Grammar.{IsScript};
ghost use Rattle.record_ring.specs.session_model.specs.Kinds.{Sound};
ghost use Rattle.record_ring.specs.session_model.specs.Scripts.{Script, turns};
ghost use Rattle.driver_laws.specs.Cycling.{CyclesMany, FailsAtRead, HasMetOthers, StepsOnce};
ghost use Rattle.driver_laws.specs.Drivers.{Driver, turn_of};
ghost use Rattle.driver_laws.specs.Keeping.{Fits, Keeps};
ghost use Rattle.driver_laws.specs.Openings.{IsNew};

/// A new driver keeps every course of its script over what its capture tells.
pub fn a_new_driver_keeps()
    ensures { (script : Script) (scores : List Sound) (driver : Driver) → IsNew script scores driver
        → (course : Course) → course.script ≡ script → driver.left ≡ Some course.capture → Keeps driver course }
{}

/// A course that fits behind a cycle fits before it, also where the cycle failed at the capture.
pub fn what_fits_behind_fits_before()
    ensures whole { (driver after : Driver) (course : Course) → StepsOnce driver after → Fits after course → Fits driver course }
    ensures failed { (driver after : Driver) (course : Course) → FailsAtRead driver after → Fits after course → Fits driver course }
{}

/// What is kept before the first of many cycles is kept behind the last.
pub fn many_cycles_keep()
    ensures { (n : ℕ) (driver after : Driver) (course : Course) → CyclesMany n driver after → Fits after course → Keeps driver course → Keeps after course }
{}

/// Where the lent ends of a driver met others, the same courses fit, and what was kept is kept.
pub fn a_meeting_changes_nothing()
    ensures fits { (driver after : Driver) (course : Course) → HasMetOthers driver after → Fits after course → Fits driver course }
    ensures keeps { (driver after : Driver) (course : Course) → HasMetOthers driver after → Keeps driver course → Keeps after course }
{}

/// Every cycle of a script with disks has the script's first period, so a block that was got is of the cycle's period.
pub fn a_script_with_disks_keeps_its_period()
    ensures { (script : Script) → IsScript script → 0 < length script.header.disks → (k : ℕ) → k < length (turns script) → (turn_of script (k + 1)).period ≡ script.header.period }
{}

//! Laws of the clients that own benches, from plan to plan.

ghost use Rattle.std.specs.Prelude.{◌≡◌, ◌≤◌, [], ℕ, None, length};
ghost use Rattle.std.specs.List.Sorted.{IsPermutation};
ghost use Rattle.session_model.specs.Scripts.{Script};
ghost use Rattle.port_registry.specs.Registered.{open_clients};
ghost use Rattle.cycle_plan.specs.Plans.{IsPlanned, Planned};
ghost use Rattle.driver_laws.specs.Keeping.{AreOfCalls};
ghost use Rattle.task_laws.specs.Calls.{guests_needed, open_kinds};
ghost use Rattle.client_wiring.specs.Keeping.{GoesOn};
ghost use Rattle.bench_rack.specs.Racks.{Racked};
ghost use Rattle.client_seats.specs.Owners.{Owned, owner_at};
ghost use Rattle.client_seats.specs.Seatings.{HasNoPast, IsRefused, IsSeating};
ghost use Rattle.client_seats.specs.Moves.{kinds_of};
ghost use Rattle.stage_laws.specs.Known.{AreKnown, SeatsPlan};

use cycle_plan::laws::one_client_of_each;

/// Where nobody owns a bench and nobody lost a guest, all is known of the owners, whatever the plan.
pub fn nobody_is_known_at_first()
    ensures { (plan : Planned) (rack : Racked) (owned : Owned) → ((p : ℕ) → owner_at owned p ≡ None) → owned.past ≡ [] → AreKnown plan rack owned }
{}

/// What is known of the owners stays known when the changes go on. So no client of a plan is one that lost its guest: that one
/// was closed, and who opens later is of a later birth.
pub fn owners_stay_known()
    ensures known { (last plan : Planned) (rack : Racked) (owned : Owned) → GoesOn last plan → AreKnown last rack owned → AreKnown plan rack owned }
    ensures no_past { (plan : Planned) (rack : Racked) (owned : Owned) → IsPlanned plan → AreKnown plan rack owned → HasNoPast (open_clients plan.nodes) owned }
{}

/// A seating of a plan's clients leaves the owners known: a new owner is one of these clients, in a bench of its kind, and who
/// lost its guest is closed, since at most one open client has a guest.
pub fn a_seating_keeps_owners_known()
    ensures { (plan : Planned) (rack : Racked) (owned : Owned) (after : Racked) (owned_after : Owned) → IsPlanned plan → IsSeating rack owned → AreKnown plan rack owned → IsSeating after owned_after → SeatsPlan plan rack owned after owned_after
        → AreKnown plan after owned_after }
{
    one_client_of_each();
}

/// Of the benches their kinds alone count; a play keeps these.
pub fn kinds_alone_count()
    ensures { (plan : Planned) (rack : Racked) (owned : Owned) (after : Racked) → AreKnown plan rack owned → kinds_of after ≡ kinds_of rack → AreKnown plan after owned }
{}

/// Where a bench was made for each `open` call of a script, and there are as many guests as it needs, each client of a plan of
/// its calls can have a bench.
pub fn a_plan_of_a_scripts_calls_is_not_refused()
    ensures { (script : Script) (plan : Planned) (rack : Racked) (owned : Owned) → AreOfCalls script plan.changes → IsPlanned plan → IsSeating rack owned → AreKnown plan rack owned
        → IsPermutation (open_kinds script) (kinds_of rack) → guests_needed script ≤ length owned.scores → IsRefused (open_clients plan.nodes) rack owned → ⊥ }
{
    one_client_of_each();
}

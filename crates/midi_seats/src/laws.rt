//! Laws of who owns the benches of a session's MIDI clients.

ghost use Rattle.std.specs.Prelude.{◌≡◌, ◌<◌, ◌⊎◌, ℕ, List, None, Option, Some, length, slice_index_or};
ghost use Rattle.jack_types.specs.declared.commands.Change.{Change as ChangeValue};
ghost use Rattle.jack_types.specs.declared.kinds.Kind.{Kind as KindValue};
ghost use Rattle.graph_word.specs.Publications.{IsFront};
ghost use Rattle.session_model.specs.Scripts.{Script};
ghost use Rattle.port_registry.specs.Registered.{open_clients};
ghost use Rattle.task_laws.specs.cycle_plan.specs.Plans.{IsPlanned, Planned};
ghost use Rattle.task_laws.specs.driver_laws.specs.Keeping.{AreOfCalls};
ghost use Rattle.midi_seats.specs.declared.seating.Owned.{Owned as OwnedRecord};
ghost use Rattle.midi_seats.specs.Owning.{AreKnown, HaveSeats, IsFor, IsShort, midi_kinds};
ghost use Rattle.midi_seats.specs.Seating.{SeatsAll, SeatsSome, no_owned, owner_of, seat_for};

/// The bench that a client gets is for its kind, and was its own; or nobody's, where the client had none.
pub fn a_seat_is_its_clients()
    ensures within { (benches : List OwnedRecord) (birth code place : ℕ) → seat_for birth code benches ≡ Some place → place < length benches }
    ensures kind { (benches : List OwnedRecord) (birth code place : ℕ) → seat_for birth code benches ≡ Some place → (slice_index_or benches place no_owned).code ≡ code }
    ensures was { (benches : List OwnedRecord) (birth code place : ℕ) → seat_for birth code benches ≡ Some place
        → ((slice_index_or benches place no_owned).owner ≡ Some birth) ⊎ (((slice_index_or benches place no_owned).owner ≡ None) × ((b : ℕ) → (slice_index_or benches b no_owned).owner ≡ Some birth → ⊥)) }
{}

/// Behind a seating of a plan's clients each of its MIDI clients has its bench; or one of them can have none.
pub fn a_plan_is_seated()
    ensures all { (plan : Planned) (seats : List (Option ℕ)) (before after : List OwnedRecord) → SeatsAll plan.nodes (length plan.nodes) seats before after → HaveSeats (open_clients plan.nodes) seats after }
    ensures some { (plan : Planned) (seats : List (Option ℕ)) (before after : List OwnedRecord) → SeatsSome plan.nodes seats before after → IsShort (open_clients plan.nodes) after }
{}

/// What is known of the owners: of benches that nobody owns; when the changes go on; and behind a seating of a plan's clients,
/// up to one that can have none or of all.
pub fn owners_are_known()
    ensures first { (changes : List ChangeValue) (kinds : List KindValue) (benches : List OwnedRecord) → IsFor kinds benches → ((b : ℕ) → owner_of benches b ≡ None) → AreKnown changes kinds benches }
    ensures later { (front changes : List ChangeValue) (kinds : List KindValue) (benches : List OwnedRecord) → IsFront front changes → AreKnown front kinds benches → AreKnown changes kinds benches }
    ensures all { (plan : Planned) (kinds : List KindValue) (seats : List (Option ℕ)) (before after : List OwnedRecord) → IsPlanned plan → AreKnown plan.changes kinds before
        → SeatsAll plan.nodes (length plan.nodes) seats before after → AreKnown plan.changes kinds after }
    ensures some { (plan : Planned) (kinds : List KindValue) (seats : List (Option ℕ)) (before after : List OwnedRecord) → IsPlanned plan → AreKnown plan.changes kinds before
        → SeatsSome plan.nodes seats before after → AreKnown plan.changes kinds after }
{}

/// Where a bench was made for each `open` call of a MIDI kind, each MIDI client of a plan of the script's calls can have one.
pub fn a_scripts_clients_have_benches()
    ensures { (script : Script) (plan : Planned) (benches : List OwnedRecord) → AreOfCalls script plan.changes → IsPlanned plan → AreKnown plan.changes (midi_kinds script) benches
        → IsShort (open_clients plan.nodes) benches → ⊥ }
{}

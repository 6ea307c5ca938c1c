//! Laws of seatings: the benches of a seating may be played.

ghost use Rattle.std.specs.Prelude.{◌≡◌, ℕ, List, None, length};
ghost use Rattle.session_model.specs.Benches.{Signal};
ghost use Rattle.session_model.specs.Kinds.{Sound};
ghost use Rattle.bench_rack.specs.client_kinds.specs.Scores.{Score};
ghost use Rattle.bench_rack.specs.client_benches.specs.Seen.{Remembered, kept_after};
ghost use Rattle.bench_rack.specs.Racks.{Racked};
ghost use Rattle.client_seats.specs.Owners.{Owned, owner_at};
ghost use Rattle.client_seats.specs.Seatings.{IsSameBench, IsSeating, standing_at};

/// A play changes no kind, no period and no guest of a bench, and of a guest's memory its own parts
/// alone.
pub fn a_play_keeps_the_guest()
    ensures { (sound : Score → Sound) (kept : Remembered) (given : List (List Signal)) → IsSameBench kept.standing ((kept_after sound) kept given).standing }
{}

/// So benches that are played are a seating yet, if those of nobody stay as they are.
pub fn plays_keep_a_seating()
    ensures { (rack after : Racked) (owned : Owned) → IsSeating rack owned → length after.benches ≡ length rack.benches
        → ((p : ℕ) → IsSameBench (standing_at rack p) (standing_at after p)) → ((p : ℕ) → owner_at owned p ≡ None → standing_at after p ≡ standing_at rack p) → IsSeating after owned }
{}

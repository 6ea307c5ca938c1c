//! How benches change hands.

ghost use Rattle.std.specs.Prelude.{◌≡◌, ◌<◌, ℕ, List, IfSome, IsSome, IsTrue, IsFalse, length, slice_set, Some, None, map};
ghost use Rattle.port_registry.specs.Registered.{open_clients};
ghost use Rattle.session_model.specs.Benches.{node_at};
ghost use Rattle.session_model.specs.Kinds.{first};
ghost use Rattle.jack_types.specs.declared.kinds.Kind.TheVariants.{Guest as GuestKind};
ghost use Rattle.bench_rack.specs.client_kinds.specs.Scores.{Score};
ghost use Rattle.bench_rack.specs.client_kinds.specs.Standings.{HasScore};
ghost use Rattle.bench_rack.specs.Racks.{bench_at};
ghost use Rattle.client_seats.specs.Owners.{owner_at, pooled};
ghost use Rattle.client_seats.specs.Seatings.{HasBench, HasNoPast, IsIdle, IsNobodys, IsRefused, IsSeating, kind_at, standing_at};
ghost use Rattle.client_seats.specs.Moves.{Gives, IsEquipped, Moves, TakesBack, emptied, lost, with_standing};

use crate::owners::Owners;
use crate::places::{birth_of, has_birth, kind_of, lent_place};
use bench_rack::Rack;
use bench_rack::client_kinds::Guest;
use jack_types::{Client, Kind};

/// Takes the guest back that is lent to the bench at a place. Its client is noted, and the bench is
/// nobody's.
fn give_up<G: Guest>(
    rack: &mut Rack<G>,
    owners: &mut Owners<G>,
    place: usize,
    birth: u32,
    guest: u8,
)
    requires place { place < length rack.old.benches }
    requires births { place < length owners.old.births }
    requires number { guest < length owners.old.pool }
    requires idle { (bench_at rack.old place).kept.turn ≡ None }
    requires lent { IsSome (standing_at rack.old place).score }
    ensures rack { rack.new ≡ with_standing rack.old place (emptied (standing_at rack.old place)) }
    ensures owners { IfSome (standing_at rack.old place).score (λ score. owners.new ≡ lost owners.old place birth (standing_at rack.old place).memory guest score) }
{
    owners.note(birth, rack.bench(place));
    owners.set_owner(place, None);
    if let Some(lent) = rack.give_back(place) {
        owners.put(usize::from(guest), lent);
    }
}

/// Takes a guest back from the bench that it is lent to, for the client of a node that asks it.
fn take_back<G: Guest>(
    rack: &mut Rack<G>,
    owners: &mut Owners<G>,
    nodes: &[Client],
    n: usize,
    place: usize,
    birth: u32,
    guest: u8,
)
    requires seating { IsSeating rack.old owners.old }
    requires idle { IsIdle rack.old }
    requires node { n < length nodes.now }
    requires asks { (node_at (open_clients nodes.now) n).kind ≡ GuestKind guest }
    requires place { place < length rack.old.benches }
    requires owner { owner_at owners.old place ≡ Some birth }
    requires kind { kind_at rack.old place ≡ GuestKind guest }
    requires number { guest < length owners.old.scores }
    requires other { (m : ℕ) → m < length nodes.now → (node_at (open_clients nodes.now) m).birth ≡ birth → ⊥ }
    ensures { (TakesBack G.sound) (open_clients nodes.now) rack.old owners.old rack.new owners.new guest }
{
    give_up(rack, owners, place, birth, guest);
}

/// Sees to it that a guest is in the pool, for the client of a node that asks it and has no bench.
/// Answers whether it is.
fn reclaim<G: Guest>(
    rack: &mut Rack<G>,
    owners: &mut Owners<G>,
    nodes: &[Client],
    n: usize,
    guest: u8,
) -> bool
    requires seating { IsSeating rack.old owners.old }
    requires idle { IsIdle rack.old }
    requires node { n < length nodes.now }
    requires asks { (node_at (open_clients nodes.now) n).kind ≡ GuestKind guest }
    requires none { IsNobodys owners.old (node_at (open_clients nodes.now) n).birth }
    ensures seating { IsSeating rack.new owners.new }
    ensures moves { (Moves G.sound) (open_clients nodes.now) rack.old owners.old rack.new owners.new }
    ensures none { IsNobodys owners.new (node_at (open_clients nodes.now) n).birth }
    ensures seated { (m q : ℕ) → m < length nodes.now → HasBench (open_clients nodes.now) rack.old owners.old m q → HasBench (open_clients nodes.now) rack.new owners.new m q }
    ensures pool { IsTrue result → IsSome (pooled owners.new guest) }
    ensures refused { IsFalse result → IsRefused (open_clients nodes.now) rack.new owners.new }
{
    let number = usize::from(guest);
    if number >= owners.guests() {
        return false;
    }
    if owners.has(number) {
        return true;
    }
    let Some((place, birth)) = lent_place(rack, owners, guest) else {
        return false;
    };
    if has_birth(nodes, birth) {
        return false;
    }
    take_back(rack, owners, nodes, n, place, birth, guest);
    true
}

/// Sees to it that the guest of the client of a node is in the pool, if it asks one and has no bench.
/// Answers whether it is.
pub(crate) fn fetch<G: Guest>(
    rack: &mut Rack<G>,
    owners: &mut Owners<G>,
    nodes: &[Client],
    n: usize,
) -> bool
    requires seating { IsSeating rack.old owners.old }
    requires idle { IsIdle rack.old }
    requires node { n < length nodes.now }
    requires none { IsNobodys owners.old (node_at (open_clients nodes.now) n).birth }
    ensures seating { IsSeating rack.new owners.new }
    ensures moves { (Moves G.sound) (open_clients nodes.now) rack.old owners.old rack.new owners.new }
    ensures none { IsNobodys owners.new (node_at (open_clients nodes.now) n).birth }
    ensures seated { (m q : ℕ) → m < length nodes.now → HasBench (open_clients nodes.now) rack.old owners.old m q → HasBench (open_clients nodes.now) rack.new owners.new m q }
    ensures pool { IsTrue result → (guest : ℕ) → (node_at (open_clients nodes.now) n).kind ≡ GuestKind guest → IsSome (pooled owners.new guest) }
    ensures refused { IsFalse result → IsRefused (open_clients nodes.now) rack.new owners.new }
{
    match kind_of(nodes, n) {
        Kind::Guest { guest } => reclaim(rack, owners, nodes, n, guest),
        _ => true,
    }
}

/// Lends a guest of the pool to the bench at a place.
fn lend<G: Guest>(rack: &mut Rack<G>, owners: &mut Owners<G>, place: usize, guest: u8)
    requires place { place < length rack.old.benches }
    requires kind { kind_at rack.old place ≡ GuestKind guest }
    requires none { (standing_at rack.old place).score ≡ None }
    requires number { guest < length owners.old.pool }
    requires pool { IsSome (pooled owners.old guest) }
    ensures rack { rack.new ≡ with_standing rack.old place (standing_at rack.new place) }
    ensures kind { kind_at rack.new place ≡ kind_at rack.old place }
    ensures period { (standing_at rack.new place).period ≡ (standing_at rack.old place).period }
    ensures score { (standing_at rack.new place).score ≡ pooled owners.old guest }
    ensures memory { (scores : List Score) → HasScore (standing_at rack.new place) scores → (standing_at rack.new place).memory ≡ first (map G.sound scores) (kind_at rack.new place) }
    ensures owners { owners.new ≡ record owners.old { pool = slice_set owners.old.pool guest None } }
{
    if let Some(lent) = owners.take(usize::from(guest)) {
        rack.lend(place, lent);
    }
}

/// Lends the bench of nobody at a place its guest, if it asks one.
fn equip<G: Guest>(rack: &mut Rack<G>, owners: &mut Owners<G>, place: usize)
    requires seating { IsSeating rack.old owners.old }
    requires place { place < length rack.old.benches }
    requires nobody { owner_at owners.old place ≡ None }
    requires pool { (guest : ℕ) → kind_at rack.old place ≡ GuestKind guest → IsSome (pooled owners.old guest) }
    ensures { (IsEquipped G.sound) rack.old owners.old rack.new owners.new place }
{
    match rack.kind(place) {
        Kind::Guest { guest } => lend(rack, owners, place, guest),
        _ => {}
    }
}

/// Gives a bench of nobody to the client of a node, with its guest out of the pool if it asks one.
pub(crate) fn give<G: Guest>(
    rack: &mut Rack<G>,
    owners: &mut Owners<G>,
    nodes: &[Client],
    n: usize,
    place: usize,
)
    requires seating { IsSeating rack.old owners.old }
    requires node { n < length nodes.now }
    requires place { place < length rack.old.benches }
    requires nobody { owner_at owners.old place ≡ None }
    requires kind { kind_at rack.old place ≡ (node_at (open_clients nodes.now) n).kind }
    requires none { IsNobodys owners.old (node_at (open_clients nodes.now) n).birth }
    requires past { HasNoPast (open_clients nodes.now) owners.old }
    requires pool { (guest : ℕ) → (node_at (open_clients nodes.now) n).kind ≡ GuestKind guest → IsSome (pooled owners.old guest) }
    ensures { (Gives G.sound) (open_clients nodes.now) rack.old owners.old rack.new owners.new n place }
{
    equip(rack, owners, place);
    owners.set_owner(place, Some(birth_of(nodes, n)));
}

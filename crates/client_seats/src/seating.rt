//! Clients and their benches.

ghost use Rattle.std.specs.Prelude.{◌≡◌, ◌<◌, ◌+◌, ◌⊎◌, ℕ, IfNone, IfSome, IsTrue, IsFalse, length, Some, None, map};
ghost use Rattle.std.specs.Option.{option_map_or};
ghost use Rattle.std.specs.List.{Contains};
ghost use Rattle.std.specs.List.Sorted.{IsPermutation};
ghost use Rattle.port_registry.specs.Registered.{open_clients};
ghost use Rattle.session_model.specs.Benches.{node_at};
ghost use Rattle.session_model.specs.Kinds.{Memory as MemoryValue, first};
ghost use Rattle.bench_rack.specs.Racks.{bench_at};
ghost use Rattle.driver_laws.specs.Drivers.{Remembered};
ghost use Rattle.client_seats.specs.Owners.{owner_at};
ghost use Rattle.client_seats.specs.Seatings.{AreApart, HasBench, HasNoPast, HavePeriod, IsIdle, IsNobodys, IsRefused, IsSeating, kind_at, memory_of, standing_at};
ghost use Rattle.client_seats.specs.Moves.{Brings, LostGuest, Moves, kinds_of};

use crate::guests::{fetch, give};
use crate::owners::Owners;
use crate::places::{birth_of, free_place, is_kind, kind_of, place_of};
use bench_rack::Rack;
use bench_rack::client_kinds::Guest;
use jack_types::Client;

/// Makes a bench ready for the client of a node, which has none, and answers its place.
fn ready<G: Guest>(
    rack: &mut Rack<G>,
    owners: &mut Owners<G>,
    nodes: &[Client],
    n: usize,
) -> Option<usize>
    requires seating { IsSeating rack.old owners.old }
    requires idle { IsIdle rack.old }
    requires node { n < length nodes.now }
    requires none { IsNobodys owners.old (node_at (open_clients nodes.now) n).birth }
    requires past { HasNoPast (open_clients nodes.now) owners.old }
    ensures seating { IsSeating rack.new owners.new }
    ensures moves { (Moves G.sound) (open_clients nodes.now) rack.old owners.old rack.new owners.new }
    ensures seated { (m q : ℕ) → m < length nodes.now → HasBench (open_clients nodes.now) rack.old owners.old m q → HasBench (open_clients nodes.now) rack.new owners.new m q }
    ensures there { IfSome result (λ place. HasBench (open_clients nodes.now) rack.new owners.new n place) }
    ensures refused { IfNone result (IsRefused (open_clients nodes.now) rack.new owners.new) }
{
    if !fetch(rack, owners, nodes, n) {
        return None;
    }
    match free_place(rack, owners, kind_of(nodes, n)) {
        Some(place) => {
            give(rack, owners, nodes, n, place);
            Some(place)
        }
        None => None,
    }
}

/// The place of the bench of the client of a node. One is made ready where it has none.
fn find_bench<G: Guest>(
    rack: &mut Rack<G>,
    owners: &mut Owners<G>,
    nodes: &[Client],
    n: usize,
) -> Option<usize>
    requires seating { IsSeating rack.old owners.old }
    requires idle { IsIdle rack.old }
    requires node { n < length nodes.now }
    requires past { HasNoPast (open_clients nodes.now) owners.old }
    ensures seating { IsSeating rack.new owners.new }
    ensures moves { (Moves G.sound) (open_clients nodes.now) rack.old owners.old rack.new owners.new }
    ensures seated { (m q : ℕ) → m < length nodes.now → HasBench (open_clients nodes.now) rack.old owners.old m q → HasBench (open_clients nodes.now) rack.new owners.new m q }
    ensures there { IfSome result (λ place. HasBench (open_clients nodes.now) rack.new owners.new n place) }
    ensures refused { IfNone result (IsRefused (open_clients nodes.now) rack.new owners.new) }
{
    match place_of(owners, birth_of(nodes, n)) {
        Some(place) => {
            if is_kind(rack.kind(place), kind_of(nodes, n)) {
                Some(place)
            } else {
                None
            }
        }
        None => ready(rack, owners, nodes, n),
    }
}

/// Exchanges the benches at two places, with their owners.
fn bring<G: Guest>(rack: &mut Rack<G>, owners: &mut Owners<G>, from: usize, to: usize)
    requires seating { IsSeating rack.old owners.old }
    requires from { from < length rack.old.benches }
    requires to { to < length rack.old.benches }
    ensures { (Brings G.sound) rack.old owners.old rack.new owners.new from to }
{
    rack.swap(from, to);
    owners.swap(from, to);
}

/// Puts the bench of the client of a node at the node's place, where all lower nodes have theirs.
/// Answers whether there is one.
fn seat_one<G: Guest>(
    rack: &mut Rack<G>,
    owners: &mut Owners<G>,
    nodes: &[Client],
    n: usize,
) -> bool
    requires seating { IsSeating rack.old owners.old }
    requires idle { IsIdle rack.old }
    requires node { n < length nodes.now }
    requires past { HasNoPast (open_clients nodes.now) owners.old }
    requires apart { AreApart (open_clients nodes.now) }
    requires lower { (m : ℕ) → m < n → HasBench (open_clients nodes.now) rack.old owners.old m m }
    ensures seating { IsSeating rack.new owners.new }
    ensures moves { (Moves G.sound) (open_clients nodes.now) rack.old owners.old rack.new owners.new }
    ensures seated { IsTrue result → (m : ℕ) → m < n + 1 → HasBench (open_clients nodes.now) rack.new owners.new m m }
    ensures refused { IsFalse result → IsRefused (open_clients nodes.now) rack.new owners.new }
{
    match find_bench(rack, owners, nodes, n) {
        Some(place) => {
            bring(rack, owners, place, n);
            true
        }
        None => false,
    }
}

/// Puts the bench of each of these clients at its node's place, as far as each has one.
fn seat_all<G: Guest>(rack: &mut Rack<G>, owners: &mut Owners<G>, nodes: &[Client]) -> bool
    requires seating { IsSeating rack.old owners.old }
    requires idle { IsIdle rack.old }
    requires past { HasNoPast (open_clients nodes.now) owners.old }
    requires apart { AreApart (open_clients nodes.now) }
    ensures seating { IsSeating rack.new owners.new }
    ensures moves { (Moves G.sound) (open_clients nodes.now) rack.old owners.old rack.new owners.new }
    ensures seated { IsTrue result → (m : ℕ) → m < length nodes.now → HasBench (open_clients nodes.now) rack.new owners.new m m }
    ensures refused { IsFalse result → IsRefused (open_clients nodes.now) rack.new owners.new }
{
    for n in 0..nodes.len() {
        if !seat_one(rack, owners, nodes, n) {
            return false;
        }
    }
    true
}

/// Puts the bench of each of these clients at its node's place. A client that had none gets one of its
/// kind that nobody owns, which is then its own. Answers whether each has one; where one can have none,
/// the benches of lower nodes stand at their places, and no bench is lost.
///
/// A guest is lent to the bench of its client. Where another client has it that is none of these, it is
/// taken from that one's bench, which is nobody's then.
pub fn seat<G: Guest>(rack: &mut Rack<G>, owners: &mut Owners<G>, nodes: &[Client]) -> bool
    requires seating { IsSeating rack.old owners.old }
    requires idle { IsIdle rack.old }
    requires apart { AreApart (open_clients nodes.now) }
    requires past { HasNoPast (open_clients nodes.now) owners.old }
    ensures seating { IsSeating rack.new owners.new }
    ensures idle { IsIdle rack.new }
    ensures count { length rack.new.benches ≡ length rack.old.benches }
    ensures links { rack.new.links ≡ rack.old.links }
    ensures periods { (period : ℕ) → HavePeriod rack.old period → HavePeriod rack.new period }
    ensures kinds { IsPermutation (kinds_of rack.old) (kinds_of rack.new) }
    ensures scores { owners.new.scores ≡ owners.old.scores }
    ensures seated { IsTrue result → (n : ℕ) → n < length nodes.now → HasBench (open_clients nodes.now) rack.new owners.new n n }
    ensures kept { (birth : ℕ) (memory : MemoryValue) → memory_of rack.old owners.old birth ≡ Some memory → memory_of rack.new owners.new birth ≡ Some memory }
    ensures fresh { (birth : ℕ) (memory : MemoryValue) → memory_of rack.old owners.old birth ≡ None → memory_of rack.new owners.new birth ≡ Some memory
        → (n : ℕ) × (n < length (open_clients nodes.now)) × ((node_at (open_clients nodes.now) n).birth ≡ birth) × (memory ≡ first (map G.sound owners.old.scores) (node_at (open_clients nodes.now) n).kind) }
    ensures same_bench { (p q birth : ℕ) → owner_at owners.old p ≡ Some birth → owner_at owners.new q ≡ Some birth → (bench_at rack.new q).kept ≡ (bench_at rack.old p).kept }
    ensures owners { (p birth : ℕ) → owner_at owners.new p ≡ Some birth
        → ((q : ℕ) × (owner_at owners.old q ≡ Some birth) × (kind_at rack.new p ≡ kind_at rack.old q)) ⊎ ((n : ℕ) × (n < length (open_clients nodes.now)) × ((node_at (open_clients nodes.now) n).birth ≡ birth) × (kind_at rack.new p ≡ (node_at (open_clients nodes.now) n).kind)) }
    ensures past { HasNoPast (open_clients nodes.now) owners.new }
    ensures lost { (kept : Remembered) → Contains owners.new.past kept → Contains owners.old.past kept ⊎ LostGuest (open_clients nodes.now) rack.old owners.old kept.birth }
    ensures refused { IsFalse result → IsRefused (open_clients nodes.now) rack.new owners.new }
{
    seat_all(rack, owners, nodes)
}

/// The peak of the meter of this birth, the greatest magnitude of its inputs so far, 0 where no client of
/// this birth ever had a bench.
pub fn peak<G: Guest>(rack: &Rack<G>, owners: &Owners<G>, birth: u32) -> u32
    requires { IsSeating rack.now owners.now }
    ensures owned { (p : ℕ) → owner_at owners.now p ≡ Some birth → result ≡ (standing_at rack.now p).memory.peak }
    ensures memory { result ≡ option_map_or (λ memory. memory.peak) (memory_of rack.now owners.now birth) 0 }
{
    match place_of(owners, birth) {
        Some(place) => rack.peak(place),
        None => 0,
    }
}

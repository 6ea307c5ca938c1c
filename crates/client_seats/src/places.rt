//! Where benches stand in a rack.

ghost use Rattle.std.specs.Prelude.{◌≡◌, ◌<◌, ◌↔◌, ℕ, IfNone, IfSome, IsSome, IsTrue, IsFalse, length, Some, None};
ghost use Rattle.port_registry.specs.Registered.{open_clients};
ghost use Rattle.session_model.specs.Benches.{node_at};
ghost use Rattle.jack_types.specs.declared.kinds.Kind.TheVariants.{Guest as GuestKind};
ghost use Rattle.client_seats.specs.Owners.{owner_at};
ghost use Rattle.client_seats.specs.Seatings.{IsLent, IsNobodys, kind_at};

use crate::owners::Owners;
use bench_rack::Rack;
use bench_rack::client_kinds::Guest;
use jack_types::{Client, Kind};

/// Whether two kinds are the same, with all their numbers.
pub(crate) fn is_kind(first: Kind, second: Kind) -> bool
    ensures { IsTrue result ↔ first ≡ second }
{
    first == second
}

/// The birth of the client of a node.
pub(crate) fn birth_of(nodes: &[Client], n: usize) -> u32
    requires { n < length nodes.now }
    ensures { result ≡ (node_at (open_clients nodes.now) n).birth }
{
    nodes[n].birth
}

/// The kind of the client of a node.
pub(crate) fn kind_of(nodes: &[Client], n: usize) -> Kind
    requires { n < length nodes.now }
    ensures { result ≡ (node_at (open_clients nodes.now) n).kind }
{
    nodes[n].kind
}

/// Whether one of these clients is of this birth.
pub(crate) fn has_birth(nodes: &[Client], birth: u32) -> bool
    ensures yes { IsTrue result → (n : ℕ) × (n < length nodes.now) × ((node_at (open_clients nodes.now) n).birth ≡ birth) }
    ensures no { IsFalse result → (n : ℕ) → n < length nodes.now → (node_at (open_clients nodes.now) n).birth ≡ birth → ⊥ }
{
    for n in 0..nodes.len() {
        if birth_of(nodes, n) == birth {
            return true;
        }
    }
    false
}

/// The place of the bench of the client of this birth.
pub(crate) fn place_of<G: Guest>(owners: &Owners<G>, birth: u32) -> Option<usize>
    ensures there { IfSome result (λ place. (place < length owners.now.births) × (owner_at owners.now place ≡ Some birth)) }
    ensures nowhere { IfNone result (IsNobodys owners.now birth) }
{
    for place in 0..owners.len() {
        if owners.owner(place) == Some(birth) {
            return Some(place);
        }
    }
    None
}

/// Whether nobody owns the bench at a place, and it is of a kind.
fn is_free<G: Guest>(rack: &Rack<G>, owners: &Owners<G>, place: usize, kind: Kind) -> bool
    requires owners { place < length owners.now.births }
    requires benches { place < length rack.now.benches }
    ensures yes { IsTrue result → (owner_at owners.now place ≡ None) × (kind_at rack.now place ≡ kind) }
    ensures no { IsFalse result → kind_at rack.now place ≡ kind → IsSome (owner_at owners.now place) }
{
    owners.owner(place).is_none() && is_kind(rack.kind(place), kind)
}

/// The place of a bench of a kind that nobody owns.
pub(crate) fn free_place<G: Guest>(rack: &Rack<G>, owners: &Owners<G>, kind: Kind) -> Option<usize>
    requires { length owners.now.births ≡ length rack.now.benches }
    ensures there { IfSome result (λ place. (place < length rack.now.benches) × (owner_at owners.now place ≡ None) × (kind_at rack.now place ≡ kind)) }
    ensures nowhere { IfNone result ((p : ℕ) → p < length rack.now.benches → kind_at rack.now p ≡ kind → IsSome (owner_at owners.now p)) }
{
    for place in 0..rack.len() {
        if is_free(rack, owners, place, kind) {
            return Some(place);
        }
    }
    None
}

/// The place of a bench that somebody owns, to which the guest of this number is lent, and its owner.
pub(crate) fn lent_place<G: Guest>(
    rack: &Rack<G>,
    owners: &Owners<G>,
    guest: u8,
) -> Option<(usize, u32)>
    requires { length owners.now.births ≡ length rack.now.benches }
    ensures there { IfSome result (λ found. (found.0 < length rack.now.benches) × (owner_at owners.now found.0 ≡ Some found.1) × (kind_at rack.now found.0 ≡ GuestKind guest)) }
    ensures nowhere { IfNone result (IsLent rack.now owners.now guest → ⊥) }
{
    for place in 0..rack.len() {
        if let Some(birth) = owners.owner(place) {
            if is_kind(rack.kind(place), Kind::Guest { guest }) {
                return Some((place, birth));
            }
        }
    }
    None
}

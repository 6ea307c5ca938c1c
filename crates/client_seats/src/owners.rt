//! Who owns the benches of a rack.

ghost use Rattle.std.specs.Prelude.{◌≡◌, IfOk, None, Some, map, replicate};

use bench_rack::client_benches::ClientBench;
use bench_rack::client_kinds::Guest;
use jack_types::Memory;
use proof_notes::Log;
use std::alloc::{AllocError, Global};
use std::marker::Model;

/// Who owns each bench of a rack, and the guests that are not lent.
///
/// Contracts see an `Owned`: the owners by place, the guests by number, and the clients that lost their
/// guests to others. All memory is taken in `new`.
#[derive(Drop)]
pub struct Owners<G: Guest> {
    births: Vec<Option<u32>>,
    guests: Vec<Option<G>>,
    handed: Log<(), G>,
    past: Log<u32, ClientBench<G>>,
}

impl<G: Guest> Model for Owners<G> {
    ghost use Rattle.std.specs.Prelude.{map, option_map};
    ghost use Rattle.client_seats.specs.Owners.{Owned};

    ghost Value = { Owned };

    ghost view = { λ o. record { births = o.births.items; scores = map (λ p. G.score p.1) o.handed.items; pool = map (option_map G.score) o.guests.items; past = map (λ p. record { birth = p.0; memory = p.1.kept.standing.memory }) o.past.items } };
}

/// No owner for so many places.
fn no_births(alloc: Global, benches: usize) -> Result<Vec<Option<u32>>, AllocError>
    ensures { IfOk result (λ births. births.items ≡ replicate benches None) }
{
    let mut births = Vec::with_capacity(alloc, benches)?;
    for _ in 0..benches {
        births.push_reserved(None);
    }
    Ok(births)
}

/// The guests as they are handed in, for proofs.
fn hand_in<G: Guest>(guests: &[G]) -> Log<(), G>
    ensures { map (λ p. G.score p.1) result.items ≡ map G.score guests.now }
{
    let mut handed = Log::new();
    for guest in guests {
        handed = handed.and(&(), guest);
    }
    handed
}

/// All guests in the pool.
fn fill_pool<G: Guest>(alloc: Global, guests: Vec<G>) -> Result<Vec<Option<G>>, AllocError>
    ensures { IfOk result (λ pool. pool.items ≡ map (λ guest. Some guest) guests.items) }
{
    guests.into_iter().map(|guest| Some(guest)).collect(alloc)
}

impl<G: Guest> Owners<G> {
    ghost use Rattle.std.specs.Prelude.{◌≡◌, ◌<◌, ◌++◌, ◌∷◌, [], ℕ, List, length, map, None, Some, option_map, slice_set, is_some, IfOk, replicate};
    ghost use Rattle.jack_types.specs.declared.kinds.Kind.{Kind};
    ghost use Rattle.bench_rack.specs.client_benches.specs.Seen.{new_bench};
    ghost use Rattle.client_seats.specs.Owners.{owner_at, pooled};
    ghost use Rattle.client_seats.specs.Seatings.{IsSeating};

    /// No owners for so many benches, and all guests in the pool.
    pub fn new(alloc: Global, benches: usize, guests: Vec<G>) -> Result<Owners<G>, Memory>
        ensures owned { IfOk result (λ owners. owners ≡ record { births = replicate benches None; scores = map G.score guests.items; pool = map (λ score. Some score) (map G.score guests.items); past = [] }) }
        ensures seating { IfOk result (λ owners. (kinds : List Kind) (period links : ℕ) → length kinds ≡ benches → IsSeating (record { benches = map (λ kind. new_bench kind period) kinds; links = links }) owners) }
    {
        let Ok(births) = no_births(alloc, benches) else {
            return Err(Memory);
        };
        let handed = hand_in(guests.as_slice());
        match fill_pool(alloc, guests) {
            Ok(guests) => Ok(Owners {
                births,
                guests,
                handed,
                past: Log::new(),
            }),
            Err(_) => Err(Memory),
        }
    }

    /// How many benches there are.
    pub(crate) fn len(&self) -> usize
        ensures { result ≡ length self.now.births }
    {
        self.births.len()
    }

    /// How many guests there are.
    pub(crate) fn guests(&self) -> usize
        ensures { result ≡ length self.now.pool }
    {
        self.guests.len()
    }

    /// Whether a guest is in the pool.
    pub(crate) fn has(&self, guest: usize) -> bool
        requires { guest < length self.now.pool }
        ensures { result ≡ is_some (pooled self.now guest) }
    {
        self.guests[guest].is_some()
    }

    /// Who owns the bench at a place.
    pub(crate) fn owner(&self, place: usize) -> Option<u32>
        requires { place < length self.now.births }
        ensures { result ≡ owner_at self.now place }
    {
        self.births[place]
    }

    /// Notes the owner of the bench at a place.
    pub(crate) fn set_owner(&mut self, place: usize, owner: Option<u32>)
        requires { place < length self.old.births }
        ensures { self.new ≡ record self.old { births = slice_set self.old.births place owner } }
    {
        self.births[place] = owner;
    }

    /// Exchanges the owners of two places.
    pub(crate) fn swap(&mut self, first: usize, second: usize)
        requires first { first < length self.old.births }
        requires second { second < length self.old.births }
        ensures { self.new ≡ record self.old { births = slice_set (slice_set self.old.births first (owner_at self.old second)) second (owner_at self.old first) } }
    {
        self.births.swap(first, second);
    }

    /// Takes a guest out of the pool.
    pub(crate) fn take(&mut self, guest: usize) -> Option<G>
        requires { guest < length self.old.pool }
        ensures guest { option_map G.score result ≡ pooled self.old guest }
        ensures after { self.new ≡ record self.old { pool = slice_set self.old.pool guest None } }
    {
        self.guests[guest].take()
    }

    /// Puts a guest into the pool.
    pub(crate) fn put(&mut self, number: usize, guest: G)
        requires { number < length self.old.pool }
        ensures { self.new ≡ record self.old { pool = slice_set self.old.pool number (Some (G.score guest)) } }
    {
        self.guests[number] = Some(guest);
    }

    /// Notes a client whose guest goes to another one.
    pub(crate) fn note(&mut self, birth: u32, bench: &ClientBench<G>)
        ensures { self.new ≡ record self.old { past = self.old.past ++ record { birth = birth; memory = bench.now.kept.standing.memory } ∷ [] } }
    {
        self.past = self.past.and(&birth, bench);
    }
}

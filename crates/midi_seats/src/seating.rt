//! Which bench plays which client.

ghost use Rattle.std.specs.Prelude.{◌≡◌, ◌<◌, ◌≤◌, IfOk, IfSome, IsErr, OnErr, OnOk, length, position};
ghost use Rattle.std.specs.Vec.{vec_capacity};
ghost use Rattle.midi_seats.specs.Seating.{HasNoSeat, HasSeat, SeatsAll, SeatsSome, is_free, is_owned_by, midi_code, seat_for, with_owner};

use jack_types::{Client, Kind};

/// A bench: the number of the kind that it is for, and the birth of the client that owns it.
#[derive(Clone, Copy, PartialEq, Eq, Debug)]
pub struct Owned {
    pub code: u32,
    pub owner: Option<u32>,
}

/// A client can have no bench.
#[derive(Clone, Copy, PartialEq, Eq, Debug)]
pub struct NoBench;

/// The number of a MIDI kind.
pub fn code_of(kind: Kind) -> Option<u32>
    ensures { result ≡ midi_code kind }
{
    match kind {
        Kind::Midithru => Some(0),
        Kind::Midilog => Some(1),
        Kind::Midiplay { list } => Some(u32::from(list) + 2),
        _ => None,
    }
}

/// Whether a client of this birth owns the bench.
fn is_owned_by(bench: &Owned, birth: u32) -> bool
    ensures { result ≡ is_owned_by birth bench.now }
{
    match bench.owner {
        Some(other) => other == birth,
        None => false,
    }
}

/// Whether nobody owns the bench, and it is for this kind.
fn is_free(bench: &Owned, code: u32) -> bool
    ensures { result ≡ is_free code bench.now }
{
    bench.owner.is_none() && bench.code == code
}

/// The bench of the client of this birth, if it has one.
pub fn bench_owned(benches: &[Owned], birth: u32) -> Option<usize>
    ensures place { result ≡ position (is_owned_by birth) benches.now }
    ensures within { IfSome result (λ place. place < length benches.now) }
{
    benches.iter().position(|bench| is_owned_by(bench, birth))
}

/// A bench for this kind that nobody owns, if there is one.
fn free(benches: &[Owned], code: u32) -> Option<usize>
    ensures place { result ≡ position (is_free code) benches.now }
    ensures within { IfSome result (λ place. place < length benches.now) }
{
    benches.iter().position(|bench| is_free(bench, code))
}

/// The bench for a client of this birth and kind: its own, if that is for the kind, or one that nobody owns.
fn seat_for(benches: &[Owned], birth: u32, code: u32) -> Option<usize>
    ensures place { result ≡ seat_for birth code benches.now }
    ensures within { IfSome result (λ place. place < length benches.now) }
{
    let Some(place) = bench_owned(benches, birth) else {
        return free(benches, code);
    };
    if benches[place].code == code {
        return Some(place);
    }
    None
}

/// Gives a client of this birth and kind its bench, which is its own from now on.
pub fn seat(benches: &mut [Owned], birth: u32, code: u32) -> Option<usize>
    ensures place { result ≡ seat_for birth code benches.old }
    ensures owners { benches.new ≡ with_owner birth (seat_for birth code benches.old) benches.old }
{
    let place = seat_for(benches, birth, code)?;
    benches[place].owner = Some(birth);
    Some(place)
}

/// The seat of a client: none for one that is no MIDI client.
fn seat_client(benches: &mut [Owned], client: &Client) -> Result<Option<usize>, NoBench>
    ensures ok { IfOk result (λ seat. HasSeat benches.old benches.new client.now seat) }
    ensures refused { IsErr result → HasNoSeat benches.old client.now }
    ensures err { OnErr result (benches.new ≡ benches.old) }
{
    let Some(code) = code_of(client.kind) else {
        return Ok(None);
    };
    match seat(benches, client.birth, code) {
        Some(place) => Ok(Some(place)),
        None => Err(NoBench),
    }
}

/// Gives each MIDI client of these nodes its bench, up to one that can have none. There is room for all.
pub fn seat_all(
    seats: &mut Vec<Option<usize>>,
    benches: &mut [Owned],
    nodes: &[Client],
) -> Result<(), NoBench>
    requires { length nodes.now ≤ vec_capacity seats.old }
    ensures ok { OnOk result (SeatsAll nodes.now (length nodes.now) seats.new.items benches.old benches.new) }
    ensures refused { IsErr result → SeatsSome nodes.now seats.new.items benches.old benches.new }
    ensures room { vec_capacity seats.new ≡ vec_capacity seats.old }
{
    seats.clear();
    for client in nodes {
        let seat = seat_client(benches, client)?;
        seats.push_reserved(seat);
    }
    Ok(())
}

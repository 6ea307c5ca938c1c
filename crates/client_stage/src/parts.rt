//! What a stage is made of.

use bench_rack::Rack;
use client_kinds::Guest;
use client_seats::Owners;
use client_wiring::Wiring;

/// The benches of a session and who owns them; how the clients of the last plan are wired, and those of the one before it;
/// where kept outputs stood in the cycle before the last; the greatest period, and the last one, in frames; the number of the
/// last plan, and whether each of its clients has a bench.
#[derive(Drop)]
pub(crate) struct Parts<G: Guest> {
    pub rack: Rack<G>,
    pub owners: Owners<G>,
    pub wiring: Wiring,
    pub earlier: Wiring,
    pub last: Vec<Option<usize>>,
    pub room: u32,
    pub period: u32,
    pub number: u32,
    pub is_staffed: bool,
}

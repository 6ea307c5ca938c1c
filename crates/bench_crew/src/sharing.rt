//! Whether a cycle is shared among threads.
ghost use Rattle.std.specs.Prelude.{◌≡◌, ◌≤◌, ◌<◌};

use crate::sources::Sources;
use client_benches::ClientBench;
use client_benches::client_kinds::Guest;

/// The work of a cycle that is worth the start of threads, and what each of them asks for besides.
const LEAST_WORK: u64 = 400_000;

const LEAST_SHARE: u64 = 100_000;

/// What a cycle has to play, as far as it tells whether sharing pays.
#[derive(Clone, Copy)]
pub struct Load {
    /// How many of the first nodes have a client.
    pub clients: u32,
    /// Clients and connections, times the frames of the period. What guests have beyond that, the crew adds.
    pub work: u64,
}

impl Load {
    /// With what the guests of these benches have beyond the work of other clients.
    pub(crate) fn with_guests<G: Guest>(self, benches: &[ClientBench<G>]) -> Load {
        let mut work = self.work;
        for bench in benches {
            work = work.saturating_add(u64::from(bench.extra_work()));
        }
        Load { work, ..self }
    }
}

/// What a cycle needs to be worth the start of a thread for each seat.
#[derive(Clone, Copy)]
pub(crate) struct Worth {
    seats: u32,
    steals: bool,
    least_work: u64,
    ghost some: { 0 < seats },
}

impl Worth {
    /// With so many seats, which take each other's nodes where they steal.
    pub(crate) fn of(seats: u32, steals: bool) -> Worth
        requires { (0 < seats) × (seats ≤ 16) }
    {
        Worth {
            seats,
            steals,
            least_work: LEAST_WORK + LEAST_SHARE * u64::from(seats),
        }
    }

    /// Whether there is enough work, and more than one seat that can begin with it.
    ///
    /// A client is played by the seat that releases the last of its incoming links. So where the clients without
    /// one are all of one seat's share, that seat plays everything, unless the others steal.
    pub(crate) fn is_met(&self, sources: &Sources, load: Load) -> bool {
        self.least_work <= load.work && (self.steals || self.begins_apart(sources, load.clients))
    }

    fn begins_apart(&self, sources: &Sources, clients: u32) -> bool {
        let mut beginner = None;
        for node in 0..clients.min(sources.nodes()) {
            if sources.into(node).is_empty() {
                let seat = node % self.seats;
                match beginner {
                    None => beginner = Some(seat),
                    Some(other) if other != seat => return true,
                    Some(_) => (),
                }
            }
        }
        false
    }
}

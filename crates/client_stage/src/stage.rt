//! The stage on which the clients of a plan play.

ghost use Rattle.std.specs.Prelude.{◌≡◌, ◌*◌, ◌+◌, ◌-◌, ◌/◌, ◌≤◌, ◌<◌, All, IfOk, None, Some, [], ◌∷◌, length, map, min, replicate, true};
ghost use Rattle.std.specs.Vec.{vec_capacity};
ghost use Rattle.session_model.specs.Samples.{silence};
ghost use Rattle.client_benches.specs.Seen.{new_bench};
ghost use Rattle.client_kinds.specs.Standings.{IsPlayable};
ghost use Rattle.client_wiring.specs.Wirings.{wired_of};
ghost use Rattle.stage_laws.specs.Standing.{EnoughLinks, StandsOn};

use crate::parts::Parts;
use bench_crew::Ensemble;
use bench_rack::Rack;
use client_kinds::Guest;
use client_seats::Owners;
use client_wiring::Wiring;
use cycle_plan::Plan;
use jack_types::{Kind, Memory};
use proof_notes::Log;
use stage_laws::owning::nobody_is_known_at_first;
use std::alloc::Global;
use std::marker::Model;

/// The greatest number of connections, and so of links.
const MOST_CONNECTIONS: usize = 512;

/// The greatest number of clients that play in a cycle.
const MOST_NODES: usize = 64;

/// The stage of a session: the benches of all clients that it may open, who owns them, and the crew that plays them.
///
/// Contracts see an `OnStage`: whose benches they are and what they hold, and the plan that was played last. All memory is
/// taken in `new`.
#[derive(Drop)]
pub struct Stage<G: Guest> {
    pub(crate) parts: Parts<G>,
    pub(crate) ensemble: Ensemble<G>,
    pub(crate) silence: Vec<i32>,
    pub(crate) plan: Log<(), Plan>,
}

impl<G: Guest> Model for Stage<G> {
    ghost use Rattle.stage_laws.specs.Standing.{OnStage};

    ghost Value = { OnStage };

    ghost use Rattle.client_stage.specs.Insides.{seen_of, IsWhole};

    ghost view = { seen_of };

    ghost invariant = { IsWhole };
}

/// How many links there can be between so many nodes.
fn most_links(nodes: usize) -> usize
    requires { nodes ≤ 64 }
    ensures { EnoughLinks nodes result }
{
    ((nodes * nodes - nodes) / 2).min(MOST_CONNECTIONS)
}

/// A plan, noted for proofs.
pub(crate) fn note(plan: &Plan) -> Log<(), Plan>
    ensures { result.items ≡ (tt, plan.now) ∷ [] }
{
    Log::new().and(&(), plan)
}

/// No places of kept outputs, with room for those of all connections.
fn no_places(alloc: Global) -> Result<Vec<Option<usize>>, Memory>
    ensures { IfOk result (λ places. (places.items ≡ []) × (512 ≤ vec_capacity places)) }
{
    match Vec::with_capacity(alloc, MOST_CONNECTIONS) {
        Ok(places) => Ok(places),
        Err(_) => Err(Memory),
    }
}

/// A period of silence.
fn silent(alloc: Global, frames: u32) -> Result<Vec<i32>, Memory>
    ensures { IfOk result (λ samples. samples.items ≡ silence frames) }
{
    match vec![in alloc; 0; frames as usize] {
        Ok(samples) => Ok(samples),
        Err(_) => Err(Memory),
    }
}

/// The wiring of a plan.
fn wire(alloc: Global, plan: &Plan) -> Result<Wiring, Memory>
    ensures { IfOk result (λ wiring. (wiring ≡ wired_of plan.now) × (length wiring.heard ≤ 512)) }
{
    let mut wiring = Wiring::new(alloc)?;
    wiring.fill(plan);
    Ok(wiring)
}

impl<G: Guest> Stage<G> {
    /// A stage for clients of these kinds, each bench for one of them, and for cycles of at most so many frames. Nobody plays
    /// yet: `opening` is a plan without changes. The crew has so many seats, which take each other's clients where they
    /// steal.
    pub fn new(
        alloc: Global,
        kinds: &[Kind],
        guests: Vec<G>,
        period: u32,
        seats: u32,
        steals: bool,
        opening: &Plan,
    ) -> Result<Stage<G>, Memory>
        requires kinds { All IsPlayable kinds.now }
        requires period { period ≤ 4096 }
        requires seats { (0 < seats) × (seats ≤ 16) }
        requires opening { opening.now.changes ≡ [] }
        ensures benches { IfOk result (λ stage. stage.staged.racked.benches ≡ map (λ kind. new_bench kind period) kinds.now) }
        ensures owners { IfOk result (λ stage. stage.staged.owned ≡ record { births = replicate (length kinds.now) None; scores = map G.score guests.items; pool = map (λ score. Some score) (map G.score guests.items); past = [] }) }
        ensures room { IfOk result (λ stage. (stage.staged.room ≡ period) × (stage.staged.period ≡ 0) × (stage.staged.is_staffed ≡ true)) }
        ensures plan { IfOk result (λ stage. stage.plan ≡ opening.now) }
        ensures stands { IfOk result (λ stage. StandsOn stage.staged stage.plan) }
    {
        nobody_is_known_at_first();
        let crew = kinds.len().min(MOST_NODES);
        let rack = Rack::new(alloc, kinds, period, most_links(crew))?;
        let owners = Owners::new(alloc, kinds.len(), guests)?;
        let wiring = wire(alloc, opening)?;
        let earlier = Wiring::new(alloc)?;
        let last = no_places(alloc)?;
        let ensemble = Ensemble::new(alloc, crew as u32, seats, steals)?;
        let silence = silent(alloc, period)?;
        let parts = Parts {
            rack,
            owners,
            wiring,
            earlier,
            last,
            room: period,
            period: 0,
            number: opening.number(),
            is_staffed: true,
        };
        Ok(Stage {
            parts,
            ensemble,
            silence,
            plan: note(opening),
        })
    }
}

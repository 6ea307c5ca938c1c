//! A crew of clients' benches, with its seats.
ghost use Rattle.std.specs.Prelude.{◌≡◌, ◌≤◌, ◌<◌, ℕ, All, IfOk, IfSome, length};
ghost use Rattle.session_model.specs.Activation.{AreLinks, sequential};
ghost use Rattle.client_benches.specs.activation.specs.Rounds.{AreReturned};
ghost use Rattle.client_benches.specs.Seen.{has_room_at, kept_after, kept_gives};
ghost use Rattle.steal_workers.specs.cycle_workers.specs.Runs.{HaveRoom};
ghost use Rattle.bench_crew.specs.Ensembles.{HaveDeques, bench_of};
ghost use Rattle.bench_crew.specs.Meanings.{ensembled_of, seats_of, IsReady, IsReadyTeam};

use crate::alone::play_in_order;
use crate::playing::play_over;
use crate::sharing::{Load, Worth};
use crate::sources::Sources;
use client_benches::activation::{Crew, Seat};
use client_benches::client_kinds::Guest;
use client_benches::{ClientBench, Rooms};
use jack_host::Gate;
use jack_types::{Kind, Link, Memory};
use std::alloc::Global;
use std::marker::Model;
use std::thread::Threads;
use steal_workers::Thieves;

/// What plays a cycle: this thread by itself, in the order of the nodes, or where there are several seats a team.
#[derive(Drop)]
struct Means<G: Guest> {
    sources: Sources,
    given: Vec<Option<Rooms>>,
    team: Option<Team<G>>,
}

/// A crew with its seats, and what a cycle needs to be played by it.
///
/// A crew is made over benches of nobody, which stand in for the session's benches between two cycles and
/// are never played. Where its seats take each other's nodes it has thieves.
#[derive(Drop)]
struct Team<G: Guest> {
    crew: Crew<ClientBench<G>>,
    seats: Vec<Seat<ClientBench<G>>>,
    thieves: Option<Thieves<ClientBench<G>>>,
    worth: Worth,
}

/// The crew of a session's benches, with its seats.
///
/// Contracts see an `Ensembled`: how many nodes and how many seats it has.
#[derive(Drop)]
pub struct Ensemble<G: Guest> {
    means: Means<G>,
}

impl<G: Guest> Model for Ensemble<G> {
    ghost use Rattle.bench_crew.specs.Ensembles.{Ensembled};
    ghost use Rattle.bench_crew.specs.Meanings.{ensembled_of, IsReady};

    ghost Value = { Ensembled };

    ghost view = { λ e. ensembled_of e.means };

    ghost invariant = { λ e. IsReady e.means };
}

/// So many benches of nobody.
fn stand_ins<G: Guest>(alloc: Global, nodes: u32) -> Result<Vec<ClientBench<G>>, Memory>
    ensures { IfOk result (λ benches. length benches.items ≡ nodes) }
{
    let Ok(mut benches) = Vec::with_capacity(alloc, nodes as usize) else {
        return Err(Memory);
    };
    for node in 0..nodes {
        benches.push_reserved(ClientBench::new(alloc, Kind::Pass, 0)?);
    }
    Ok(benches)
}

/// Thieves for so many seats, where these steal.
fn thieves_of<G: Guest>(
    alloc: Global,
    seats: u32,
    steals: bool,
) -> Result<Option<Thieves<ClientBench<G>>>, Memory>
    requires { seats ≤ 16 }
    ensures { IfOk result (HaveDeques seats) }
{
    if !steals {
        return Ok(None);
    }
    match Thieves::new(alloc, seats) {
        Ok(thieves) => Ok(Some(thieves)),
        Err(_) => Err(Memory),
    }
}

/// A crew, over benches of nobody.
fn team_of<G: Guest>(alloc: Global, nodes: u32, seats: u32, steals: bool) -> Result<Team<G>, Memory>
    requires nodes { nodes ≤ 64 }
    requires seats { (0 < seats) × (seats ≤ 16) }
    ensures { IfOk result (λ team. (team.crew.nodes ≡ nodes) × (team.crew.seats ≡ seats) × IsReadyTeam team) }
{
    let worth = Worth::of(seats, steals);
    let thieves = thieves_of(alloc, seats, steals)?;
    let benches = stand_ins(alloc, nodes)?;
    match Crew::new(alloc, &[], benches, seats) {
        Ok((crew, seats)) => Ok(Team {
            crew,
            seats,
            thieves,
            worth,
        }),
        Err(_) => Err(Memory),
    }
}

/// No team where there is one seat.
fn team_if_several<G: Guest>(
    alloc: Global,
    nodes: u32,
    seats: u32,
    steals: bool,
) -> Result<Option<Team<G>>, Memory>
    requires nodes { nodes ≤ 64 }
    requires seats { (0 < seats) × (seats ≤ 16) }
    ensures { IfOk result (λ team. (seats_of team ≡ seats) × IfSome team (λ team. (team.crew.nodes ≡ nodes) × IsReadyTeam team)) }
{
    if seats == 1 {
        return Ok(None);
    }
    Ok(Some(team_of(alloc, nodes, seats, steals)?))
}

/// The room of a thread that plays by itself, and with several seats a team.
fn means_of<G: Guest>(
    alloc: Global,
    nodes: u32,
    seats: u32,
    steals: bool,
) -> Result<Means<G>, Memory>
    requires nodes { nodes ≤ 64 }
    requires seats { (0 < seats) × (seats ≤ 16) }
    ensures { IfOk result (λ means. (ensembled_of means ≡ record { nodes = nodes; seats = seats }) × IsReady means) }
{
    let Ok(sources) = Sources::new(alloc, nodes) else {
        return Err(Memory);
    };
    let Ok(given) = Vec::with_capacity(alloc, 512) else {
        return Err(Memory);
    };
    let team = team_if_several(alloc, nodes, seats, steals)?;
    Ok(Means {
        sources,
        given,
        team,
    })
}

impl<G: Guest> Ensemble<G> {
    /// A crew of so many nodes and seats, over benches of nobody. Where they steal, seats take each other's nodes.
    ///
    /// Want of memory is the only refusal.
    pub fn new(alloc: Global, nodes: u32, seats: u32, steals: bool) -> Result<Ensemble<G>, Memory>
        requires nodes { nodes ≤ 64 }
        requires seats { (0 < seats) × (seats ≤ 16) }
        ensures { IfOk result (λ made. (made.nodes ≡ nodes) × (made.seats ≡ seats)) }
    {
        let means = means_of(alloc, nodes, seats, steals)?;
        Ok(Ensemble { means })
    }

    /// How many nodes it has, one for each bench that it plays.
    pub fn nodes(&self) -> u32
        ensures { result ≡ self.now.nodes }
    {
        self.means.sources.nodes()
    }
}

/// Plays these benches, one a node, over these links.
fn play_by<G: Guest + Send, K: Gate, T: Threads + Sync>(
    means: &mut Means<G>,
    threads: &T,
    gate: &K,
    links: &[Link],
    load: Load,
    benches: &mut [ClientBench<G>],
)
    requires ready { IsReady means.old }
    requires links { AreLinks (ensembled_of means.old).nodes links.now × (length links.now ≤ 512) }
    requires benches { (length benches.old ≡ (ensembled_of means.old).nodes) × HaveRoom has_room_at links.now benches.old }
    ensures means { ensembled_of means.new ≡ ensembled_of means.old }
    ensures ready { IsReady means.new }
    ensures played { AreReturned (λ bench. bench.kept) has_room_at (kept_after G.sound) (kept_gives G.sound) links.now benches.old benches.new }
{
    means.sources.relist(links);
    match &mut means.team {
        Some(team) if team.worth.is_met(&means.sources, load.with_guests(benches)) => play_over(
            threads,
            gate,
            &mut team.crew,
            &mut team.seats,
            &mut team.thieves,
            links,
            benches,
        ),
        _ => play_in_order(gate, &means.sources, benches, &mut means.given),
    }
}

impl<G: Guest + Send> Ensemble<G> {
    /// Plays a bench a node, over these links: each on what the benches of its incoming links handed it.
    ///
    /// Where the cycle's load is worth the start of threads, the seats are shared among as many; else this thread
    /// plays all, as with one seat. What is played is the same. It takes no memory, but that seats that steal may
    /// take some for their deques, and do without where that is refused.
    pub fn play<K: Gate, T: Threads + Sync>(
        &mut self,
        threads: &T,
        gate: &K,
        links: &[Link],
        load: Load,
        benches: &mut [ClientBench<G>],
    )
        requires count { length benches.old ≡ self.old.nodes }
        requires links { AreLinks self.old.nodes links.now × (length links.now ≤ 512) }
        requires rooms { HaveRoom has_room_at links.now benches.old }
        ensures crew { self.new ≡ self.old }
        ensures count { length benches.new ≡ length benches.old }
        ensures played { (n : ℕ) → n < length benches.old → (bench_of benches.new n).kept ≡ sequential (kept_after G.sound) (kept_gives G.sound) links.now (λ m. (bench_of benches.old m).kept) n }
        ensures rooms { (n : ℕ) (place : ℕ) → n < length benches.old → has_room_at (bench_of benches.new n) place ≡ has_room_at (bench_of benches.old n) place }
    {
        play_by(&mut self.means, threads, gate, links, load, benches);
    }
}

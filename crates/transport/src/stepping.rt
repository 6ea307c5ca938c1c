//! The transport.

ghost use Rattle.std.specs.Prelude.{◌≡◌, ℕ, ◌+◌, ◌<◌, ◌≤◌, ◌^◌, Option, nat_le, nat_lt};
ghost use Rattle.std.specs.List.{list_all, list_any};
ghost use Rattle.session_model.specs.State.{Master};
ghost use Rattle.session_model.specs.Transport.{first_row, is_ready, next_frame, next_row, next_state, shown};
ghost use Rattle.transport.specs.Standings.{HasTempo, counted, place_of, with_targets};

use crate::asking::{frame_asked, state_asked};
use jack_types::{Bbt, Change, Moment, TransportState};
use std::marker::Model;
use tempo_map::Tempo;

/// The transport of a session: the row of the last cycle, from which the next one goes on.
///
/// Contracts see a `Standing`: the rate, the cycles so far, their frames, and the row.
#[derive(Drop)]
pub struct Transport {
    rate: u32,
    cycles: u32,
    frames: u32,
    state: TransportState,
    frame: u32,
    wait: u32,
    target: Option<u32>,
    period: u32,
}

impl Model for Transport {
    ghost use Rattle.transport.specs.Standings.{Standing};

    ghost Value = { Standing };

    ghost use Rattle.transport.specs.Insides.{standing, IsWithin};

    ghost view = { standing };

    ghost invariant = { IsWithin };
}

/// Whether some client is slow. 0 is no slow number.
fn has_slow(slow: &[u32]) -> bool
    ensures { result ≡ list_any (λ cycles. nat_lt 0 cycles) slow.now }
{
    slow.iter().any(|cycles| *cycles > 0)
}

/// Whether every slow client is ready behind such a wait.
fn are_ready(wait: u32, slow: &[u32]) -> bool
    ensures { result ≡ list_all (λ cycles. nat_le cycles wait) slow.now }
{
    slow.iter().all(|cycles| *cycles <= wait)
}

/// Whether every slow client is ready behind such a wait, or the time is up.
#[tactic(auto, using(crate::proofs::CountedLemmas::list_all_counted))]
fn may_roll(wait: u32, slow: &[u32], timeout: u32) -> bool
    ensures { result ≡ is_ready wait (counted slow.now) timeout }
{
    if are_ready(wait, slow) {
        return true;
    }
    timeout <= wait
}

/// The state and the wait of a transport that is starting, and is not stopped.
fn behind_starting(moves: bool, wait: u32, slow: &[u32], timeout: u32) -> (TransportState, u32)
    requires { wait < 1000000 }
    ensures value { result ≡ next_state TransportState.Starting None moves wait (counted slow.now) timeout }
    ensures wait { result.1 ≤ wait + 1 }
{
    if moves {
        return (TransportState::Starting, 0);
    }
    let waited = wait + 1;
    if may_roll(waited, slow, timeout) {
        (TransportState::Rolling, 0)
    } else {
        (TransportState::Starting, waited)
    }
}

/// The state and the wait of a transport that rolls, and is not stopped.
#[tactic(auto, using(crate::proofs::CountedLemmas::list_any_counted))]
fn behind_rolling(moves: bool, slow: &[u32]) -> (TransportState, u32)
    ensures value { result ≡ next_state TransportState.Rolling None moves 0 (counted slow.now) 0 }
    ensures wait { result.1 ≡ 0 }
{
    if moves && has_slow(slow) {
        (TransportState::Starting, 0)
    } else {
        (TransportState::Rolling, 0)
    }
}

/// The state and the wait of the next cycle.
fn state_and_wait(
    state: TransportState,
    asked: Option<TransportState>,
    moves: bool,
    wait: u32,
    slow: &[u32],
    timeout: u32,
) -> (TransportState, u32)
    requires { wait < 1000000 }
    ensures value { result ≡ next_state state asked moves wait (counted slow.now) timeout }
    ensures wait { result.1 ≤ wait + 1 }
{
    match state {
        TransportState::Stopped => match asked {
            Some(TransportState::Starting) => (TransportState::Starting, 0),
            _ => (TransportState::Stopped, 0),
        },
        TransportState::Starting => match asked {
            Some(TransportState::Stopped) => (TransportState::Stopped, 0),
            _ => behind_starting(moves, wait, slow, timeout),
        },
        TransportState::Rolling => match asked {
            Some(TransportState::Stopped) => (TransportState::Stopped, 0),
            _ => behind_rolling(moves, slow),
        },
    }
}

/// Where a frame stands, under a tempo.
fn place_under(tempo: Option<Tempo>, frame: u32, rate: u32) -> Option<Bbt>
    requires { 8000 ≤ rate }
    ensures { (master : Option Master) → HasTempo master tempo → result ≡ place_of master frame rate }
{
    match tempo {
        Some(tempo) => Some(tempo.bbt(frame, rate)),
        None => None,
    }
}

impl Transport {
    /// The transport of a session at so many frames a second: stopped at frame 0, before the first cycle.
    pub fn new(rate: u32) -> Transport
        requires least { 8000 ≤ rate }
        requires most { rate ≤ 192000 }
        ensures rate { result.rate ≡ rate }
        ensures cycles { result.cycles ≡ 0 }
        ensures frames { result.frames ≡ 0 }
        ensures row { result.row ≡ first_row }
    {
        Transport {
            rate,
            cycles: 0,
            frames: 0,
            state: TransportState::Stopped,
            frame: 0,
            wait: 0,
            target: None,
            period: 0,
        }
    }

    /// Steps to the next cycle, and answers what the transport shows in it.
    ///
    /// `adopted` are the changes that this cycle takes and the one before did not, of which a locate out of its range
    /// counts for nothing, `slow` the slow numbers of the active clients, in cycles, where 0 is none, `timeout` is in cycles, `tempo` that of the master if
    /// its client is active, and `period` this cycle's frames.
    pub fn step(
        &mut self,
        adopted: &[Change],
        slow: &[u32],
        timeout: u32,
        tempo: Option<Tempo>,
        period: u32,
    ) -> Moment
        requires cycles { self.old.cycles < 1000000 }
        requires frames { self.old.frames + period ≤ 500000000 }
        ensures rate { self.new.rate ≡ self.old.rate }
        ensures cycles { self.new.cycles ≡ self.old.cycles + 1 }
        ensures frames { self.new.frames ≡ self.old.frames + period }
        ensures row { self.new.row ≡ next_row self.old.row (with_targets adopted.now) (counted slow.now) timeout period }
        ensures moment { (master : Option Master) → HasTempo master tempo → result ≡ shown self.new.cycles self.new.row self.new.rate master }
        ensures bound { result.frame + period < 2 ^ 32 }
    {
        let moves = self.target.is_some();
        let asked = state_asked(adopted);
        let frame = self.next_frame();
        let (state, wait) = state_and_wait(self.state, asked, moves, self.wait, slow, timeout);
        self.frame = frame;
        self.state = state;
        self.wait = wait;
        self.target = frame_asked(adopted);
        self.period = period;
        self.cycles += 1;
        self.frames += period;
        Moment {
            cycle: self.cycles,
            state,
            frame,
            rate: self.rate,
            bbt: place_under(tempo, frame, self.rate),
        }
    }

    /// The frame of the next cycle.
    fn next_frame(&self) -> u32
        ensures value { result ≡ next_frame self.now.row }
        ensures bound { result ≤ 2147483647 + self.now.frames }
    {
        if let Some(target) = self.target {
            return target;
        }
        match self.state {
            TransportState::Rolling => self.frame + self.period,
            _ => self.frame,
        }
    }
}

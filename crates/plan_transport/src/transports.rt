//! A transport that is stepped by plans.

ghost use Rattle.std.specs.Prelude.{◌≡◌, ◌+◌, ◌-◌, ◌*◌, ◌/◌, ◌<◌, ◌≤◌, ◌^◌, Option, unwrap_or};
ghost use Rattle.session_model.specs.State.{Master};
ghost use Rattle.session_model.specs.Transport.{first_row, next_row, shown};
ghost use Rattle.transport.specs.Standings.{HasTempo, counted, with_targets};

use jack_types::{Change, Moment};
use std::marker::Model;
use tempo_map::Tempo;
use transport::Transport;

/// A session's transport, with its rate at hand: by it a cycle knows how long slow clients are waited for.
///
/// Contracts see the `Standing` of the transport.
#[derive(Drop)]
pub struct PlanTransport {
    rate: u32,
    transport: Transport,
}

impl Model for PlanTransport {
    ghost use Rattle.transport.specs.Standings.{Standing};

    ghost Value = { Standing };

    ghost view = { λ t. t.transport };

    ghost use Rattle.plan_transport.specs.Insides.{IsOfSession};

    ghost invariant = { IsOfSession };
}

/// Two seconds at so many frames a second, in cycles of so many frames, the last one whole.
fn two_seconds(rate: u32, period: u32) -> u32
    requires rate { rate ≤ 192000 }
    requires least { 0 < period }
    requires most { period ≤ 500000000 }
    ensures { result ≡ (2 * rate + period - 1) / period }
{
    (2 * rate + period - 1) / period
}

impl PlanTransport {
    /// The transport of a session at so many frames a second: stopped at frame 0, before the first cycle.
    pub fn new(rate: u32) -> PlanTransport
        requires least { 8000 ≤ rate }
        requires most { rate ≤ 192000 }
        ensures rate { result.rate ≡ rate }
        ensures cycles { result.cycles ≡ 0 }
        ensures frames { result.frames ≡ 0 }
        ensures row { result.row ≡ first_row }
    {
        PlanTransport {
            rate,
            transport: Transport::new(rate),
        }
    }

    /// Steps to the next cycle, and answers what the transport shows in it. Without a timeout slow clients are waited for
    /// two seconds.
    pub(crate) fn step(
        &mut self,
        adopted: &[Change],
        slow: &[u32],
        timeout: Option<u32>,
        tempo: Option<Tempo>,
        period: u32,
    ) -> Moment
        requires cycles { self.old.cycles < 1000000 }
        requires frames { self.old.frames + period ≤ 500000000 }
        requires period { 0 < period }
        ensures rate { self.new.rate ≡ self.old.rate }
        ensures cycles { self.new.cycles ≡ self.old.cycles + 1 }
        ensures frames { self.new.frames ≡ self.old.frames + period }
        ensures row { self.new.row ≡ next_row self.old.row (with_targets adopted.now) (counted slow.now) (unwrap_or timeout ((2 * self.old.rate + period - 1) / period)) period }
        ensures moment { (master : Option Master) → HasTempo master tempo → result ≡ shown self.new.cycles self.new.row self.old.rate master }
        ensures bound { result.frame + period < 2 ^ 32 }
        ensures least_rate { 8000 ≤ self.old.rate }
    {
        let waited = timeout.unwrap_or(two_seconds(self.rate, period));
        self.transport.step(adopted, slow, waited, tempo, period)
    }
}

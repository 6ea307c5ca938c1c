//! The lanes of one desk, stepped in the order of serial mode.

ghost use Rattle.std.specs.Prelude.{◌≡◌, ◌≤◌, ◌<◌, ℕ, suc, length};
ghost use Rattle.control_desk.specs.Desks.{IsDesk, IsDone, MayBegin, MayStep};
ghost use Rattle.session_model.specs.Grammar.{IsScript};
ghost use Rattle.session_model.specs.Histories.{accepted};
ghost use Rattle.session_model.specs.Scripts.{phases};
ghost use Rattle.serial_lanes.specs.Lanes.{BehindPhases, IsRound, LaneRuns, LanesRun, RanOn, SawUpTo, SerialDesk, cycles_begun};

use control_desk::{Desk, Stepped};

/// Begins the phase behind so many others, and makes its `do` calls, in each mode.
///
/// It looks at no cycle, and takes no memory.
pub fn begin_group(desk: &mut Desk, phase: u32)
    requires { MayBegin desk.old phase }
    ensures runs { LaneRuns (record desk.old { phase = suc phase }) 0 desk.new }
    ensures done { IsDone desk.new 0 }
    ensures published { desk.new.publishing ≡ record desk.old.publishing { all = accepted desk.new.history; held = desk.new.publishing.held } }
    ensures same { desk.new ≡ record desk.old { history = desk.new.history; phase = suc phase; publishing = desk.new.publishing } }
{
    kept_by_type(desk);
    desk.begin(phase);
    run_lane(desk, 0);
}

/// Begins the phase behind so many others as `begin_group` does, where all calls so far were made in the order of serial mode.
pub fn begin_phase(desk: &mut Desk, phase: u32)
    requires behind { BehindPhases desk.old phase }
    requires there { phase < length (phases desk.old.script) }
    ensures serial { SerialDesk desk.new phase 0 }
    ensures done { IsDone desk.new 0 }
    ensures published { desk.new.publishing ≡ record desk.old.publishing { all = accepted desk.new.history; held = desk.new.publishing.held } }
    ensures same { desk.new ≡ record desk.old { history = desk.new.history; phase = suc phase; publishing = desk.new.publishing } }
{
    kept_by_type(desk);
    begin_group(desk, phase);
}

/// Lets lanes 1 to 4 go, each until it waits for a cycle or has no call left in this phase.
///
/// In a segment there is one round before its first cycle and one behind each, and desk and reader have met before it. Each
/// step looks at the cycle word once. It takes no memory.
pub fn round(desk: &mut Desk)
    requires begun { 1 ≤ desk.old.phase }
    requires group { IsDone desk.old 0 }
    ensures runs { LanesRun desk.old desk.new }
    ensures done { IsDone desk.new 0 }
    ensures on { RanOn desk.old desk.new }
    // The premise on what it saw is what the meeting behind the round tells.
    ensures serial { (done rounds : ℕ) → IsRound desk.old.script done rounds → SerialDesk desk.old done rounds → cycles_begun desk.old.script done rounds ≤ desk.old.publishing.least
        → SawUpTo (cycles_begun desk.old.script done rounds) desk.new → SerialDesk desk.new done (suc rounds) }
{
    kept_by_type(desk);
    run_lane(desk, 1);
    run_lane(desk, 2);
    run_lane(desk, 3);
    run_lane(desk, 4);
}

/// Steps a lane until it makes no call.
fn run_lane(desk: &mut Desk, lane: usize)
    requires { MayStep desk.old lane }
    ensures runs { LaneRuns desk.old lane desk.new }
    ensures may { MayStep desk.new lane }
{
    'stepping: loop {
        match desk.step(lane) {
            Stepped::Did(_) => {}
            Stepped::NotYet { .. } | Stepped::Done => return,
        }
    }
}

/// What a desk's type keeps: its script is lawful, and what it published is what its history accepts.
fn kept_by_type(desk: &Desk)
    ensures script { IsScript desk.now.script }
    ensures desk { IsDesk desk.now }
{
    let _ = desk.history();
}

//! Lanes 1 to 4, each in a thread of its own.

ghost use Rattle.std.specs.Prelude.{◌≡◌, ◌≤◌, ◌<◌, ◌∷◌, [], All, IfSome, IsNone, length, suc};
ghost use Rattle.control_desk.specs.Desks.{IsDesk, made};
ghost use Rattle.desk_turn.specs.Lanes.{HasRun, HasStepped, HaveRun, IsOpen};
ghost use Rattle.session_model.specs.Grammar.{IsScript};

use crate::kept::TurnDesk;
use control_desk::laws::goes_on;
use control_desk::{Desk, Stepped};
use crossbeam_utils::Backoff;
use jack_host::Gate;
use jack_types::Entry;
use std::sync::Wait;
use std::thread;
use std::thread::Threads;
use turn_word::{Pass, Turn};

/// How many lanes go in threads: all but lane 0, whose calls are made before.
const LANES: usize = 4;

/// What a desk's type keeps.
fn kept_by_type(desk: &Desk)
    ensures script { IsScript desk.now.script }
    ensures desk { IsDesk desk.now }
{
    let _ = desk.history();
}

/// A step of the lane's next call, None where the desk is out with another pass.
fn try_step(turn: &Turn<TurnDesk>, pass: &mut Pass<TurnDesk>, lane: u8) -> Option<Stepped>
    requires open { IsOpen turn.now.table pass.old }
    requires lane { (1 ≤ lane) × (lane ≤ 4) }
    ensures out { IsNone result → pass.new ≡ pass.old }
    ensures step { IfSome result (λ stepped. HasStepped lane stepped pass.old pass.new) }
{
    goes_on();
    let TurnDesk { mut desk } = turn.take(pass)?;
    kept_by_type(&desk);
    let stepped = desk.step(lane as usize);
    turn.give(pass, TurnDesk { desk });
    Some(stepped)
}

/// Makes the calls of a lane as the cycles that they ask for begin, until it has none left in this phase, or the work was
/// called off. It made so many before, and the gate is told of the next, whose index counts from 1.
fn run_lane<R: Wait, K: Gate>(
    wait: &R,
    turn: &Turn<TurnDesk>,
    pass: &mut Pass<TurnDesk>,
    lane: u8,
    made: usize,
    gate: &K,
)
    requires open { IsOpen turn.now.table pass.old }
    requires lane { (1 ≤ lane) × (lane ≤ 4) }
    ensures { HasRun lane pass.old pass.new }
{
    let backoff = Backoff::new();
    let mut next = u32::try_from(made).unwrap_or(u32::MAX).saturating_add(1);
    for _ in wait.forever() {
        if turn.is_off(pass) {
            return;
        }
        gate.before_call(lane, next);
        match try_step(turn, pass, lane) {
            Some(Stepped::Did(_)) => {
                gate.after_call(lane, next);
                next = next.saturating_add(1);
                backoff.reset();
            }
            Some(Stepped::Done) => return,
            Some(Stepped::NotYet { .. }) | None => backoff.snooze(),
        }
    }
    unreachable!()
}

/// Lets lanes 1 to 4 go until none has a call left in this phase, or the work was called off: each in a thread of its own,
/// where one can be made. `made` is how many calls lanes 1 to 4 made before, which the gate is told.
///
/// The gate is called before the turn is asked for, at each try, and behind each call that was made. It may wait for ever.
pub fn run_lanes<T: Threads + Sync, R: Wait + Sync, K: Gate>(
    threads: &T,
    wait: &R,
    gate: &K,
    turn: &Turn<TurnDesk>,
    passes: &mut [Pass<TurnDesk>],
    made: [usize; 4],
)
    requires four { length passes.old ≡ 4 }
    requires open { All (IsOpen turn.now.table) passes.old }
    ensures { HaveRun passes.old passes.new }
{
    let lane = |place: usize, pass: &mut Pass<TurnDesk>|
        requires { (place < 4) × IsOpen turn.now.table pass.old }
        ensures { HasRun (suc place) pass.entry.now pass.exit.now }
    { run_lane(wait, turn, pass, place as u8 + 1, made[place], gate) };
    thread::for_each_mut(threads, passes, LANES, &lane);
}

/// How many calls a lane made.
fn calls_of(history: &[Entry], lane: u8) -> usize
    ensures { result ≡ made history.now lane }
{
    let mut count = 0;
    for entry in history {
        if entry.call.lane == lane {
            count += 1;
        }
    }
    count
}

/// How many calls lanes 1 to 4 made.
pub fn calls_made(history: &[Entry]) -> [usize; 4]
    ensures { result ≡ made history.now 1 ∷ made history.now 2 ∷ made history.now 3 ∷ made history.now 4 ∷ [] }
{
    [
        calls_of(history, 1),
        calls_of(history, 2),
        calls_of(history, 3),
        calls_of(history, 4),
    ]
}

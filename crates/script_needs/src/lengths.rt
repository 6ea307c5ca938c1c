//! How long the cycles of a script are, and how many.

ghost use Rattle.std.specs.Prelude.{◌≡◌, ◌+◌, ◌<◌, ◌≤◌, ℕ, fold, length, sum_by};
ghost use Rattle.session_model.specs.Scripts.{turns};
ghost use Rattle.task_laws.specs.driver_laws.specs.Drivers.{greatest_period, turn_of};
ghost use Rattle.script_needs.specs.Lines.{cycles_on, first_periods, longest, past};

use jack_types::Body;
use session_script::Script;

/// Over the lines of a script: the period that is set, and the greatest of the segments so far, in frames.
#[derive(Clone, Copy)]
pub struct Periods {
    pub set: u32,
    pub greatest: u32,
}

impl Periods {
    /// Goes past a line.
    fn pass(&mut self, line: &Body)
        ensures { self.new ≡ past self.old line.now }
    {
        match line {
            Body::Run(_) | Body::Freewheel(_) => self.greatest = self.greatest.max(self.set),
            Body::Period(next) => self.set = *next,
            _ => {}
        }
    }
}

/// The cycles of a line.
fn cycles_on(line: &Body) -> u32
    ensures { result ≡ cycles_on line.now }
{
    match line {
        Body::Run(cycles) => *cycles,
        Body::Freewheel(cycles) => *cycles,
        _ => 0,
    }
}

/// The longest of the periods that hold on lines and behind them.
fn longest_on(period: u32, lines: &[Body]) -> u32
    ensures { result ≡ longest (fold past (first_periods period) lines.now) }
{
    let mut periods = Periods {
        set: period,
        greatest: period,
    };
    for line in lines {
        periods.pass(line);
    }
    periods.greatest.max(periods.set)
}

/// How many cycles lines have.
fn cycles_behind(lines: &[Body]) -> u32
    requires { sum_by cycles_on lines.now ≤ 1000000 }
    ensures { result ≡ sum_by cycles_on lines.now }
{
    let mut count = 0;
    for line in lines {
        count += cycles_on(line);
    }
    count
}

/// The longest of a script's periods, in frames: from 4 to 4,096, and none of its cycles is longer.
pub fn greatest_period(script: &Script) -> u32
    ensures greatest { result ≡ greatest_period script.now }
    ensures low { 4 ≤ result }
    ensures high { result ≤ 4096 }
    ensures each { (k : ℕ) → k < length (turns script.now) → (turn_of script.now (k + 1)).period ≤ result }
{
    longest_on(script.header().period, script.lines())
}

/// How many cycles a script has, freewheel ones among them: at most 1,000,000.
pub fn cycles(script: &Script) -> u32
    ensures count { result ≡ length (turns script.now) }
    ensures few { result ≤ 1000000 }
{
    cycles_behind(script.lines())
}

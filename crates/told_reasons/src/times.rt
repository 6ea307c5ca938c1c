//! When a cycle of a session begins, by the script's text.

ghost use Rattle.std.specs.Prelude.{◌≤◌};

use crate::formats::number_in;
use crate::lines::readable;
use script_words::{Lines, Words};

// The most lines of a script.
const MOST_LINES: usize = 1_048_576;

/// When a frame is heard, counted from 0.
#[derive(Clone, Copy, Drop)]
pub struct Time {
    frame: u64,
    rate: u64,
    ghost ticks: { 1 ≤ rate },
}

impl Time {
    /// The time of a frame, at so many frames a second.
    pub fn of(frame: u64, rate: u64) -> Time {
        Time {
            frame,
            rate: rate.max(1),
        }
    }

    pub fn seconds(&self) -> u64 {
        self.frame / self.rate
    }

    /// The thousandths of a second behind the seconds.
    pub fn thousandths(&self) -> u64 {
        (self.frame % self.rate).saturating_mul(1000) / self.rate
    }

    /// The point before the thousandths, and their zeros.
    pub fn point(&self) -> &'static str {
        match self.thousandths() {
            0..10 => ".00",
            10..100 => ".0",
            _ => ".",
        }
    }
}

/// When a cycle begins, counted from 1: behind the frames of all cycles before it.
pub fn time_of(text: &[u8], cycle: u64) -> Time {
    let mut lines = Lines::of(readable(text));
    let mut course = Course {
        rate: 0,
        period: 0,
        frame: 0,
        left: cycle.saturating_sub(1),
    };
    for _ in 0..MOST_LINES {
        match lines.take() {
            Some(line) => course.hear(line.words),
            None => break,
        }
    }
    Time::of(course.frame, course.rate)
}

// The cycles of a script up to the one that is looked for.
#[derive(Drop)]
struct Course {
    rate: u64,
    period: u64,
    // The frames of the cycles that were passed.
    frame: u64,
    // How many cycles stand before the one that is looked for.
    left: u64,
}

impl Course {
    // Takes a line of the script.
    fn hear(&mut self, mut words: Words) {
        let Ok(name) = words.word() else {
            return;
        };
        if name == b"rate".as_slice() {
            self.rate = number_in(&mut words);
        } else if name == b"period".as_slice() {
            self.period = number_in(&mut words);
        } else if name == b"run".as_slice() || name == b"freewheel".as_slice() {
            self.pass(number_in(&mut words));
        }
    }

    // Passes the cycles of a segment, up to the one that is looked for.
    fn pass(&mut self, cycles: u64) {
        let passed = cycles.min(self.left);
        self.frame = self
            .frame
            .saturating_add(passed.saturating_mul(self.period));
        self.left -= passed;
    }
}

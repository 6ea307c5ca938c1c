//! From place to place, line by line.

ghost use Rattle.std.specs.Prelude.{◌≡◌};
ghost use Rattle.report_laws.specs.Places.{at_start, in_calls, in_cycles, in_disks, in_events, in_meters, in_recorders, next};

use crate::places::{Limits, Place};
use report_reader::Line;

fn at_start(line: &Line) -> Option<Place>
    ensures { result ≡ at_start line.now }
{
    match line {
        Line::Report => Some(Place::Calls(0)),
        _ => None,
    }
}

fn in_disks(limits: &Limits, disks: u32, left: u32, line: &Line) -> Option<Place>
    ensures { result ≡ in_disks limits.now disks left line.now }
{
    match line {
        Line::Disk(count) => {
            if left > 0 {
                return None;
            }
            if disks >= limits.disks {
                return None;
            }
            if count.file != u64::from(disks) {
                return None;
            }
            if count.losses > u64::from(limits.cycles) {
                return None;
            }
            Some(Place::Disks(disks + 1, count.losses as u32))
        }
        Line::Underrun(loss) => {
            if left == 0 {
                return None;
            }
            if disks == 0 {
                return None;
            }
            if loss.file != u64::from(disks - 1) {
                return None;
            }
            Some(Place::Disks(disks, left - 1))
        }
        Line::End => {
            if left > 0 {
                return None;
            }
            if disks != limits.disks {
                return None;
            }
            Some(Place::Done)
        }
        _ => None,
    }
}

fn in_recorders(limits: &Limits, recorders: u32, left: u32, line: &Line) -> Option<Place>
    ensures { result ≡ in_recorders limits.now recorders left line.now }
{
    match line {
        Line::Recorder(count) => {
            if left > 0 {
                return None;
            }
            if recorders >= limits.recorders {
                return None;
            }
            if count.file != u64::from(recorders) {
                return None;
            }
            if count.losses > u64::from(limits.cycles) {
                return None;
            }
            Some(Place::Recorders(recorders + 1, count.losses as u32))
        }
        Line::Overrun(loss) => {
            if left == 0 {
                return None;
            }
            if recorders == 0 {
                return None;
            }
            if loss.file != u64::from(recorders - 1) {
                return None;
            }
            Some(Place::Recorders(recorders, left - 1))
        }
        other => {
            if left > 0 {
                return None;
            }
            if recorders != limits.recorders {
                return None;
            }
            in_disks(limits, 0, 0, other)
        }
    }
}

fn in_events(limits: &Limits, events: u32, line: &Line) -> Option<Place>
    ensures { result ≡ in_events limits.now events line.now }
{
    match line {
        Line::Midi(_) => {
            if events >= limits.events {
                return None;
            }
            Some(Place::Events(events + 1))
        }
        other => in_recorders(limits, 0, 0, other),
    }
}

fn in_meters(limits: &Limits, meters: u32, line: &Line) -> Option<Place>
    ensures { result ≡ in_meters limits.now meters line.now }
{
    match line {
        Line::Meter(_) => {
            if meters >= limits.meters {
                return None;
            }
            Some(Place::Meters(meters + 1))
        }
        other => in_events(limits, 0, other),
    }
}

fn in_cycles(limits: &Limits, cycles: u32, line: &Line) -> Option<Place>
    ensures { result ≡ in_cycles limits.now cycles line.now }
{
    match line {
        Line::Cycle(cycle) => {
            if cycles >= limits.cycles {
                return None;
            }
            if cycle.cycle != u64::from(cycles) + 1 {
                return None;
            }
            Some(Place::Cycles(cycles + 1))
        }
        other => {
            if cycles != limits.cycles {
                return None;
            }
            in_meters(limits, 0, other)
        }
    }
}

fn in_calls(limits: &Limits, calls: u32, line: &Line) -> Option<Place>
    ensures { result ≡ in_calls limits.now calls line.now }
{
    match line {
        Line::Call(_) => {
            if calls >= limits.calls {
                return None;
            }
            Some(Place::Calls(calls + 1))
        }
        other => in_cycles(limits, 0, other),
    }
}

impl Place {
    /// The place behind one more line, where the line may come there.
    pub fn next(self, limits: &Limits, line: &Line) -> Option<Place>
        ensures { result ≡ next limits.now self line.now }
    {
        match self {
            Place::Start => at_start(line),
            Place::Calls(calls) => in_calls(limits, calls, line),
            Place::Cycles(cycles) => in_cycles(limits, cycles, line),
            Place::Meters(meters) => in_meters(limits, meters, line),
            Place::Events(events) => in_events(limits, events, line),
            Place::Recorders(recorders, left) => in_recorders(limits, recorders, left, line),
            Place::Disks(disks, left) => in_disks(limits, disks, left, line),
            Place::Done => None,
        }
    }
}

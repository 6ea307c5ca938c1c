//! The segments of a script, line by line.

ghost use Rattle.std.specs.Prelude.{◌≡◌, IfOk, false, map, true};
ghost use Rattle.session_model.specs.Scripts.{phases_of};
ghost use Rattle.script_segments.specs.Segments.{segment_of, segments as the_segments};

use jack_types::{Body, Memory};
use session_script::Script;
use std::alloc::{AllocError, Global};

/// So many cycles of one period, in frames, and of one kind.
#[derive(Clone, Copy, Debug, PartialEq, Eq)]
pub struct Segment {
    pub period: u32,
    pub is_freewheel: bool,
    pub cycles: u32,
}

impl Segment {
    /// Bound to the device.
    fn run(period: u32, cycles: u32) -> Segment
        ensures { result ≡ record { period = period; is_freewheel = false; cycles = cycles } }
    {
        Segment {
            period,
            is_freewheel: false,
            cycles,
        }
    }

    /// Not bound to it.
    fn freewheel(period: u32, cycles: u32) -> Segment
        ensures { result ≡ record { period = period; is_freewheel = true; cycles = cycles } }
    {
        Segment {
            period,
            is_freewheel: true,
            cycles,
        }
    }
}

/// The segment of each phase of lines, where this period holds before the first.
fn segments_of(alloc: Global, period: u32, lines: &[Body]) -> Result<Vec<Segment>, AllocError>
    ensures { IfOk result (λ found. found.items ≡ map segment_of (phases_of period lines.now)) }
{
    let mut found = Vec::new(alloc);
    let mut set = period;
    for line in lines {
        match line {
            Body::Run(cycles) => found.push(Segment::run(set, *cycles))?,
            Body::Freewheel(cycles) => found.push(Segment::freewheel(set, *cycles))?,
            Body::Period(next) => set = *next,
            _ => {}
        }
    }
    found.push(Segment::run(set, 0))?;
    Ok(found)
}

/// The segment of each phase of a script. The last one, of the group of `do` lines that no segment follows, has no cycle.
pub fn segments(alloc: Global, script: &Script) -> Result<Vec<Segment>, Memory>
    ensures { IfOk result (λ found. found.items ≡ the_segments script.now) }
{
    match segments_of(alloc, script.header().period, script.lines()) {
        Ok(found) => Ok(found),
        Err(_) => Err(Memory),
    }
}

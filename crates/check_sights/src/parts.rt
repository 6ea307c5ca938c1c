//! The parts of a check.

ghost use Rattle.std.specs.Prelude.{◌≡◌, ◌≤◌, length};
ghost use Rattle.check_sights.specs.Parts.{part_name};

use jack_types::Part;

/// The word that a verdict has for a part.
pub fn name_of_part(part: Part) -> &'static str
    ensures name { result.now ≡ part_name part }
    ensures short { length result.now ≤ 8 }
{
    match part {
        Part::Report => "report",
        Part::Call => "call",
        Part::Cycle => "cycle",
        Part::Meter => "meter",
        Part::Midi => "midi",
        Part::Recorder => "recorder",
        Part::Overrun => "overrun",
        Part::Disk => "disk",
        Part::Underrun => "underrun",
        Part::Record => "record",
        Part::Playback => "playback",
    }
}

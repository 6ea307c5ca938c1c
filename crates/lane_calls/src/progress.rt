//! Over the lines of a script, what stages and cycles its next calls have.

ghost use Rattle.std.specs.Prelude.{◌≡◌, ◌+◌, ◌<◌, ◌^◌};
ghost use Rattle.std.specs.Option.{option_map};
ghost use Rattle.lane_calls.specs.Lines.{HasRoom, call_on, counted_as, past};
ghost use Rattle.lane_calls.specs.Plans.{plan_of};

use crate::calls::PlannedCall;
use jack_types::{Body, Call, Command};

/// What the lines so far say of the calls on later ones: the stage of a `do` line and of a `lane` line, and how many
/// cycles lie before the last segment and up to its end.
#[derive(Clone, Copy)]
pub struct Progress {
    pub dos: u32,
    pub lanes: u32,
    pub before: u32,
    pub behind: u32,
}

/// A planned call.
fn planned(lane: u8, index: u32, command: &Command, stage: u32, asked: u32) -> PlannedCall
    ensures { plan_of result ≡ record { call = record { lane = lane; index = index; command = command.now }; stage = stage; asked = asked } }
{
    let call = Call {
        lane,
        index,
        command: *command,
    };
    PlannedCall { call, stage, asked }
}

impl Progress {
    /// The call on a line, if it has one, under this number.
    pub fn call_on(&self, line: &Body, index: u32) -> Option<PlannedCall>
        requires { HasRoom self.now line.now }
        ensures { option_map plan_of result ≡ option_map (counted_as index) (call_on self.now line.now) }
    {
        match line {
            Body::Do(command) => Some(planned(0, index, command, self.dos, 0)),
            Body::Lane(lane, begun, command) => {
                let asked = self.before + *begun;
                Some(planned(*lane, index, command, self.lanes, asked))
            }
            _ => None,
        }
    }

    /// Goes past a line.
    pub fn pass(&mut self, line: &Body)
        requires { HasRoom self.old line.now }
        ensures { self.new ≡ past self.old line.now }
    {
        match line {
            Body::Run(cycles) | Body::Freewheel(cycles) => self.begin_segment(*cycles),
            _ => {}
        }
    }

    /// Goes past the line of a segment.
    fn begin_segment(&mut self, cycles: u32)
        requires stages { self.old.dos + 2 < 2 ^ 32 }
        requires cycles { self.old.behind + cycles < 2 ^ 32 }
        ensures { self.new ≡ record { dos = self.old.dos + 2; lanes = self.old.dos + 1; before = self.old.behind; behind = self.old.behind + cycles } }
    {
        self.lanes = self.dos + 1;
        self.dos += 2;
        self.before = self.behind;
        self.behind += cycles;
    }
}

//! The planned calls, lane by lane.

ghost use Rattle.std.specs.Prelude.{◌≡◌, ◌≤◌, ◌++◌, ◌∷◌, IfOk, OnOk, [], map, slice_get, slice_index_or};
ghost use Rattle.std.specs.Option.{option_map};
ghost use Rattle.session_model.specs.Samples.{below};
ghost use Rattle.session_model.specs.Scripts.{planned_of};
ghost use Rattle.lane_calls.specs.Plans.{plan_of};

use crate::progress::Progress;
use jack_types::{Call, Memory};
use session_script::Script;
use std::alloc::{AllocError, Global};
use std::marker::Model;

const LANES: u8 = 5;

/// A call of a script, with when it is made.
#[derive(Clone, Copy, PartialEq, Eq)]
pub struct PlannedCall {
    pub call: Call,
    /// It is made behind all calls of lower stages.
    pub stage: u32,
    /// So many cycles must have begun.
    pub asked: u32,
}

/// The calls of lanes 0 to 4, each lane's in the order of their lines.
///
/// Contracts see the five lists.
#[derive(Drop)]
pub struct LaneCalls {
    lanes: Vec<Vec<PlannedCall>>,
}

impl Model for LaneCalls {
    ghost use Rattle.std.specs.Prelude.{List, ◌≡◌, map, length};
    ghost use Rattle.session_model.specs.Scripts.{Planned};
    ghost use Rattle.lane_calls.specs.Plans.{plan_of};

    ghost Value = { List (List Planned) };

    ghost view = { λ c. map (λ lane. map plan_of lane.items) c.lanes.items };

    ghost invariant = { λ c. length c.lanes.items ≡ 5 };
}

/// One item more.
fn push_item<T: Drop>(items: &mut Vec<T>, item: T) -> Result<(), AllocError>
    ensures { OnOk result (items.new.items ≡ items.old.items ++ item ∷ []) }
{
    match items.push(item) {
        Ok(()) => Ok(()),
        Err(_) => Err(AllocError),
    }
}

/// The calls of one lane, in the order of their lines.
fn calls_of(alloc: Global, script: &Script, lane: u8) -> Result<Vec<PlannedCall>, AllocError>
    ensures { IfOk result (λ v. map plan_of v.items ≡ planned_of script.now lane) }
{
    let mut calls = Vec::new(alloc);
    let mut progress = Progress {
        dos: 0,
        lanes: 0,
        before: 0,
        behind: 0,
    };
    for line in script.lines() {
        let call = progress.call_on(line, calls.len() as u32 + 1);
        progress.pass(line);
        if let Some(planned) = call {
            if planned.call.lane == lane {
                push_item(&mut calls, planned)?;
            }
        }
    }
    Ok(calls)
}

impl LaneCalls {
    /// The calls of a script.
    pub fn of(alloc: Global, script: &Script) -> Result<LaneCalls, Memory>
        ensures { IfOk result (λ calls. calls ≡ map (planned_of script.now) (below 5)) }
    {
        let mut lanes = Vec::new(alloc);
        for lane in 0..LANES {
            let Ok(calls) = calls_of(alloc, script, lane) else {
                return Err(Memory);
            };
            let Ok(()) = lanes.push(calls) else {
                return Err(Memory);
            };
        }
        Ok(LaneCalls { lanes })
    }

    /// The call of a lane that stands behind so many of its others, if there is one.
    pub fn get(&self, lane: usize, place: usize) -> Option<PlannedCall>
        requires { lane ≤ 4 }
        ensures { option_map plan_of result ≡ slice_get (slice_index_or self.now lane []) place }
    {
        self.lanes[lane].get(place).copied()
    }
}

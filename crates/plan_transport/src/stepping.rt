//! A transport's step to a cycle of a plan.

ghost use Rattle.std.specs.Prelude.{◌≡◌, ◌+◌, ◌<◌, ◌≤◌, ◌^◌, All, drop};
ghost use Rattle.session_model.specs.Transport.{active_master, next_row, shown, slow_numbers, timeout_of};
ghost use Rattle.transport.specs.Standings.{HasTarget, with_targets};
ghost use Rattle.task_laws.specs.cycle_plan.specs.Plans.{state_of_plan};
ghost use Rattle.plan_transport.specs.Rows.{row_by};

use crate::adopting::adopted_from;
use crate::slowness::read_slow;
use crate::transports::PlanTransport;
use jack_types::Moment;
use task_laws::cycle_plan::Plan;

/// Steps a transport to a cycle of a plan, and answers what it shows in it. It takes no memory.
///
/// The cycle before had taken the first `from` of the plan's changes; the others are adopted now, without the locates that
/// are out of their range. Slow clients are waited for as long as the plan's timeout says, by default two seconds of periods.
/// `period` is the cycle's, in frames.
pub fn step_by_plan(transport: &mut PlanTransport, plan: &Plan, from: u32, period: u32) -> Moment
    requires cycles { transport.old.cycles < 1000000 }
    requires frames { transport.old.frames + period ≤ 500000000 }
    requires period { 0 < period }
    ensures rate { transport.new.rate ≡ transport.old.rate }
    ensures cycles { transport.new.cycles ≡ transport.old.cycles + 1 }
    ensures frames { transport.new.frames ≡ transport.old.frames + period }
    ensures row { All HasTarget (drop from plan.now.changes) → transport.new.row ≡ next_row transport.old.row (drop from plan.now.changes) (slow_numbers (state_of_plan plan.now)) (timeout_of (state_of_plan plan.now) transport.old.rate period) period }
    ensures every_row { transport.new.row ≡ row_by plan.now (with_targets (drop from plan.now.changes)) transport.old period }
    ensures moment { result ≡ shown transport.new.cycles transport.new.row transport.old.rate (active_master (state_of_plan plan.now)) }
    ensures bound { result.frame + period < 2 ^ 32 }
    ensures own_rate { result.rate ≡ transport.old.rate }
    ensures least_rate { 8000 ≤ result.rate }
{
    let adopted = adopted_from(plan.changes(), from);
    let nodes = plan.nodes();
    let slow = read_slow(nodes);
    let timeout = plan.timeout();
    let tempo = plan.master();
    transport.step(adopted, &slow[..nodes.len()], timeout, tempo, period)
}

//! The transport's step to a cycle of a plan.
#![tactic(auto)]

mod adopting;
mod laws;
mod slowness;
mod stepping;
mod transports;

pub use laws::calls_have_targets;
pub use stepping::step_by_plan;
pub use task_laws::driver_laws;
pub use transports::PlanTransport;

//! Laws of what the clients of a plan play in a cycle, audio on a stage and events beside it, each as the contract of a
//! function that does nothing.
#![tactic(auto)]

pub mod laws;

pub use stage_laws::owning::a_plan_of_a_scripts_calls_is_not_refused;

//! The works of a driver's cycles: all parts but the file that is played back.
#![tactic(auto)]

mod ends;
mod mixing;
mod opening;
mod parts;
mod turning;
mod works;

pub use cycle_laws::gears::{
    a_cycle_is_a_step, a_cycle_may_be_played, a_cycle_plays_its_own, a_mix_is_played,
};
pub use midi_stage::{driver_laws, script_needs, session_script};
pub use works::Works;

//! Laws of a session's run and of its desk, passed on to the crates over this one.

pub use run_laws::serial::{a_phase_ends, all_phases_end};
pub use serial_laws::control_desk::laws::{accepted_of_legal, goes_on};
pub use serial_laws::cycles::{a_cycle_goes_on, a_phase_begins};
pub use serial_laws::endings::an_end_is_whole;
pub use serial_laws::faults::{a_turn_that_fails_leaves_fronts, an_end_that_fails_leaves_fronts};
pub use serial_laws::openings::{a_serial_run_is_whole, a_session_stands_before_its_first_phase};
pub use serial_laws::parts::{a_turn_leaves_the_parts, desks_leave_the_parts};

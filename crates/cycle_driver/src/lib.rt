//! The driver of a session's cycles, one by one or many by one call.
#![tactic(auto)]

mod cycling;
mod driver;
mod ending;
mod ends;
mod faults;
mod giving;
mod opening;
mod running;
mod writing;

pub use cycle_works::script_needs;
pub use driver::Driver;
pub use ending::end_rings;
pub use faults::CycleFault;
pub use running::run_cycles;

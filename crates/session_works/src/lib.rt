//! The works of a session in either mode: its desk, its driver, its recorders and the readers of its disks, and a cycle with
//! what leaves the recorders' rings and what goes into those of the disks around it.
#![tactic(auto)]

mod cycles;
mod desks;
mod faults;
mod giving;
pub mod laws;
mod limits;
mod meetings;
mod parts;
pub mod passed;
mod reading;
mod works;

pub use cycle_driver::{CycleFault, Driver, end_rings, run_cycles, script_needs};
pub use cycles::cycle;
pub use desks::kept_by_type;
pub use disk_runs::disk_files;
pub use disk_runs::disk_files::DiskReader;
pub use faults::SessionFault;
pub use limits::RingLimits;
pub use meetings::meet;
pub use parts::SessionParts;
pub use reading::{read_ahead, tell_all};
pub use serial_laws::control_desk::Desk;
pub use serial_laws::serial_lanes;
pub use works::SessionWorks;

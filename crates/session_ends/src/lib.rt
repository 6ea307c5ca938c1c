//! How a session is opened, ended and told: its parts are made and its files begun, its files are finished, and it is reported.
#![tactic(auto)]

mod attaching;
mod closing;
mod ending;
mod laws;
mod opening;
mod reading;
mod reporting;
mod taking;

pub use attaching::attach;
pub use ending::end;
pub use opening::open;
pub use reporting::report;
pub use session_works::{Desk, Driver, RingLimits, SessionFault, SessionParts};
pub use taking::{take_disk, take_store};

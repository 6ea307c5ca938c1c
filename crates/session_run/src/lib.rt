//! A session: its phases in serial mode or with threads, its files and its report.
#![tactic(auto)]

mod ending;
mod opening;
mod running;
mod session;

pub use session::Session;
pub use session_ends::SessionFault;

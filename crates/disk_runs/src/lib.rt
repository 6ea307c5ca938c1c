//! Laws of a session's disks: what its readers read between its cycles, what the cycles get and miss, and what the rings
//! have behind them. Each is the contract of a function that does nothing.
#![tactic(auto)]

pub mod cycles;
pub mod readings;
pub mod segments;
pub mod serial;

pub use disk_files;

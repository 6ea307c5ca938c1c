//! The lines of a report, put into a sink.
//!
//! Each call puts whole lines in their order, those of calls and cycles many by one put, and takes no memory.
#![tactic(auto)]

mod batches;
mod calls;
mod cycles;
mod lines;
mod recorders;
mod values;

pub use calls::put_calls;
pub use cycles::put_cycles;
pub use recorders::{put_disk, put_overrun, put_recorder, put_underrun};
pub use values::{put_end, put_event, put_meter, put_title};

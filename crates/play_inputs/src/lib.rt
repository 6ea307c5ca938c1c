//! What a play, or a check of one, is given: its script, its capture and its disk files, read through a host and compared with the
//! names and the guests, and the status of each fault of them.
#![tactic(auto)]

mod captures;
mod comparing;
mod disks;
mod fault_lines;
mod inputs;
mod reading;
mod scripts;
mod status;

pub use fault_lines::{put_fault, put_line};
pub use inputs::{Inputs, open_fitting, open_inputs};
pub use script_words;
pub use scripts::{load_script, script_in};
pub use session_script;
pub use status::{Difference, Status, What};
pub use wave_pcm;

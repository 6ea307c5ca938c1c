//! The lines of a session script, and the words of a line, read from the left without a copy.
#![tactic(auto)]

mod bytes;
mod hexed;
mod lines;
mod numbers;
mod words;

pub use hexed::spelled;
pub use lines::{Line, Lines};
pub use session_model::jack_types;
pub use words::Words;

//! One publisher hands the newest of its plans to one reader, which never waits and copies nothing.
#![tactic(auto)]

mod ends;
mod plans;
mod publisher;
mod reader;
mod steps;
mod view;

pub use ends::{meet, publication};
pub use plans::{Base, Numbered};
pub use publisher::Publisher;
pub use reader::Reader;
pub use session_model::jack_types;
pub use view::{PublisherView, ReaderView, Rules, SeatView, Seen, TakenRow};

//! All client benches of a session, and the spare rooms of their connections and links.
#![tactic(auto)]

mod hearing;
mod linking;
mod playing;
mod racks;
mod reading;
mod setting;

pub use bench_crew;
pub use bench_crew::{client_benches, client_kinds};
pub use racks::Rack;

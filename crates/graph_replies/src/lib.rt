//! The replies of a graph to commands.
#![tactic(auto)]

mod latencies;
mod replies;

pub use latencies::Latencies;
pub use replies::answer;

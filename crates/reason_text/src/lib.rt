//! The text of a reason, which steers no terminal.
#![tactic(auto)]

mod bytes;
mod piece;
mod reason;

pub use piece::Piece;
pub use reason::Reason;

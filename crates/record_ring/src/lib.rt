//! A bounded ring of sample blocks between one thread that puts them and one that gets them.
#![tactic(auto)]

mod block;
mod consumer;
mod ends;
mod producer;
mod steps;
mod view;

pub use block::{Block, Content, Samples};
pub use consumer::{Consumer, Got};
pub use ends::{renew, ring, tell};
pub use producer::{Full, Producer};
pub use view::{ConsumerView, ProducerView, Rules, SeatView, Size};

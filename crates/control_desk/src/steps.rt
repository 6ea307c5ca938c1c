//! What a step answers.

use jack_types::Reply;

/// What a lane's step came to.
#[derive(Clone, Copy, PartialEq, Eq)]
pub enum Stepped {
    /// The lane's next call was made, with this reply.
    Did(Reply),
    /// The lane's next call asks for more cycles than have begun.
    NotYet { asked: u32, seen: u32 },
    /// The lane has no call left in this phase.
    Done,
}

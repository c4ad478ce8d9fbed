//! What came of a datagram or a tick.

use nq_base::Answer;

/// What came of a datagram or a tick.
#[derive(Drop)]
pub enum Reaction {
    /// It was taken in, and answered no call.
    Nothing,
    /// It was taken in, and the call under way has this answer.
    Answered(Answer),
    /// The datagram is nothing to this client, and nothing changed but that it is counted.
    Ignored,
    /// Memory was wanting; nothing changed.
    Memory,
    /// The client has taken in all the calls, datagrams and ticks that it counts.
    Spent,
}

//! How an event was taken.

use nq_xdr::rpc::RpcFault;

/// Why a datagram was dropped.
#[derive(Clone, Copy, PartialEq, Drop)]
pub enum Reason {
    /// It has more than 4400 bytes.
    TooLong,
    /// It is no message of RPC (RFC 1057 section 8).
    Rpc(RpcFault),
    /// It is a reply.
    NotACall,
    /// The host that it names is not its sender, or is none that there can be.
    WrongHost,
    /// A later incarnation of its host is attached.
    OldIncarnation,
    /// What would be kept of it is out of its bounds: an incarnation from 2^31 on, or a sequence or a revision from 2^61 on.
    OutOfBounds,
    /// It is a VACATED whose arguments are not in its grammar: no reply is owed.
    NoReplyOwed,
}

/// How an event was taken.
#[derive(Clone, Copy, PartialEq)]
pub enum Received {
    /// It was taken in.
    Done,
    /// The datagram was dropped.
    Dropped(Reason),
    /// The keeper failed. The server, the outbox and the journal are as before.
    Fault,
    /// Memory was wanting. The server, the outbox and the journal are as before.
    Memory,
    /// No more can be taken in. The server, the outbox and the journal are as before.
    Spent,
}

/// How an event was taken in.
#[derive(Clone, Copy)]
pub(crate) enum EventTaken {
    /// It was answered, or needs no answer.
    Done,
    /// The datagram was dropped.
    Dropped(Reason),
}

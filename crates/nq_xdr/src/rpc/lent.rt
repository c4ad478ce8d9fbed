//! Messages whose arguments or results are lent.

use crate::rpc::CallHead;

/// A message as it stands in a datagram, which lends its arguments or results (RFC 1057 section 8).
#[derive(Clone, Copy)]
pub enum LentMessage<'a> {
    Call(LentCall<'a>),
    Reply(LentReply<'a>),
}

/// A call, without its credential and its verifier.
#[derive(Clone, Copy)]
pub struct LentCall<'a> {
    pub head: CallHead,
    /// The version of RPC, which is 2 in a call that can be served.
    pub rpcvers: u32,
    /// Whatever stands behind the verifier.
    pub arguments: &'a [u8],
}

/// A reply, without its verifier.
#[derive(Clone, Copy)]
pub struct LentReply<'a> {
    /// That of the call.
    pub xid: u32,
    pub outcome: LentOutcome<'a>,
}

/// What became of a call, as an `Outcome` tells it.
#[derive(Clone, Copy)]
pub enum LentOutcome<'a> {
    /// The call was executed, with these results.
    Success(&'a [u8]),
    ProgUnavail,
    ProgMismatch { low: u32, high: u32 },
    ProcUnavail,
    GarbageArgs,
    RpcMismatch { low: u32, high: u32 },
    AuthError(u32),
}

//! Messages (RFC 1057 section 8).

use crate::rpc::Bytes;

/// What a call asks for, and the number by which its reply is known (RFC 1057 section 8).
#[derive(Clone, Copy)]
pub struct CallHead {
    /// The transaction identifier, which the reply repeats.
    pub xid: u32,
    pub prog: u32,
    pub vers: u32,
    pub procedure: u32,
}

/// An RPC message (RFC 1057 section 8).
#[derive(Drop)]
pub enum Message {
    Call(CallMessage),
    Reply(ReplyMessage),
}

/// A call, without its credential and its verifier.
#[derive(Drop)]
pub struct CallMessage {
    pub head: CallHead,
    /// The version of RPC, which is 2 in a call that can be served.
    pub rpcvers: u32,
    /// Whatever stands behind the verifier.
    pub arguments: Bytes,
}

/// A reply, without its verifier.
#[derive(Drop)]
pub struct ReplyMessage {
    /// That of the call.
    pub xid: u32,
    pub outcome: Outcome,
}

/// What became of a call: the first five are accepted replies, the last two denied ones.
#[derive(Drop)]
pub enum Outcome {
    /// The call was executed, with these results.
    Success(Bytes),
    /// The program is not served here.
    ProgUnavail,
    /// The program is served in the versions from `low` to `high` alone.
    ProgMismatch { low: u32, high: u32 },
    /// The program has no such procedure.
    ProcUnavail,
    /// The arguments are not in the procedure's grammar.
    GarbageArgs,
    /// RPC is served in the versions from `low` to `high` alone.
    RpcMismatch { low: u32, high: u32 },
    /// The caller was not believed, for the reason of this `auth_stat`, which may be any number.
    AuthError(u32),
}

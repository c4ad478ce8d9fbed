//! Messages as datagrams.

ghost use Rattle.std.specs.Prelude.{◌≡◌, ◌≤◌, IfOk, OnOk};
ghost use Rattle.nq_model.specs.protocol.Message.{call, reply as reply_to, error};
ghost use Rattle.nq_datagrams.specs.Messages.{FitsMessage, bytes_of, error_outcome};
ghost use Rattle.nq_datagrams.specs.Told.{told_error};
ghost use Rattle.nq_wire.specs.Reply.{results_len};
ghost use Rattle.nq_wire.specs.Request.{HasSpelling};

use crate::numbers::{RPC_VERSION, VERSION};
use crate::to_bytes::head_of;
use nq_base::{Reply, Request};
use nq_wire::{encode_reply_into, encode_request_into};
use nq_xdr::Writer;
use nq_xdr::rpc::{Message, NoMemory, Outcome, ReplyMessage, begin_call, begin_reply, encode};
use std::alloc::Global;
use std::marker::Model;

/// The replies of RPC that bring no result (RFC 1057 section 8).
#[derive(Clone, Copy)]
pub enum ErrorReply {
    /// The call is of another version of RPC.
    RpcMismatch,
    /// It is of another program.
    ProgramUnavailable,
    /// It is of another version of the program.
    ProgramMismatch,
    /// It is of no procedure that is served.
    ProcedureUnavailable,
    /// Its arguments are outside their grammar.
    GarbageArguments,
}

/// The datagram of a call.
#[tactic(auto, unfolding(crate::specs::Messages::bytes_of))]
pub fn call_bytes(alloc: Global, xid: u32, request: &Request) -> Result<Vec<u8>, NoMemory>
    requires { HasSpelling request.now }
    ensures written { IfOk result (λ v. v.items ≡ bytes_of (call xid request.now)) }
    ensures fits { OnOk result (FitsMessage (call xid request.now)) }
{
    let mut out = Writer::behind(Vec::new(alloc));
    begin_call(&head_of(xid, request), &mut out)?;
    encode_request_into(request, &mut out)?;
    Ok(out.into_bytes())
}

/// How many bytes of a reply stand before its results.
const REPLY_HEAD: usize = 24;

/// The most bytes of results that have no block. Where they are reserved at once, memory is taken once.
const SHORT_RESULTS: usize = 56;

/// The datagram of a reply. It is inlined, so that a caller's reply that has no block needs no room for one.
#[inline(always)]
#[tactic(auto, unfolding(crate::specs::Messages::bytes_of))]
pub fn reply_bytes(alloc: Global, xid: u32, reply: &Reply) -> Result<Vec<u8>, NoMemory>
    ensures written { IfOk result (λ v. v.items ≡ bytes_of (reply_to xid reply.now)) }
    ensures fits { OnOk result (FitsMessage (reply_to xid reply.now)) }
{
    let mut out = Writer::behind(Vec::new(alloc));
    out.reserve(REPLY_HEAD + SHORT_RESULTS)?;
    begin_reply(xid, &mut out).unwrap();
    encode_reply_into(reply, &mut out)?;
    Ok(out.into_bytes())
}

/// What a reply without a result says: a mismatch names the one version that is served.
fn outcome_of(error: ErrorReply) -> Outcome
    ensures { result ≡ error_outcome (told_error error) }
{
    match error {
        ErrorReply::RpcMismatch => Outcome::RpcMismatch {
            low: RPC_VERSION,
            high: RPC_VERSION,
        },
        ErrorReply::ProgramUnavailable => Outcome::ProgUnavail,
        ErrorReply::ProgramMismatch => Outcome::ProgMismatch {
            low: VERSION,
            high: VERSION,
        },
        ErrorReply::ProcedureUnavailable => Outcome::ProcUnavail,
        ErrorReply::GarbageArguments => Outcome::GarbageArgs,
    }
}

/// The datagram of a reply without a result.
#[tactic(auto, unfolding(crate::specs::Messages::bytes_of))]
pub fn error_bytes(alloc: Global, xid: u32, said: ErrorReply) -> Result<Vec<u8>, NoMemory>
    ensures written { IfOk result (λ v. v.items ≡ bytes_of (error xid (told_error said))) }
    ensures fits { OnOk result (FitsMessage (error xid (told_error said))) }
{
    let outcome = outcome_of(said);
    encode(alloc, &Message::Reply(ReplyMessage { xid, outcome }))
}

/// The datagram of a reply of which only the results are missing. Contracts see the number of the call, and for how many
/// bytes of results there is room.
#[derive(Drop)]
pub struct BegunReply {
    xid: u32,
    out: Writer,
}

impl Model for BegunReply {
    ghost use Rattle.std.specs.Prelude.{◌≡◌, List, ℕ, ◌++◌};
    ghost use Rattle.nq_datagrams.specs.Sent.{Begun};
    ghost use Rattle.nq_xdr.specs.Message.{spelling, reply_with, null};

    ghost Value = { Begun };

    ghost view = { λ b. record { xid = b.xid; room = b.out.spare } };

    ghost invariant = { λ b. (results : List ℕ) → b.out.bytes ++ results ≡ spelling (reply_with b.xid results) null null };
}

impl BegunReply {
    /// Begins the reply to the call of this number, with room for so many bytes of results.
    pub fn new(alloc: Global, xid: u32, room: usize) -> Result<BegunReply, NoMemory>
        ensures { IfOk result (λ b. (b.xid ≡ xid) × (room ≤ b.room)) }
    {
        let Some(whole) = room.checked_add(REPLY_HEAD) else {
            return Err(NoMemory::Memory);
        };
        let mut out = Writer::behind(Vec::new(alloc));
        out.reserve(whole)?;
        begin_reply(xid, &mut out).unwrap();
        Ok(BegunReply { xid, out })
    }

    /// Writes the results, for which there is room, and gives the datagram. It takes no memory. It is inlined, so that a caller's
    /// reply that has no block needs no room for one.
    #[inline(always)]
    #[tactic(auto, unfolding(crate::specs::Messages::bytes_of))]
    pub fn end(self, reply: &Reply) -> Vec<u8>
        requires { results_len reply.now ≤ self.room }
        ensures written { result.items ≡ bytes_of (reply_to self.xid reply.now) }
        ensures fits { FitsMessage (reply_to self.xid reply.now) }
    {
        let BegunReply { xid: _, mut out } = self;
        encode_reply_into(reply, &mut out).unwrap();
        out.into_bytes()
    }
}

//! Writing messages.

ghost use Rattle.std.specs.Prelude.{◌≡◌, ℕ, List, ◌+◌, ◌≤◌, ◌++◌, IfOk, IsOk, OnOk, OnErr};
ghost use Rattle.nq_xdr.specs.Item.{word};
ghost use Rattle.nq_xdr.specs.declared.rpc.message.Message.TheVariants.{Call};
ghost use Rattle.nq_xdr.specs.Message.{auth, null, outcome, spelling, call_with, reply_with, outcome_len, spelling_len};

use crate::Writer;
use crate::rpc::{CallHead, Message, NoMemory, Outcome, number};
use std::alloc::Global;

/// The version of RPC (RFC 1057 section 8).
const RPC_VERSION: u32 = 2;

/// The flavor of AUTH_NULL (RFC 1057 section 9.1).
const AUTH_NULL: u32 = 0;

/// How many bytes the message takes.
fn message_len(message: &Message) -> usize
    ensures { result ≡ spelling_len message.now }
{
    match message {
        Message::Call(call) => 40 + call.arguments.as_bytes().len(),
        Message::Reply(reply) => match &reply.outcome {
            Outcome::Success(results) => 24 + results.as_bytes().len(),
            Outcome::ProgMismatch { .. } => 32,
            Outcome::ProgUnavail
            | Outcome::ProcUnavail
            | Outcome::GarbageArgs
            | Outcome::RpcMismatch { .. } => 24,
            Outcome::AuthError(_) => 20,
        },
    }
}

/// Writes AUTH_NULL.
#[tactic(auto, unfolding(crate::specs::Message::auth))]
fn put_auth(out: &mut Writer)
    requires { 8 ≤ out.old.spare }
    ensures written { out.new.bytes ≡ out.old.bytes ++ auth null }
    ensures spare { out.old.spare ≤ out.new.spare + 8 }
{
    out.put_u32(AUTH_NULL);
    out.put_opaque(&[]);
}

fn put_bounds(low: u32, high: u32, out: &mut Writer)
    requires { 8 ≤ out.old.spare }
    ensures written { out.new.bytes ≡ out.old.bytes ++ word low ++ word high }
    ensures spare { out.old.spare ≤ out.new.spare + 8 }
{
    out.put_u32(low);
    out.put_u32(high);
}

/// Writes what stands before the arguments of a call. There is room.
#[tactic(auto, unfolding(crate::specs::Message::numbers, crate::specs::Message::spelling))]
fn put_head(head: &CallHead, rpcvers: u32, out: &mut Writer)
    requires { 40 ≤ out.old.spare }
    ensures written { (arguments : List ℕ)
        → out.new.bytes ++ arguments ≡ out.old.bytes ++ spelling (Call (record { head = head.now; rpcvers = rpcvers; arguments = arguments })) null null }
    ensures spare { out.old.spare ≤ out.new.spare + 40 }
{
    out.put_u32(head.xid);
    out.put_u32(number::CALL);
    out.put_u32(rpcvers);
    out.put_u32(head.prog);
    out.put_u32(head.vers);
    out.put_u32(head.procedure);
    put_auth(out);
    put_auth(out);
}

/// Begins an accepted reply.
fn put_accepted(stat: u32, out: &mut Writer)
    requires { 16 ≤ out.old.spare }
    ensures written { out.new.bytes ≡ out.old.bytes ++ (word 0 ++ auth null ++ word stat) }
    ensures spare { out.old.spare ≤ out.new.spare + 16 }
{
    out.put_u32(number::MSG_ACCEPTED);
    put_auth(out);
    out.put_u32(stat);
}

/// Begins a denied reply.
fn put_denied(stat: u32, out: &mut Writer)
    requires { 8 ≤ out.old.spare }
    ensures written { out.new.bytes ≡ out.old.bytes ++ (word 1 ++ word stat) }
    ensures spare { out.old.spare ≤ out.new.spare + 8 }
{
    out.put_u32(number::MSG_DENIED);
    out.put_u32(stat);
}

#[tactic(auto, unfolding(crate::specs::Message::outcome))]
fn put_outcome(reply: &Outcome, out: &mut Writer)
    requires { outcome_len reply.now ≤ out.old.spare }
    ensures written { out.new.bytes ≡ out.old.bytes ++ outcome reply.now null }
    ensures spare { out.old.spare ≤ out.new.spare + outcome_len reply.now }
{
    match reply {
        Outcome::Success(results) => {
            put_accepted(number::SUCCESS, out);
            out.put_bytes(results.as_bytes());
        }
        Outcome::ProgUnavail => put_accepted(number::PROG_UNAVAIL, out),
        Outcome::ProgMismatch { low, high } => {
            put_accepted(number::PROG_MISMATCH, out);
            put_bounds(*low, *high, out);
        }
        Outcome::ProcUnavail => put_accepted(number::PROC_UNAVAIL, out),
        Outcome::GarbageArgs => put_accepted(number::GARBAGE_ARGS, out),
        Outcome::RpcMismatch { low, high } => {
            put_denied(number::RPC_MISMATCH, out);
            put_bounds(*low, *high, out);
        }
        Outcome::AuthError(stat) => {
            put_denied(number::AUTH_ERROR, out);
            out.put_u32(*stat);
        }
    }
}

/// Writes a message. There is room.
#[tactic(auto, unfolding(crate::specs::Message::spelling))]
fn put_message(message: &Message, out: &mut Writer)
    requires { spelling_len message.now ≤ out.old.spare }
    ensures written { out.new.bytes ≡ out.old.bytes ++ spelling message.now null null }
    ensures spare { out.old.spare ≤ out.new.spare + spelling_len message.now }
{
    match message {
        Message::Call(call) => {
            put_head(&call.head, call.rpcvers, out);
            out.put_bytes(call.arguments.as_bytes());
        }
        Message::Reply(reply) => {
            out.put_u32(reply.xid);
            out.put_u32(number::REPLY);
            put_outcome(&reply.outcome, out);
        }
    }
}

/// Begins a call of RPC version 2 behind what `out` holds: whatever is written behind it are its arguments, which so are
/// copied once. Memory is wanted only where `out` has too little room.
pub fn begin_call(head: &CallHead, out: &mut Writer) -> Result<(), NoMemory>
    ensures written { OnOk result ((arguments : List ℕ)
        → out.new.bytes ++ arguments ≡ out.old.bytes ++ spelling (call_with head.now arguments) null null) }
    ensures refused { OnErr result (out.new ≡ out.old) }
    ensures succeeds { 40 ≤ out.old.spare → IsOk result }
    ensures spare { out.old.spare ≤ out.new.spare + 40 }
{
    out.reserve(40)?;
    put_head(head, RPC_VERSION, out);
    Ok(())
}

/// Begins a reply with results behind what `out` holds: whatever is written behind it are its results, which so are copied
/// once. Memory is wanted only where `out` has too little room.
#[tactic(auto, unfolding(crate::specs::Message::spelling, crate::specs::Message::outcome))]
pub fn begin_reply(xid: u32, out: &mut Writer) -> Result<(), NoMemory>
    ensures written { OnOk result ((results : List ℕ)
        → out.new.bytes ++ results ≡ out.old.bytes ++ spelling (reply_with xid results) null null) }
    ensures refused { OnErr result (out.new ≡ out.old) }
    ensures succeeds { 24 ≤ out.old.spare → IsOk result }
    ensures spare { out.old.spare ≤ out.new.spare + 24 }
{
    out.reserve(24)?;
    out.put_u32(xid);
    out.put_u32(number::REPLY);
    put_accepted(number::SUCCESS, out);
    Ok(())
}

/// Writes the message behind what `out` holds, with AUTH_NULL for its credential and its verifier
/// (RFC 1057 section 8). Memory is wanted only where `out` has too little room.
pub fn encode_into(message: &Message, out: &mut Writer) -> Result<(), NoMemory>
    ensures written { OnOk result (out.new.bytes ≡ out.old.bytes ++ spelling message.now null null) }
    ensures refused { OnErr result (out.new ≡ out.old) }
    ensures succeeds { spelling_len message.now ≤ out.old.spare → IsOk result }
    ensures spare { out.old.spare ≤ out.new.spare + spelling_len message.now }
{
    out.reserve(message_len(message))?;
    put_message(message, out);
    Ok(())
}

/// The bytes of the message, with AUTH_NULL for its credential and its verifier (RFC 1057 section 8).
pub fn encode(alloc: Global, message: &Message) -> Result<Vec<u8>, NoMemory>
    ensures { IfOk result (λ v. v.items ≡ spelling message.now null null) }
{
    let mut out = Writer::new(alloc)?;
    encode_into(message, &mut out)?;
    Ok(out.into_bytes())
}

//! Reading messages.

ghost use Rattle.std.specs.Prelude.{◌≡◌, ◌⊎◌, ℕ, List, IfOk, IsOkAnd, IfErr};
ghost use Rattle.nq_xdr.specs.declared.rpc.fault.RpcFault.{RpcFault};
ghost use Rattle.nq_xdr.specs.declared.rpc.message.Message.{Message};
ghost use Rattle.nq_xdr.specs.Lent.{lent_message, lent_outcome};
ghost use Rattle.nq_xdr.specs.Message.{IsSpelled};
ghost use Rattle.nq_xdr.specs.RpcFault.{IsMessageFault, IsDecodeFault};
ghost use Rattle.nq_xdr.specs.Reading.{Gives};
ghost use Rattle.nq_xdr.specs.RpcReading.{Decodes, behind_auth, call_at, ended, bounds_at, accepted_as, accepted_at, denied_as, denied_at, outcome_at};
ghost use Rattle.nq_xdr.specs.RpcReading.{reply_at, message_at};

use crate::Reader;
use crate::rpc::{
    Bytes, CallHead, CallMessage, LentCall, LentMessage, LentOutcome, LentReply, Message, Outcome,
    ReplyMessage, RpcFault, number,
};
use std::alloc::Global;

/// The longest body of a credential or a verifier, in bytes (RFC 1057 section 7.2).
const LONGEST_AUTH: u32 = 400;

/// Passes over a credential or a verifier.
#[tactic(auto, unfolding(crate::specs::RpcReading::behind_auth))]
fn auth(reader: &mut Reader) -> Result<(), RpcFault>
    ensures { Gives (λ _. reader.new) result (behind_auth reader.old) }
{
    reader.u32()?;
    reader.opaque(LONGEST_AUTH)?;
    Ok(())
}

#[tactic(auto, unfolding(crate::specs::RpcReading::bounds_at))]
fn bounds(reader: &mut Reader) -> Result<(u32, u32), RpcFault>
    ensures { Gives (λ b. (b.0, b.1, reader.new)) result (bounds_at reader.old) }
{
    let low = reader.u32()?;
    let high = reader.u32()?;
    Ok((low, high))
}

/// An error reply, which ends here.
#[tactic(auto, unfolding(crate::specs::RpcReading::ended))]
fn ended<'a>(outcome: LentOutcome<'a>, reader: Reader<'a>) -> Result<LentOutcome<'a>, RpcFault>
    ensures { Gives lent_outcome result (ended (lent_outcome outcome.entry) reader.entry) }
{
    reader.end()?;
    Ok(outcome)
}

#[tactic(auto, unfolding(crate::specs::RpcReading::accepted_as))]
fn accepted_as(stat: u32, mut reader: Reader<'_>) -> Result<LentOutcome<'_>, RpcFault>
    ensures { Gives lent_outcome result (accepted_as stat reader.entry) }
{
    match stat {
        number::SUCCESS => Ok(LentOutcome::Success(reader.rest())),
        number::PROG_UNAVAIL => ended(LentOutcome::ProgUnavail, reader),
        number::PROG_MISMATCH => {
            let (low, high) = bounds(&mut reader)?;
            ended(LentOutcome::ProgMismatch { low, high }, reader)
        }
        number::PROC_UNAVAIL => ended(LentOutcome::ProcUnavail, reader),
        number::GARBAGE_ARGS => ended(LentOutcome::GarbageArgs, reader),
        _ => Err(RpcFault::BadKind),
    }
}

#[tactic(auto, unfolding(crate::specs::RpcReading::accepted_at))]
fn accepted(mut reader: Reader<'_>) -> Result<LentOutcome<'_>, RpcFault>
    ensures { Gives lent_outcome result (accepted_at reader.entry) }
{
    auth(&mut reader)?;
    let stat = reader.u32()?;
    accepted_as(stat, reader)
}

#[tactic(auto, unfolding(crate::specs::RpcReading::denied_as))]
fn denied_as(stat: u32, mut reader: Reader<'_>) -> Result<LentOutcome<'_>, RpcFault>
    ensures { Gives lent_outcome result (denied_as stat reader.entry) }
{
    match stat {
        number::RPC_MISMATCH => {
            let (low, high) = bounds(&mut reader)?;
            ended(LentOutcome::RpcMismatch { low, high }, reader)
        }
        number::AUTH_ERROR => {
            let stat = reader.u32()?;
            ended(LentOutcome::AuthError(stat), reader)
        }
        _ => Err(RpcFault::BadKind),
    }
}

#[tactic(auto, unfolding(crate::specs::RpcReading::denied_at))]
fn denied(mut reader: Reader<'_>) -> Result<LentOutcome<'_>, RpcFault>
    ensures { Gives lent_outcome result (denied_at reader.entry) }
{
    let stat = reader.u32()?;
    denied_as(stat, reader)
}

#[tactic(auto, unfolding(crate::specs::RpcReading::outcome_at))]
fn outcome(mut reader: Reader<'_>) -> Result<LentOutcome<'_>, RpcFault>
    ensures { Gives lent_outcome result (outcome_at reader.entry) }
{
    match reader.u32()? {
        number::MSG_ACCEPTED => accepted(reader),
        number::MSG_DENIED => denied(reader),
        _ => Err(RpcFault::BadKind),
    }
}

#[tactic(auto, unfolding(crate::specs::RpcReading::reply_at))]
fn reply(xid: u32, reader: Reader<'_>) -> Result<LentMessage<'_>, RpcFault>
    ensures { Gives lent_message result (reply_at xid reader.entry) }
{
    let outcome = outcome(reader)?;
    Ok(LentMessage::Reply(LentReply { xid, outcome }))
}

#[tactic(auto, unfolding(crate::specs::RpcReading::call_at))]
fn call(xid: u32, mut reader: Reader<'_>) -> Result<LentMessage<'_>, RpcFault>
    ensures { Gives lent_message result (call_at xid reader.entry) }
{
    let rpcvers = reader.u32()?;
    let prog = reader.u32()?;
    let vers = reader.u32()?;
    let procedure = reader.u32()?;
    auth(&mut reader)?;
    auth(&mut reader)?;
    Ok(LentMessage::Call(LentCall {
        head: CallHead {
            xid,
            prog,
            vers,
            procedure,
        },
        rpcvers,
        arguments: reader.rest(),
    }))
}

#[tactic(auto, unfolding(crate::specs::RpcReading::message_at))]
fn message(bytes: &[u8]) -> Result<LentMessage<'_>, RpcFault>
    ensures { Gives lent_message result (message_at bytes.now) }
{
    let mut reader = Reader::new(bytes);
    let xid = reader.u32()?;
    match reader.u32()? {
        number::CALL => call(xid, reader),
        number::REPLY => reply(xid, reader),
        _ => Err(RpcFault::BadKind),
    }
}

/// Reads a message, which is all of the bytes (RFC 1057 section 8), and lends its arguments or results. Its
/// credential and its verifier may be of any flavor and are ignored. It takes no memory.
///
/// # Errors
///
/// The first fault in the order of the bytes.
pub fn decode_in_place(bytes: &[u8]) -> Result<LentMessage<'_>, RpcFault>
    // What is read is spelled so, and what is spelled so is read.
    ensures found { IfOk result (λ m. IsSpelled (lent_message m) bytes.now) }
    ensures only { (m : Message) → IsSpelled m bytes.now → IsOkAnd result (λ lent. lent_message lent ≡ m) }

    // A fault is in the bytes, and a fault in the bytes is given.
    ensures fault { IfErr result (IsMessageFault bytes.now) }
    ensures only_fault { (e : RpcFault) → IsMessageFault bytes.now e → result ≡ Err e }

    // All of it, as reading from the left.
    ensures step { Gives lent_message result (message_at bytes.now) }
{
    message(bytes)
}

/// The message, with its arguments or results copied.
fn copied(alloc: Global, lent: LentMessage<'_>) -> Result<Message, RpcFault>
    ensures ok { IfOk result (λ m. m ≡ lent_message lent.entry) }
    ensures memory { IfErr result (λ e. e ≡ RpcFault.Memory) }
{
    match lent {
        LentMessage::Call(call) => Ok(Message::Call(CallMessage {
            head: call.head,
            rpcvers: call.rpcvers,
            arguments: Bytes::new(Vec::from_slice(alloc, call.arguments)?),
        })),
        LentMessage::Reply(LentReply { xid, outcome }) => Ok(Message::Reply(ReplyMessage {
            xid,
            outcome: copied_outcome(alloc, outcome)?,
        })),
    }
}

/// What became of a call, with its results copied.
fn copied_outcome(alloc: Global, lent: LentOutcome<'_>) -> Result<Outcome, RpcFault>
    ensures ok { IfOk result (λ o. o ≡ lent_outcome lent.entry) }
    ensures memory { IfErr result (λ e. e ≡ RpcFault.Memory) }
{
    Ok(match lent {
        LentOutcome::Success(results) => {
            Outcome::Success(Bytes::new(Vec::from_slice(alloc, results)?))
        }
        LentOutcome::ProgUnavail => Outcome::ProgUnavail,
        LentOutcome::ProgMismatch { low, high } => Outcome::ProgMismatch { low, high },
        LentOutcome::ProcUnavail => Outcome::ProcUnavail,
        LentOutcome::GarbageArgs => Outcome::GarbageArgs,
        LentOutcome::RpcMismatch { low, high } => Outcome::RpcMismatch { low, high },
        LentOutcome::AuthError(stat) => Outcome::AuthError(stat),
    })
}

/// The message, with its arguments or results copied, or the first fault.
fn message_copied(alloc: Global, bytes: &[u8]) -> Result<Message, RpcFault>
    ensures { Decodes result (message_at bytes.now) }
{
    copied(alloc, message(bytes)?)
}

/// Reads a message, which is all of the bytes (RFC 1057 section 8). Its credential and its verifier may
/// be of any flavor and are ignored. The arguments or results are copied once.
///
/// # Errors
///
/// The first fault in the order of the bytes; or `Memory`, where the bytes are a message.
pub fn decode(alloc: Global, bytes: &[u8]) -> Result<Message, RpcFault>
    // What is read is spelled so, and what is spelled so is read, unless memory is refused.
    ensures found { IfOk result (λ m. IsSpelled m bytes.now) }
    ensures only { (m : Message) → IsSpelled m bytes.now → (result ≡ Ok m) ⊎ (result ≡ Err RpcFault.Memory) }

    // A fault is in the bytes, and a fault in the bytes is given. Memory is wanted for a message alone.
    ensures fault { IfErr result (IsDecodeFault bytes.now) }
    ensures only_fault { (e : RpcFault) → IsMessageFault bytes.now e → result ≡ Err e }

    // All of it, as reading from the left.
    ensures step { Decodes result (message_at bytes.now) }
{
    message_copied(alloc, bytes)
}

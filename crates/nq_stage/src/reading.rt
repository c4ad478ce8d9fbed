//! Reading messages. Nothing here takes memory.

ghost use Rattle.std.specs.Prelude.{◌≡◌, length, option_copied, IfOk, IfSome};
ghost use Rattle.nq_xdr.specs.Lent.{lent_message, lent_outcome};
ghost use Rattle.nq_stage.specs.Lent.{lent_call, lent_stage, lent_stages};
ghost use Rattle.nq_stage.specs.Reading.{base_at, body_at, call_as, call_in, commit_at, commit_in, end_at, front_at, is_unstaged_in, pushed_of, push_at};
ghost use Rattle.nq_stage.specs.Reading.{push_in, results_in, results_of, stage_at, stage_in, staged_at, unstaged_at, verifier_in, written_at};
ghost use Rattle.nq_xdr.specs.Reading.{Gives};

use crate::messages::{
    COMMIT_PROCEDURE, Commit, LentStage, Pushed, STAGE_PROCEDURE, UNSTAGED_STATUS, Written,
};
use nq_base::{Block, BlockNo, FileId, Host, Inc, Number, PushBase, Rev, Seq, Who};
use nq_datagrams::{PROGRAM, RPC_VERSION, VERSION};
use nq_xdr::rpc::{LentCall, LentMessage, LentOutcome, LentReply, decode_in_place};
use nq_xdr::{Reader, XdrFault};

/// The procedure WRITE.
const WRITE: u32 = 6;

/// A call of a procedure as it stands in a datagram.
#[derive(Clone, Copy)]
struct ProcedureCall<'a> {
    xid: u32,
    arguments: &'a [u8],
}

/// What a push and its COMMIT begin with.
#[derive(Clone, Copy)]
struct Front {
    who: Who,
    seq: Seq,
    file: FileId,
    block: BlockNo,
    first: Number,
    last: Number,
}

/// The STAGE that a datagram is; None where it is none.
#[tactic(auto, unfolding(crate::specs::Reading::stage_in))]
pub fn read_stage(datagram: &[u8]) -> Option<LentStage<'_>>
    ensures stage { lent_stages result ≡ stage_in datagram.now }
    ensures body { IfSome result (λ s. length s.body.now ≡ 4096) }
{
    let call = call_of(STAGE_PROCEDURE, datagram)?;
    match stage_of(call) {
        Ok(stage) => Some(stage),
        Err(_) => None,
    }
}

/// The COMMIT that a datagram is; None where it is none.
#[tactic(auto, unfolding(crate::specs::Reading::commit_in))]
pub fn read_commit(datagram: &[u8]) -> Option<Commit>
    ensures { result ≡ commit_in datagram.now }
{
    let call = call_of(COMMIT_PROCEDURE, datagram)?;
    match commit_of(call) {
        Ok(commit) => Some(commit),
        Err(_) => None,
    }
}

/// The push that a datagram is, without its body; None where it is none. A WRITE that goes through is no push.
#[tactic(auto, unfolding(crate::specs::Reading::push_in))]
pub fn read_push(datagram: &[u8]) -> Option<Pushed>
    ensures { result ≡ push_in datagram.now }
{
    let call = call_of(WRITE, datagram)?;
    match push_of(call) {
        Ok(pushed) => Some(pushed),
        Err(_) => None,
    }
}

/// The verifier that a datagram brings as the reply to the STAGE of this number and incarnation; None where it is no such
/// reply.
#[tactic(auto, unfolding(crate::specs::Reading::verifier_in))]
pub fn read_verifier(xid: u32, inc: u32, datagram: &[u8]) -> Option<u32>
    ensures { result ≡ verifier_in xid inc datagram.now }
{
    let results = results_of(xid, datagram)?;
    match staged_of(results) {
        Ok((of, status, verifier)) if of == inc && status == 0 => Some(verifier),
        _ => None,
    }
}

/// Whether a datagram is the reply UNSTAGED to the COMMIT of this number and incarnation.
#[tactic(auto, unfolding(crate::specs::Reading::is_unstaged_in))]
pub fn is_unstaged(xid: u32, inc: u32, datagram: &[u8]) -> bool
    ensures { result ≡ is_unstaged_in xid inc datagram.now }
{
    let Some(results) = results_of(xid, datagram) else {
        return false;
    };
    match unstaged_of(results) {
        Ok((of, status)) => of == inc && status == UNSTAGED_STATUS,
        Err(_) => false,
    }
}

/// The call of a procedure of the program that a datagram is.
#[tactic(auto, unfolding(crate::specs::Reading::call_in))]
fn call_of(procedure: u32, datagram: &[u8]) -> Option<ProcedureCall<'_>>
    ensures { lent_call result ≡ call_in procedure datagram.now }
{
    let message = match decode_in_place(datagram) {
        Err(_) => return None,
        Ok(message) => message,
    };
    match message {
        LentMessage::Reply(_) => None,
        LentMessage::Call(call) => called(procedure, call),
    }
}

/// A call, where it is of this procedure.
#[tactic(auto, unfolding(crate::specs::Reading::call_as))]
fn called(procedure: u32, call: LentCall<'_>) -> Option<ProcedureCall<'_>>
    ensures { lent_call result ≡ call_as procedure (record { head = call.entry.head; rpcvers = call.entry.rpcvers; arguments = call.entry.arguments.now }) }
{
    let LentCall {
        head,
        rpcvers,
        arguments,
    } = call;
    if rpcvers != RPC_VERSION
        || head.prog != PROGRAM
        || head.vers != VERSION
        || head.procedure != procedure
    {
        return None;
    }
    Some(ProcedureCall {
        xid: head.xid,
        arguments,
    })
}

/// The results that a datagram brings as the reply to the call of this number.
#[tactic(auto, unfolding(crate::specs::Reading::results_in))]
fn results_of(xid: u32, datagram: &[u8]) -> Option<&[u8]>
    ensures { option_copied result ≡ results_in xid datagram.now }
{
    let message = match decode_in_place(datagram) {
        Err(_) => return None,
        Ok(message) => message,
    };
    match message {
        LentMessage::Call(_) => None,
        LentMessage::Reply(LentReply { xid: of, outcome }) => successful(xid, of, outcome),
    }
}

/// The results of a reply to the call of number `of`, where that is the awaited one.
#[tactic(auto, unfolding(crate::specs::Reading::results_of))]
fn successful(xid: u32, of: u32, outcome: LentOutcome<'_>) -> Option<&[u8]>
    ensures { option_copied result ≡ results_of xid of (lent_outcome outcome.entry) }
{
    match outcome {
        LentOutcome::Success(results) if of == xid => Some(results),
        _ => None,
    }
}

/// Ends the reading.
#[tactic(auto, unfolding(crate::specs::Reading::end_at))]
fn end(reader: Reader) -> Result<(), XdrFault>
    ensures { Gives (λ done. done) result (end_at reader.entry) }
{
    reader.end()?;
    Ok(())
}

/// Which write a body is of.
#[tactic(auto, unfolding(crate::specs::Reading::written_at))]
fn written(reader: &mut Reader) -> Result<Written, XdrFault>
    ensures { Gives (λ w. (w, reader.new)) result (written_at reader.old) }
{
    let host = reader.u32()?;
    let inc = reader.u32()?;
    let file = reader.u32()?;
    let block = reader.u32()?;
    let last = reader.u64()?;
    Ok(Written {
        host: Host(host),
        inc,
        file: FileId(file),
        block: BlockNo(block),
        last,
    })
}

/// The body of a block. Shorter opaque data is none.
#[tactic(auto, unfolding(crate::specs::Reading::body_at))]
fn body<'a>(reader: &mut Reader<'a>) -> Result<&'a [u8], XdrFault>
    ensures step { Gives (λ b. (b.now, reader.new)) result (body_at reader.old) }
    ensures size { IfOk result (λ b. length b.now ≡ 4096) }
{
    let bytes = reader.opaque(4096)?;
    if bytes.len() != Block::SIZE {
        return Err(XdrFault::Short);
    }
    Ok(bytes)
}

/// What a push rests on.
#[tactic(auto, unfolding(crate::specs::Reading::base_at))]
fn base(reader: &mut Reader) -> Result<PushBase, XdrFault>
    ensures { Gives (λ b. (b, reader.new)) result (base_at reader.old) }
{
    let boot = reader.u32()?;
    let base = reader.u64()?;
    Ok(PushBase {
        boot,
        base: Rev(base),
    })
}

/// What a push and its COMMIT begin with.
#[tactic(auto, unfolding(crate::specs::Reading::front_at))]
fn front_of(reader: &mut Reader) -> Result<Front, XdrFault>
    ensures { Gives (λ f. (f, reader.new)) result (front_at reader.old) }
{
    let host = reader.u32()?;
    let inc = reader.u32()?;
    let seq = reader.u64()?;
    let file = reader.u32()?;
    let block = reader.u32()?;
    let first = reader.u64()?;
    let last = reader.u64()?;
    Ok(Front {
        who: Who {
            host: Host(host),
            inc: Inc(inc),
        },
        seq: Seq(seq),
        file: FileId(file),
        block: BlockNo(block),
        first: Number(first),
        last: Number(last),
    })
}

/// The push of which a front and a base were read.
fn pushed(xid: u32, front: Front, base: PushBase) -> Pushed
    ensures { result ≡ pushed_of xid front base }
{
    Pushed {
        xid,
        who: front.who,
        seq: front.seq,
        file: front.file,
        block: front.block,
        first: front.first,
        last: front.last,
        base,
    }
}

/// The STAGE of a call's arguments.
#[tactic(auto, unfolding(crate::specs::Reading::stage_at))]
fn stage_of(call: ProcedureCall<'_>) -> Result<LentStage<'_>, XdrFault>
    ensures step { Gives lent_stage result (stage_at call.entry.xid call.entry.arguments.now) }
    ensures body { IfOk result (λ s. length s.body.now ≡ 4096) }
{
    let ProcedureCall { xid, arguments } = call;
    let mut reader = Reader::new(arguments);
    let written = written(&mut reader)?;
    let body = body(&mut reader)?;
    end(reader)?;
    Ok(LentStage { xid, written, body })
}

/// The COMMIT of a call's arguments.
#[tactic(auto, unfolding(crate::specs::Reading::commit_at))]
fn commit_of(call: ProcedureCall<'_>) -> Result<Commit, XdrFault>
    ensures { Gives (λ c. c) result (commit_at call.entry.xid call.entry.arguments.now) }
{
    let ProcedureCall { xid, arguments } = call;
    let mut reader = Reader::new(arguments);
    let front = front_of(&mut reader)?;
    let base = base(&mut reader)?;
    let verifier = reader.u32()?;
    end(reader)?;
    Ok(Commit {
        pushed: pushed(xid, front, base),
        verifier,
    })
}

/// The push of a call's arguments.
#[tactic(auto, unfolding(crate::specs::Reading::push_at))]
fn push_of(call: ProcedureCall<'_>) -> Result<Pushed, XdrFault>
    ensures { Gives (λ p. p) result (push_at call.entry.xid call.entry.arguments.now) }
{
    let ProcedureCall { xid, arguments } = call;
    let mut reader = Reader::new(arguments);
    let front = front_of(&mut reader)?;
    if !reader.boolean()? {
        return Err(XdrFault::Bool);
    }
    let base = base(&mut reader)?;
    body(&mut reader)?;
    end(reader)?;
    Ok(pushed(xid, front, base))
}

/// The incarnation, the status and the verifier of a reply to a STAGE.
#[tactic(auto, unfolding(crate::specs::Reading::staged_at))]
fn staged_of(results: &[u8]) -> Result<(u32, u32, u32), XdrFault>
    ensures { Gives (λ s. s) result (staged_at results.now) }
{
    let mut reader = Reader::new(results);
    let inc = reader.u32()?;
    let status = reader.u32()?;
    let verifier = reader.u32()?;
    end(reader)?;
    Ok((inc, status, verifier))
}

/// The incarnation and the status of a reply with nothing behind them.
#[tactic(auto, unfolding(crate::specs::Reading::unstaged_at))]
fn unstaged_of(results: &[u8]) -> Result<(u32, u32), XdrFault>
    ensures { Gives (λ s. s) result (unstaged_at results.now) }
{
    let mut reader = Reader::new(results);
    let inc = reader.u32()?;
    let status = reader.u32()?;
    end(reader)?;
    Ok((inc, status))
}

//! Writing messages, each with AUTH_NULL.

ghost use Rattle.std.specs.Prelude.{◌≡◌, ℕ, ◌+◌, ◌≤◌, List, ◌++◌, length, IfOk, OnOk};
ghost use Rattle.nq_xdr.specs.Message.{call_with, null, reply_with, spelling};
ghost use Rattle.nq_stage.specs.Messages.{commit_bytes, head_of, pushed_bytes, stage_bytes, staged_bytes, unstaged_bytes, write_bytes, written_bytes, IsFront};
ghost use Rattle.nq_stage.specs.Messages.{IsPushed, IsWritten};

use crate::messages::{COMMIT_PROCEDURE, Pushed, STAGE_PROCEDURE, UNSTAGED_STATUS, Written};
use nq_base::{Block, NoMemory};
use nq_datagrams::{PROGRAM, VERSION};
use nq_wire::parts::{put_base, put_body, put_who};
use nq_xdr::Writer;
use nq_xdr::rpc::{CallHead, begin_call, begin_reply};
use std::alloc::Global;

/// The procedure WRITE.
const WRITE: u32 = 6;

/// The status OK.
const OK: u32 = 0;

/// How many bytes a STAGE has.
const STAGE_SIZE: usize = 4164;

/// How many bytes a COMMIT has.
const COMMIT_SIZE: usize = 96;

/// How many bytes a push has.
const PUSH_SIZE: usize = 4196;

/// How many bytes a reply to a STAGE has.
const STAGED_SIZE: usize = 36;

/// The datagram of a STAGE with this number: it sends the body of a write ahead.
///
/// # Errors
///
/// `NoMemory` where memory is wanting.
#[tactic(auto, unfolding(crate::specs::Messages::stage_bytes))]
pub fn stage_bytes(
    alloc: Global,
    xid: u32,
    written: &Written,
    body: &Block,
) -> Result<Vec<u8>, NoMemory>
    ensures bytes { IfOk result (λ v. v.items ≡ stage_bytes xid written.now body.now) }
    ensures fits { OnOk result (IsWritten written.now × (length body.now ≡ 4096)) }
{
    let mut out = begun_call(alloc, xid, STAGE_PROCEDURE, STAGE_SIZE)?;
    put_written(written, &mut out);
    put_body(body, &mut out);
    Ok(out.into_bytes())
}

/// The datagram of the COMMIT that stands for a push whose body was staged in the boot `verifier`.
///
/// # Errors
///
/// `NoMemory` where memory is wanting.
#[tactic(auto, unfolding(crate::specs::Messages::commit_bytes))]
pub fn commit_bytes(alloc: Global, pushed: &Pushed, verifier: u32) -> Result<Vec<u8>, NoMemory>
    ensures bytes { IfOk result (λ v. v.items ≡ commit_bytes pushed.now verifier) }
    ensures fits { OnOk result (IsPushed pushed.now) }
{
    let mut out = begun_call(alloc, pushed.xid, COMMIT_PROCEDURE, COMMIT_SIZE)?;
    put_pushed(pushed, &mut out);
    put_base(&pushed.base, &mut out);
    out.put_u32(verifier);
    Ok(out.into_bytes())
}

/// The datagram of a push with its body: a WRITE.
///
/// # Errors
///
/// `NoMemory` where memory is wanting.
#[tactic(auto, unfolding(crate::specs::Messages::pushed_bytes, nq_datagrams::specs::Messages::bytes_of, nq_wire::specs::Parts::optional, nq_wire::specs::Request::arguments))]
pub fn write_bytes(alloc: Global, pushed: &Pushed, body: &Block) -> Result<Vec<u8>, NoMemory>
    ensures bytes { IfOk result (λ v. v.items ≡ write_bytes pushed.now body.now) }
    ensures fits { OnOk result (IsPushed pushed.now × (length body.now ≡ 4096)) }
{
    let mut out = begun_call(alloc, pushed.xid, WRITE, PUSH_SIZE)?;
    put_pushed(pushed, &mut out);
    out.put_boolean(true);
    put_base(&pushed.base, &mut out);
    put_body(body, &mut out);
    Ok(out.into_bytes())
}

/// The datagram of the reply to a STAGE: the verifier of the boot that took the body.
///
/// # Errors
///
/// `NoMemory` where memory is wanting.
#[tactic(auto, unfolding(crate::specs::Messages::staged_bytes))]
pub fn staged_bytes(alloc: Global, xid: u32, inc: u32, verifier: u32) -> Result<Vec<u8>, NoMemory>
    ensures { IfOk result (λ v. v.items ≡ staged_bytes xid inc verifier) }
{
    let mut out = begun_reply(alloc, xid)?;
    out.put_u32(inc);
    out.put_u32(OK);
    out.put_u32(verifier);
    Ok(out.into_bytes())
}

/// The datagram of the reply to a COMMIT whose body the server does not have.
///
/// # Errors
///
/// `NoMemory` where memory is wanting.
#[tactic(auto, unfolding(crate::specs::Messages::unstaged_bytes))]
pub fn unstaged_bytes(alloc: Global, xid: u32, inc: u32) -> Result<Vec<u8>, NoMemory>
    ensures { IfOk result (λ v. v.items ≡ unstaged_bytes xid inc) }
{
    let mut out = begun_reply(alloc, xid)?;
    out.put_u32(inc);
    out.put_u32(UNSTAGED_STATUS);
    Ok(out.into_bytes())
}

/// Begins the call of a procedure, with room for a datagram of so many bytes.
fn begun_call(alloc: Global, xid: u32, procedure: u32, size: usize) -> Result<Writer, NoMemory>
    requires { 40 ≤ size }
    ensures begun { IfOk result (λ w. (arguments : List ℕ) → w.bytes ++ arguments ≡ spelling (call_with (head_of xid procedure) arguments) null null) }
    ensures room { IfOk result (λ w. size ≤ w.spare + 40) }
{
    let mut out = Writer::behind(Vec::new(alloc));
    out.reserve(size)?;
    begin_call(&head_of(xid, procedure), &mut out).unwrap();
    Ok(out)
}

/// Begins a reply, with room for its results.
fn begun_reply(alloc: Global, xid: u32) -> Result<Writer, NoMemory>
    ensures begun { IfOk result (λ w. (results : List ℕ) → w.bytes ++ results ≡ spelling (reply_with xid results) null null) }
    ensures room { IfOk result (λ w. 12 ≤ w.spare) }
{
    let mut out = Writer::behind(Vec::new(alloc));
    out.reserve(STAGED_SIZE)?;
    begin_reply(xid, &mut out).unwrap();
    Ok(out)
}

/// What a call of a procedure of the program begins with.
fn head_of(xid: u32, procedure: u32) -> CallHead
    ensures { result ≡ head_of xid procedure }
{
    CallHead {
        xid,
        prog: PROGRAM,
        vers: VERSION,
        procedure,
    }
}

/// Writes which write a body is of. There is room.
#[tactic(auto, unfolding(crate::specs::Messages::written_bytes))]
fn put_written(written: &Written, out: &mut Writer)
    requires { 24 ≤ out.old.spare }
    ensures written { out.new.bytes ≡ out.old.bytes ++ written_bytes written.now }
    ensures fits { IsWritten written.now }
    ensures spare { out.old.spare ≤ out.new.spare + 24 }
{
    out.put_u32(written.host.0);
    out.put_u32(written.inc);
    out.put_u32(written.file.0);
    out.put_u32(written.block.0);
    out.put_u64(written.last);
}

/// Writes what a push and its COMMIT begin with. There is room.
#[tactic(auto, unfolding(crate::specs::Messages::pushed_bytes))]
fn put_pushed(pushed: &Pushed, out: &mut Writer)
    requires { 40 ≤ out.old.spare }
    ensures written { out.new.bytes ≡ out.old.bytes ++ pushed_bytes pushed.now }
    ensures fits { IsFront pushed.now }
    ensures spare { out.old.spare ≤ out.new.spare + 40 }
{
    put_who(&pushed.who, out);
    out.put_u64(pushed.seq.0);
    out.put_u32(pushed.file.0);
    out.put_u32(pushed.block.0);
    out.put_u64(pushed.first.0);
    out.put_u64(pushed.last.0);
}
